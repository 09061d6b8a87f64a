ghost use Rattle.std.specs.Prelude.{◌≡◌, ◌<◌, map, length, IfOk};
ghost use Rattle.test_builds.specs.Halving.{graph_of};

use crate::gates::{Always, Meeting};
use m2_pool::{Board, BoardSeat, Gate, JobGraph, PoolRefusal, Tally, Work, run_jobs, run_on};
use pool_board::empty_cells;
use std::alloc::{AllocError, Global};
use std::process::Abort;
use std::sync::atomic::AtomicUsize;
use std::sync::atomic::Ordering::SeqCst;
use std::test::Fail;
use std::thread;
use std::thread::Threads;

// The result of a job is half the result of its first prerequisite, or the key. It counts how many jobs are run.
#[derive(Clone, Copy)]
struct Halving<'a> {
    key: u64,
    runs: &'a AtomicUsize,
}

impl Work for Halving<'_> {
    ghost use Rattle.test_builds.specs.Halving.{graph_of, Halves};

    type Out = u64;

    ghost graph = { λ w. graph_of w.key };

    ghost defines = { λ w. Halves w.key };

    fn run(&self, _job: usize, prerequisites: &[&u64]) -> Result<u64, AllocError> {
        self.runs.fetch_add(1, SeqCst);
        if prerequisites.is_empty() {
            Ok(self.key)
        } else {
            Ok(*prerequisites[0] / 2)
        }
    }

    fn copy(&self, out: &u64) -> Result<u64, AllocError> {
        Ok(*out)
    }
}

// Lets nobody in to one job.
#[derive(Drop)]
struct Bars(usize);

impl Gate for Bars {
    ghost use Rattle.std.specs.Prelude.{◌≢◌};

    ghost admits = { λ g job. job ≢ g.0 };

    fn enter(&self, job: usize) -> bool {
        job != self.0
    }
}

// How many came, and how often others were waited for in vain.
#[derive(Drop)]
struct Arrivals {
    came: AtomicUsize,
    limits: AtomicUsize,
}

impl Arrivals {
    fn new() -> Arrivals {
        Arrivals {
            came: AtomicUsize::new(0),
            limits: AtomicUsize::new(0),
        }
    }

    // Waits until this many came, for a while.
    fn wait(&self, count: usize) {
        for _ in 0..200_000_000u64 {
            if self.came.load(SeqCst) >= count {
                return;
            }
            std::hint::spin_loop();
        }
        self.limits.fetch_add(1, SeqCst);
    }
}

// Holds job 1 until one of the jobs behind job 0 comes, and each of these two until the other comes.
#[derive(Drop)]
struct MeetingBehind(Arrivals);

impl Gate for MeetingBehind {
    ghost admits = { λ _ _. Unit {0} };

    fn enter(&self, job: usize) -> bool {
        match job {
            0 => {}
            1 => self.0.wait(1),
            _ => {
                self.0.came.fetch_add(1, SeqCst);
                self.0.wait(2);
            }
        }
        true
    }
}

fn graph_of(alloc: Global, rows: &[&[usize]]) -> Result<JobGraph, PoolRefusal>
    ensures { IfOk result (λ g. g ≡ map (λ r. r.now) rows.now) }
{
    let lists = lists(alloc, rows)?;
    JobGraph::of(alloc, lists.as_slice())
}

fn lists(alloc: Global, rows: &[&[usize]]) -> Result<Vec<Vec<usize>>, AllocError>
    ensures { IfOk result (λ v. map (λ l. l.items) v.items ≡ map (λ r. r.now) rows.now) }
{
    let mut lists = Vec::with_capacity(alloc, rows.len())?;
    for row in rows {
        lists.push(Vec::from_slice(alloc, row)?)?;
    }
    Ok(lists)
}

// What came of a run: the results, who had which job, and how many jobs were run.
#[derive(Drop)]
struct Ended {
    outs: Vec<u64>,
    tally: Tally,
    runs: usize,
}

// What comes of the jobs of these rows.
fn came<R: Threads + Sync, G: Gate>(
    rt: &R,
    alloc: Global,
    rows: &[&[usize]],
    key: u64,
    workers: usize,
    gate: &G,
) -> Result<Ended, PoolRefusal>
    requires { map (λ r. r.now) rows.now ≡ graph_of key }
{
    let graph = graph_of(alloc, rows)?;
    let runs = AtomicUsize::new(0);
    let work = Halving { key, runs: &runs };
    let (outs, tally) = run_jobs(rt, alloc, &graph, workers, gate, &work)?;
    let runs = runs.load(SeqCst);
    Ok(Ended { outs, tally, runs })
}

// What comes of four jobs, if the cell of one was set before.
fn came_strangely<R: Threads + Sync + Abort>(
    rt: &R,
    alloc: Global,
    job: usize,
    value: u64,
) -> Result<Ended, Fail>
    requires { job < 4 }
{
    let graph = graph_of(alloc, &[&[], &[0], &[0], &[1, 2]])?;
    let (board, seats) = Board::open(alloc, &graph, 2)?;
    let cells = empty_cells(alloc, 4)?;
    assert!(rt; cells[job].set(Box::new(alloc, value)?).is_ok());
    let runs = AtomicUsize::new(0);
    let work = Halving {
        key: 800,
        runs: &runs,
    };
    let gate = Always(true);
    let cells = cells.as_slice();
    let (outs, tally) = run_on(rt, alloc, board, seats, &graph, cells, &gate, &work)?;
    let runs = runs.load(SeqCst);
    Ok(Ended { outs, tally, runs })
}

#[test]
fn an_open_gate_leaves_nothing_to_the_gatherer(rt: HostRuntime) -> Result<(), Fail> {
    for workers in [1, 8] {
        let rows: [&[usize]; 4] = [&[], &[0], &[0], &[1, 2]];
        let came = came(&rt, rt.alloc(), &rows, 800, workers, &Always(true))?;
        assert!(rt; came.outs.as_slice() == [800, 400, 400, 200].as_slice());
        assert!(rt; came.tally.seats.len() == workers && came.tally.gatherer.is_empty());
        assert!(rt; came.runs == 4);
    }
    Ok(())
}

#[test]
fn a_shut_gate_leaves_all_to_the_gatherer(rt: HostRuntime) -> Result<(), Fail> {
    for workers in [1, 2] {
        let rows: [&[usize]; 4] = [&[], &[0], &[0], &[1, 2]];
        let came = came(&rt, rt.alloc(), &rows, 800, workers, &Always(false))?;
        assert!(rt; came.outs.as_slice() == [800, 400, 400, 200].as_slice());
        assert!(rt; came.tally.gatherer.as_slice() == [0, 1, 2, 3].as_slice());
    }
    Ok(())
}

#[test]
fn what_waits_for_a_barred_job_is_left(rt: HostRuntime) -> Result<(), Fail> {
    let came = came(&rt, rt.alloc(), &[&[], &[0], &[1]], 8, 2, &Bars(0))?;
    assert!(rt; came.outs.as_slice() == [8, 4, 2].as_slice());
    assert!(rt; came.tally.seats.iter().all(|list| list.is_empty()));
    assert!(rt; came.tally.gatherer.as_slice() == [0, 1, 2].as_slice());
    Ok(())
}

#[test]
fn what_does_not_wait_for_a_barred_job_is_run(rt: HostRuntime) -> Result<(), Fail> {
    let came = came(&rt, rt.alloc(), &[&[], &[], &[0, 1]], 9, 2, &Bars(0))?;
    assert!(rt; came.outs.as_slice() == [9, 9, 4].as_slice());
    let one = [1];
    let of_one = came
        .tally
        .seats
        .iter()
        .any(|l| l.as_slice() == one.as_slice());
    let of_none = came.tally.seats.iter().any(|l| l.is_empty());
    assert!(rt; of_one && of_none && came.tally.seats.len() == 2);
    assert!(rt; came.tally.gatherer.as_slice() == [0, 2].as_slice());
    Ok(())
}

#[test]
fn two_jobs_run_at_the_same_time(rt: HostRuntime) -> Result<(), Fail> {
    let gate = Meeting::after(0);
    let came = came(&rt, rt.alloc(), &[&[], &[]], 10, 2, &gate)?;
    assert!(rt; came.outs.as_slice() == [10, 10].as_slice());
    assert!(rt; gate.met());
    assert!(rt; came.tally.seats.iter().all(|list| list.len() == 1));
    assert!(rt; came.tally.gatherer.is_empty());
    Ok(())
}

// Job 0 is dealt to one worker, whose own deque gets both jobs behind it. The other worker has to steal one of them.
#[test]
fn a_job_is_stolen_from_the_other_worker(rt: HostRuntime) -> Result<(), Fail> {
    let gate = MeetingBehind(Arrivals::new());
    let came = came(&rt, rt.alloc(), &[&[], &[], &[0], &[0]], 20, 2, &gate)?;
    assert!(rt; came.outs.as_slice() == [20, 20, 10, 10].as_slice());
    assert!(rt; gate.0.came.load(SeqCst) == 2 && gate.0.limits.load(SeqCst) == 0);
    assert!(rt; came.tally.gatherer.is_empty());
    Ok(())
}

// All jobs stand on the strange result: the result of the first job is taken as it was handed back, the others are run
// again.
#[test]
fn what_stands_on_a_strange_result_is_run_again(rt: HostRuntime) -> Result<(), Fail> {
    let came = came_strangely(&rt, rt.alloc(), 0, 640)?;
    assert!(rt; came.outs.as_slice() == [800, 400, 400, 200].as_slice());
    assert!(rt; came.tally.gatherer.is_empty());
    assert!(rt; came.runs == 7);
    Ok(())
}

// The last job alone stands on the strange result. The result that was handed back is taken.
#[test]
fn a_strange_result_of_a_later_job_is_not_taken(rt: HostRuntime) -> Result<(), Fail> {
    let came = came_strangely(&rt, rt.alloc(), 2, 7)?;
    assert!(rt; came.outs.as_slice() == [800, 400, 400, 200].as_slice());
    assert!(rt; came.tally.gatherer.is_empty());
    assert!(rt; came.runs == 5);
    Ok(())
}

#[test]
fn there_are_1_to_64_workers(rt: HostRuntime) -> Result<(), Fail> {
    for workers in [0, 65] {
        let refusal = came(&rt, rt.alloc(), &[&[], &[]], 10, workers, &Always(true)).err();
        assert!(rt; refusal.map(|r| r.number()) == Some(70));
    }
    let came = came(&rt, rt.alloc(), &[&[], &[]], 10, 64, &Always(true))?;
    assert!(rt; came.outs.as_slice() == [10, 10].as_slice() && came.tally.seats.len() == 64);
    Ok(())
}

// Claims each job of the board.
fn claim_all(board: &Board, jobs: usize, mut seat: BoardSeat) -> BoardSeat
    requires board { seat.board ≡ board.now.id }
    requires jobs { jobs ≡ length board.now.graph }
    ensures { result.board ≡ board.now.id }
{
    for job in 0..jobs {
        board.claim(&mut seat, job);
    }
    seat
}

#[test]
fn two_threads_of_a_caller_claim_each_job_once(rt: HostRuntime) -> Result<(), Fail> {
    let mut rows = Vec::new(rt.alloc());
    for _ in 0..1000 {
        rows.push(Vec::new(rt.alloc()))?;
    }
    let graph = JobGraph::of(rt.alloc(), rows.as_slice())?;
    let jobs = graph.jobs();
    let (board, seats) = Board::open(rt.alloc(), &graph, 2)?;
    let seats = thread::map_vec(
        &rt,
        seats,
        &|seat: BoardSeat| -> BoardSeat
            requires { (seat.board ≡ board.id) × (jobs ≡ length board.graph) }
            ensures { result.board ≡ board.id }
        { claim_all(&board, jobs, seat) },
    )?;
    let tally = board.close(seats);
    assert!(rt; tally.gatherer.is_empty());
    let mut all = Vec::new(rt.alloc());
    for list in &tally.seats {
        all.extend_from_slice(list.as_slice())?;
    }
    all.sort_unstable();
    assert!(rt; all.len() == 1000);
    assert!(rt; all.iter().enumerate().all(|(place, job)| place == *job));
    Ok(())
}
