// The whole: workers on threads of their own, and the gatherer.
ghost use Rattle.std.specs.Prelude.{◌≡◌, ◌≢◌, ◌++◌, [], ℕ, ◌<◌, ◌≤◌, ◌↔◌, length, map, All, IfOk, MatchResult, Err};
ghost use Rattle.once_cell.specs.Once.{cell_name};
ghost use Rattle.pool_board.specs.Seats.{IsAllSeats, IsWorked, all_had, max_workers};
ghost use Rattle.pool_board.specs.Results.{AreResults, IsRan, IsMade};
ghost use Rattle.m2_pool.specs.Tallied.{IsTally};

use crate::gather::{gather_results, place_results};
use crossbeam_deque::{Stealer, Worker};
use once_cell::race::OnceBox;
use pool_board::{
    Board, BoardSeat, Gate, JobGraph, Member, Pool, PoolRefusal, Ran, Tally, Work, empty_cells,
    work_on,
};
use std::alloc::{AllocError, Global};
use std::thread;
use std::thread::Threads;

/// Results of the work's own graph, in job order, and a tally.
///
/// Each result is one that the work's definition gives for its job, from the results that are answered for its
/// prerequisites: all together are one answer. The tally has a list for each worker, of jobs to which the gate let it in, and
/// one of the jobs that none had: together each job exactly once, and nothing else. The lists are what seats had that kept
/// the board's rule; no clause says which worker's seat has which. So it is for every number of workers, every gate and
/// every schedule. The refusal is `Workers` exactly if there are not 1 to 64 workers, and else `NoMemory`.
///
/// The j-th job without prerequisites is dealt to worker j modulo the number of workers. A worker takes jobs from its
/// own deque, first in first out, and else steals; if it sees the results of a job's prerequisites, the gate lets it
/// in and it gets the job, it runs it, publishes the result, and keeps the jobs whose last prerequisite this was. It ends
/// when it finds no job in its own deque nor in 1000 rounds over the others, or took as many jobs as there are.
///
/// When all have ended, the jobs that none had are run here, in job order and without the gate. So are those that stand on a
/// result that cannot be shown to be of this run; as far as we know there are none.
pub fn run_jobs<R: Threads + Sync, W: Work, G: Gate>(
    rt: &R,
    alloc: Global,
    graph: &JobGraph,
    workers: usize,
    gate: &G,
    work: &W,
) -> Result<(Vec<W::Out>, Tally), PoolRefusal>
    requires { graph.now ≡ W.graph work.now }
    ensures workers { (result ≡ Err PoolRefusal.Workers)
        ↔ ¬ ((1 ≤ workers) × (workers ≤ max_workers)) }
    ensures graph { result ≢ Err PoolRefusal.Prerequisite }
    ensures results { IfOk result (λ r.
        AreResults (W.graph work.now) (W.defines work.now) r.0.items) }
    ensures seats { IfOk result (λ r. length r.1.seats.items ≡ workers) }
    ensures admitted { IfOk result
        (λ r. All (λ l. All (G.admits gate.now) l) (map (λ l. l.items) r.1.seats.items)) }
    // The lists are what seats had that kept the board's rule; all together are the jobs, each once.
    ensures tally { IfOk result
        (λ r. IsTally graph.now workers (map (λ l. l.items) r.1.seats.items) r.1.gatherer.items) }
{
    let (board, seats) = Board::open(alloc, graph, workers)?;
    let cells = empty_cells(alloc, graph.jobs())?;
    Ok(run_on(rt, alloc, board, seats, graph, cells.as_slice(), gate, work)?)
}

/// The same, on a board that was just opened and with these cells. A cell may hold a result already: what stands on one that
/// no worker published is run again. The error is want of memory.
pub fn run_on<R: Threads + Sync, W: Work, G: Gate>(
    rt: &R,
    alloc: Global,
    board: Board,
    seats: Vec<BoardSeat>,
    graph: &JobGraph,
    cells: &[OnceBox<W::Out>],
    gate: &G,
    work: &W,
) -> Result<(Vec<W::Out>, Tally), AllocError>
    requires graph { (graph.now ≡ W.graph work.now) × (graph.now ≡ board.graph) }
    requires cells { length cells.now ≡ length graph.now }
    requires seats { IsAllSeats board seats.items × (0 < board.workers) }
    requires new { All (λ s. s.had ≡ []) seats.items }
    ensures results { IfOk result (λ r.
        AreResults (W.graph work.now) (W.defines work.now) r.0.items) }
    ensures seats { IfOk result (λ r. length r.1.seats.items ≡ board.workers) }
    ensures admitted { IfOk result
        (λ r. All (λ l. All (G.admits gate.now) l) (map (λ l. l.items) r.1.seats.items)) }
    ensures tally { IfOk result (λ r.
        IsTally graph.now board.workers (map (λ l. l.items) r.1.seats.items) r.1.gatherer.items) }
{
    let owns = dealt(alloc, graph, seats.len())?;
    let stealers = stealers_of(alloc, owns.as_slice())?;
    let pool = Pool {
        board: &board,
        graph,
        cells,
        stealers: stealers.as_slice(),
        gate,
        work,
    };
    let members = members_of(alloc, seats, owns)?;
    let ended = all_work(rt, alloc, &pool, members)?;
    let (seats, all) = return_result(alloc, &pool, ended)?;
    let places = place_results(alloc, &pool, all)?;
    let outs = gather_results(alloc, &pool, places)?;
    let tally = board.close(seats);
    Ok((outs, tally))
}

// A deque for each worker, with the jobs that wait for none dealt to them in turn.
fn dealt(alloc: Global, graph: &JobGraph, workers: usize) -> Result<Vec<Worker<usize>>, AllocError>
    requires { 0 < workers }
    ensures { IfOk result (λ v. length v.items ≡ workers) }
{
    let mut owns = deques(alloc, graph.jobs(), workers)?;
    let mut next = 0;
    for job in 0..graph.jobs() {
        if graph.prerequisites(job).is_empty() {
            // A job that the deque does not take is left to the gatherer.
            let _ = owns[next].push(job);
            next = (next + 1) % workers;
        }
    }
    Ok(owns)
}

// An empty deque for each worker, with room for all jobs.
fn deques(alloc: Global, jobs: usize, workers: usize) -> Result<Vec<Worker<usize>>, AllocError>
    ensures { IfOk result (λ v. length v.items ≡ workers) }
{
    let mut owns = Vec::with_capacity(alloc, workers)?;
    for _ in 0..workers {
        owns.push(Worker::new_fifo(alloc, jobs)?)?;
    }
    Ok(owns)
}

// What steals from each deque.
fn stealers_of(alloc: Global, owns: &[Worker<usize>]) -> Result<Vec<Stealer<usize>>, AllocError>
    ensures { IfOk result (λ v. length v.items ≡ length owns.now) }
{
    let mut stealers = Vec::with_capacity(alloc, owns.len())?;
    for own in owns {
        stealers.push(own.stealer()?)?;
    }
    Ok(stealers)
}

// The workers: each has the seat and the deque of its number, and ran nothing.
fn members_of<W: Work>(
    alloc: Global,
    seats: Vec<BoardSeat>,
    mut owns: Vec<Worker<usize>>,
) -> Result<Vec<Member<W>>, AllocError>
    requires { length owns.items ≡ length seats.items }
    ensures seats { IfOk result (λ v. map (λ m. m.seat) v.items ≡ seats.items) }
    ensures new { IfOk result (λ v. All (λ m. m.ran.items ≡ []) v.items) }
{
    // The deques are taken from the end, so the first of them comes last.
    owns.reverse();
    let mut members = Vec::with_capacity(alloc, seats.len())?;
    for seat in seats {
        let Some(own) = owns.pop() else {
            unreachable!()
        };
        members.push(Member {
            number: members.len(),
            seat,
            own,
            ran: Vec::new(alloc),
        })?;
    }
    Ok(members)
}

// Each worker works on a thread of its own, until all have ended.
fn all_work<R: Threads + Sync, W: Work, G: Gate>(
    rt: &R,
    alloc: Global,
    pool: &Pool<'_, W, G>,
    members: Vec<Member<W>>,
) -> Result<Vec<Result<Member<W>, AllocError>>, AllocError>
    requires seats { All
        (λ m. (m.seat.board ≡ pool.now.board.now.id) × (m.seat.had ≡ []) × (m.ran.items ≡ []))
        members.items }
    ensures count { IfOk result (λ v. length v.items ≡ length members.items) }
    ensures each { IfOk result (λ v.
        All (λ e.
        IfOk e (λ m.
        IsWorked pool.now.board.now.id pool.now.graph.now m.seat
        × All (G.admits pool.now.gate.now) m.seat.had
        × (map (λ r. r.job) m.ran.items ≡ m.seat.had)
        × All (λ r.
        MatchResult r.kept (λ n.
        IsRan (map cell_name pool.now.cells.now) pool.now.graph.now
        (W.defines pool.now.work.now) r.job n.cell n.known
        (map (λ u. u.cell) r.used.items)
        (map (λ u. u.known) r.used.items)) (λ b.
        IsMade (map cell_name pool.now.cells.now) pool.now.graph.now
        (W.defines pool.now.work.now) r.job b.value
        (map (λ u. u.cell) r.used.items)
        (map (λ u. u.known) r.used.items))) m.ran.items)) v.items) }
{
    thread::map_vec(
        rt,
        members,
        &|member: Member<W>| -> Result<Member<W>, AllocError>
            requires { (member.seat.board ≡ pool.now.board.now.id)
                × (member.seat.had ≡ [])
                × (member.ran.items ≡ []) }
            ensures { IfOk result (λ m.
                IsWorked pool.entry.now.board.now.id pool.entry.now.graph.now m.seat
                × All (G.admits pool.entry.now.gate.now) m.seat.had
                × (map (λ r. r.job) m.ran.items ≡ m.seat.had)
                × All (λ r.
                MatchResult r.kept (λ n.
                IsRan (map cell_name pool.entry.now.cells.now)
                pool.entry.now.graph.now (W.defines pool.entry.now.work.now)
                r.job n.cell n.known (map (λ u. u.cell) r.used.items)
                (map (λ u. u.known) r.used.items)) (λ b.
                IsMade (map cell_name pool.entry.now.cells.now)
                pool.entry.now.graph.now (W.defines pool.entry.now.work.now)
                r.job b.value (map (λ u. u.cell) r.used.items)
                (map (λ u. u.known) r.used.items))) m.ran.items) }
        { work_on(alloc, pool, member) },
    )
}

// The seats that came back, and all that was run, if no worker was refused memory.
fn return_result<W: Work, G: Gate>(
    alloc: Global,
    pool: &Pool<'_, W, G>,
    ended: Vec<Result<Member<W>, AllocError>>,
) -> Result<(Vec<BoardSeat>, Vec<Ran<W>>), AllocError>
    requires { All (λ e.
        IfOk e (λ m.
        IsWorked pool.now.board.now.id pool.now.graph.now m.seat
        × All (G.admits pool.now.gate.now) m.seat.had
        × (map (λ r. r.job) m.ran.items ≡ m.seat.had)
        × All (λ r.
        MatchResult r.kept (λ n.
        IsRan (map cell_name pool.now.cells.now) pool.now.graph.now
        (W.defines pool.now.work.now) r.job n.cell n.known
        (map (λ u. u.cell) r.used.items)
        (map (λ u. u.known) r.used.items)) (λ b.
        IsMade (map cell_name pool.now.cells.now) pool.now.graph.now
        (W.defines pool.now.work.now) r.job b.value
        (map (λ u. u.cell) r.used.items)
        (map (λ u. u.known) r.used.items))) m.ran.items)) ended.items }
    ensures count { IfOk result (λ r. length r.0.items ≡ length ended.items) }
    ensures seats { IfOk result (λ r.
        All (λ s. IsWorked pool.now.board.now.id pool.now.graph.now s) r.0.items) }
    ensures admitted { IfOk result (λ r.
        All (λ s. All (G.admits pool.now.gate.now) s.had) r.0.items) }
    ensures ran { IfOk result (λ r. map (λ a. a.job) r.1.items ≡ all_had r.0.items) }
    ensures stands { IfOk result (λ o.
        All (λ r.
        MatchResult r.kept (λ n.
        IsRan (map cell_name pool.now.cells.now) pool.now.graph.now
        (W.defines pool.now.work.now) r.job n.cell n.known
        (map (λ u. u.cell) r.used.items) (map (λ u. u.known) r.used.items)) (λ b.
        IsMade (map cell_name pool.now.cells.now) pool.now.graph.now
        (W.defines pool.now.work.now) r.job b.value (map (λ u. u.cell) r.used.items)
        (map (λ u. u.known) r.used.items))) o.1.items) }
{
    let mut seats = Vec::with_capacity(alloc, ended.len())?;
    let mut all = Vec::new(alloc);
    for one in ended {
        let Member {
            number: _,
            seat,
            own: _,
            mut ran,
        } = one?;
        seats.push(seat)?;
        all.append(&mut ran)?;
    }
    Ok((seats, all))
}
