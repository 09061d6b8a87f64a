// One worker: it takes jobs from deques, runs those that it gets, and publishes their results.
ghost use Rattle.std.specs.Prelude.{◌≡◌, ◌≢◌, ◌++◌, ◌∷◌, [], ℕ, ◌<◌, length, map, All, Some, IfOk, MatchResult, OnOk};
ghost use Rattle.once_cell.specs.Once.{cell_name};
ghost use Rattle.pool_board.specs.Lists.{times};
ghost use Rattle.pool_board.specs.Graph.{prerequisites_of, targets_of, IsJobGraph};
ghost use Rattle.pool_board.specs.Rule.{count_of_edge, AreCounted};
ghost use Rattle.pool_board.specs.Seats.{SeatState, IsWorked};
ghost use Rattle.pool_board.specs.Results.{items_at, IsRan, IsMade};

use crate::cells::{Found, all_finished};
use crate::ran::Ran;
use crate::work::{Gate, Work};
use crate::{Board, BoardSeat, JobGraph};
use crossbeam_deque::{Steal, Stealer, Worker};
use once_cell::race::{Note, OnceBox};
use std::alloc::{AllocError, Global};

// How often a worker whose own deque is empty goes round the deques of the others before it ends.
const ROUNDS: usize = 1000;

/// A worker: its place among the workers, its seat, its own deque, and what it ran, in the order of its seat's list.
#[derive(Drop)]
pub struct Member<W: Work> {
    pub number: usize,
    pub seat: BoardSeat,
    pub own: Worker<usize>,
    pub ran: Vec<Ran<W>>,
}

/// What all workers share.
#[derive(Drop)]
pub struct Pool<'a, W: Work, G: Gate> {
    pub board: &'a Board,
    pub graph: &'a JobGraph,
    pub cells: &'a [OnceBox<W::Out>],
    pub stealers: &'a [Stealer<usize>],
    pub gate: &'a G,
    pub work: &'a W,
    pub ghost of_board: { graph.now ≡ board.now.graph },
    pub ghost of_work: { graph.now ≡ W.graph work.now },
    pub ghost cell_each: { length cells.now ≡ length graph.now },
}

/// Works, as a worker that ran nothing yet, until nothing is found, or as many jobs were taken as the graph has.
///
/// What the worker ran is what its seat had, each with what it stands on. The gate let it in to each of these jobs, and it
/// counted each of their edges. It fails only for want of memory.
pub fn work_on<W: Work, G: Gate>(
    alloc: Global,
    pool: &Pool<'_, W, G>,
    mut member: Member<W>,
) -> Result<Member<W>, AllocError>
    requires seat { member.seat.board ≡ pool.now.board.now.id }
    requires new { (member.seat.had ≡ []) × (member.ran.items ≡ []) }
    ensures seat { IfOk result (λ m. IsWorked pool.now.board.now.id pool.now.graph.now m.seat) }
    ensures admitted { IfOk result (λ m. All (G.admits pool.now.gate.now) m.seat.had) }
    ensures ran { IfOk result (λ m. map (λ r. r.job) m.ran.items ≡ m.seat.had) }
    ensures stands { IfOk result (λ m.
        All (λ r.
        MatchResult r.kept (λ n.
        IsRan (map cell_name pool.now.cells.now) pool.now.graph.now
        (W.defines pool.now.work.now) r.job n.cell n.known
        (map (λ u. u.cell) r.used.items) (map (λ u. u.known) r.used.items)) (λ b.
        IsMade (map cell_name pool.now.cells.now) pool.now.graph.now
        (W.defines pool.now.work.now) r.job b.value (map (λ u. u.cell) r.used.items)
        (map (λ u. u.known) r.used.items))) m.ran.items) }
{
    for _ in 0..pool.graph.jobs() {
        let Some(job) = next_job(&mut member.own, pool.stealers, member.number) else {
            return Ok(member);
        };
        attempt(alloc, pool, &mut member, job)?;
    }
    Ok(member)
}

// A job from the worker's own deque, else one that it steals. A steal that would have to be tried again gives nothing.
fn next_job(own: &mut Worker<usize>, stealers: &[Stealer<usize>], number: usize) -> Option<usize> {
    if let Some(job) = own.pop() {
        return Some(job);
    }
    for _ in 0..ROUNDS {
        if let Some(job) = stolen(stealers, number) {
            return Some(job);
        }
    }
    None
}

// A job from the deque of another worker than the one of this number.
fn stolen(stealers: &[Stealer<usize>], number: usize) -> Option<usize> {
    for (other, stealer) in stealers.iter().enumerate() {
        if other != number
            && let Steal::Success(job) = stealer.steal()
        {
            return Some(job);
        }
    }
    None
}

// Tries a job: runs it if the results of its prerequisites are seen, the gate lets the worker in and the seat gets it.
fn attempt<W: Work, G: Gate>(
    alloc: Global,
    pool: &Pool<'_, W, G>,
    member: &mut Member<W>,
    job: usize,
) -> Result<(), AllocError>
    requires seat { IsWorked pool.now.board.now.id pool.now.graph.now member.old.seat }
    requires admitted { All (G.admits pool.now.gate.now) member.old.seat.had }
    requires ran { map (λ r. r.job) member.old.ran.items ≡ member.old.seat.had }
    requires stands { All (λ r.
        MatchResult r.kept (λ n.
        IsRan (map cell_name pool.now.cells.now) pool.now.graph.now
        (W.defines pool.now.work.now) r.job n.cell n.known
        (map (λ u. u.cell) r.used.items) (map (λ u. u.known) r.used.items)) (λ b.
        IsMade (map cell_name pool.now.cells.now) pool.now.graph.now
        (W.defines pool.now.work.now) r.job b.value (map (λ u. u.cell) r.used.items)
        (map (λ u. u.known) r.used.items))) member.old.ran.items }
    ensures seat { member.new.seat.board ≡ pool.now.board.now.id }
    ensures counts { OnOk result
        (IsWorked pool.now.board.now.id pool.now.graph.now member.new.seat) }
    ensures admitted { OnOk result (All (G.admits pool.now.gate.now) member.new.seat.had) }
    ensures ran { OnOk result (map (λ r. r.job) member.new.ran.items ≡ member.new.seat.had) }
    ensures stands { All (λ r.
        MatchResult r.kept (λ n.
        IsRan (map cell_name pool.now.cells.now) pool.now.graph.now
        (W.defines pool.now.work.now) r.job n.cell n.known
        (map (λ u. u.cell) r.used.items) (map (λ u. u.known) r.used.items)) (λ b.
        IsMade (map cell_name pool.now.cells.now) pool.now.graph.now
        (W.defines pool.now.work.now) r.job b.value (map (λ u. u.cell) r.used.items)
        (map (λ u. u.known) r.used.items))) member.new.ran.items }
{
    if job >= pool.graph.jobs() {
        return Ok(());
    }
    let prerequisites = pool.graph.prerequisites(job);
    let Some(found) = all_finished(alloc, pool.cells, prerequisites)? else {
        return Ok(());
    };
    if !pool.gate.enter(job) {
        return Ok(());
    }
    if !pool.board.claim(&mut member.seat, job) {
        return Ok(());
    }
    let Found { outs, notes } = found;
    let ran = run(alloc, pool, job, outs.as_slice(), notes)?;
    member.ran.push(ran)?;
    count_all(
        pool.board,
        pool.graph,
        &mut member.seat,
        job,
        &mut member.own,
    );
    Ok(())
}

// Runs a job and publishes its result.
fn run<W: Work, G: Gate>(
    alloc: Global,
    pool: &Pool<'_, W, G>,
    job: usize,
    prerequisites: &[&W::Out],
    used: Vec<Note<W::Out>>,
) -> Result<Ran<W>, AllocError>
    requires job { job < length pool.now.graph.now }
    requires prerequisites { length prerequisites.now
        ≡ length (prerequisites_of pool.now.graph.now job) }
    requires cells { map (λ u. u.cell) used.items
        ≡ items_at (map cell_name pool.now.cells.now) (prerequisites_of pool.now.graph.now job) }
    requires known { map (λ u. u.known) used.items ≡ map (λ p. Some p.now) prerequisites.now }
    ensures job { IfOk result (λ r. r.job ≡ job) }
    ensures ran { IfOk result (λ r.
        MatchResult r.kept (λ n.
        IsRan (map cell_name pool.now.cells.now) pool.now.graph.now
        (W.defines pool.now.work.now) r.job n.cell n.known
        (map (λ u. u.cell) r.used.items) (map (λ u. u.known) r.used.items)) (λ b.
        IsMade (map cell_name pool.now.cells.now) pool.now.graph.now
        (W.defines pool.now.work.now) r.job b.value (map (λ u. u.cell) r.used.items)
        (map (λ u. u.known) r.used.items))) }
{
    let out = pool.work.run(job, prerequisites)?;
    let out = Box::new(alloc, out)?;
    Ok(Ran::publish(&pool.cells[job], job, out, used))
}

// Counts each edge of a job down, and keeps the jobs whose wait it ended.
fn count_all(
    board: &Board,
    graph: &JobGraph,
    seat: &mut BoardSeat,
    job: usize,
    own: &mut Worker<usize>,
)
    requires board { (seat.old.board ≡ board.now.id) × (graph.now ≡ board.now.graph) }
    requires job { (job < length graph.now) × (0 < times job seat.old.had) }
    requires fresh { (edge : ℕ) → count_of_edge job edge seat.old.counts ≡ 0 }
    ensures board { seat.new.board ≡ seat.old.board }
    ensures had { seat.new.had ≡ seat.old.had }
    ensures counted { (edge : ℕ) → edge < length (targets_of graph.now job)
        → count_of_edge job edge seat.new.counts ≡ 1 }
    ensures others { (from edge : ℕ) → from ≢ job
        → count_of_edge from edge seat.new.counts ≡ count_of_edge from edge seat.old.counts }
{
    let targets = graph.targets(job);
    for edge in 0..targets.len() {
        if board.count_down(seat, job, edge) {
            // A job that the deque does not take is left to the gatherer.
            let _ = own.push(targets[edge]);
        }
    }
}
