// The board: a claim word and a waiting word for each job, in one table of atomic words.
ghost use Rattle.std.specs.Prelude.{◌≡◌, ◌++◌, ◌∷◌, [], ℕ, suc, ◌+◌, ◌<◌, ◌≤◌, ◌↔◌, IsTrue, MatchBool, IfOk, length, map, replicate, vec_capacity, slice_index_or, All, Err, ◌≢◌};
ghost use Rattle.std.specs.Slots.{slots_items, slots_len, IsFull};
ghost use Rattle.pool_board.specs.Lists.{times, one_list};
ghost use Rattle.pool_board.specs.Graph.{targets_of};
ghost use Rattle.pool_board.specs.Laws.{NoJobTwice, TakenIsHad, AnsweredOnce};
ghost use Rattle.pool_board.specs.Rule.{count_of_edge, blank, record_of, IsConsistent, IsFresh, IsSourced};
ghost use Rattle.pool_board.specs.Seats.{SeatState, IsAllSeats, max_workers, new_seat, all_had, all_met, all_counts, unset, without};
ghost use Rattle.pool_board.specs.Steps.{count_of, with_count, Counts};

use crate::graph::JobGraph;
use crate::refusal::PoolRefusal;
use crate::rule::{Claiming, Counting, Dealing, Edge, Joining, Keeping, Record, Sitting, Terms};
use atomic_table::{Closed, Seat, Shared, Table};
use std::alloc::{AllocError, Global};
use std::marker::{Brand, Model};
use std::snapshot::Snapshot;

/// How many workers may have seats.
pub const MAX_WORKERS: usize = 64;

/// What the workers share. Contracts see which board it is, its graph and how many seats it gave out.
#[derive(Drop)]
pub struct Board {
    graph: JobGraph,
    table: Table<(), Record, Terms, Keeping, Global>,
    workers: usize,
    lists: Vec<Vec<usize>>,
    unclaimed: Vec<usize>,
}

impl Model for Board {
    ghost use Rattle.pool_board.specs.Seats.{BoardState};

    ghost Value = { BoardState };

    ghost use Rattle.std.specs.Prelude.{map, vec_capacity};
    ghost use Rattle.pool_board.specs.Seats.{IsBoard};

    ghost view = { λ b.
        record { id = b.table.shared.table_id; graph = b.graph; workers = b.workers } };

    ghost invariant = { λ b.
        IsBoard b.graph b.table.shared.key.graph.value b.workers b.table.shared.key.workers
        b.table.shared.table_id.words b.table.shared.table_id.slots (vec_capacity b.lists)
        (vec_capacity b.unclaimed) (map (λ l. l.items) b.lists.items) b.unclaimed.items };
}

/// What one worker has of a board. Contracts see which board it is of, and three lists in the order of the seat's own
/// calls: the jobs that it *had*, those that it *met* and found taken, and the edges that it *counted*, each with the
/// number that its target was left waiting for. Only the first of them is stored.
#[derive(Drop)]
pub struct BoardSeat {
    seat: Seat<(), Record>,
    had: Vec<usize>,
}

impl Model for BoardSeat {
    ghost use Rattle.pool_board.specs.Seats.{SeatState};

    ghost Value = { SeatState };

    ghost use Rattle.std.specs.Prelude.{vec_capacity};
    ghost use Rattle.pool_board.specs.Seats.{IsSeat};

    ghost view = { λ s.
        record {
          board = s.seat.table_id;
          had = s.had.items;
          met = s.seat.me.0.met;
          counts = s.seat.me.0.counts;
        } };

    ghost invariant = { λ s.
        IsSeat s.seat.table_id.words (vec_capacity s.had) s.had.items s.seat.me };
}

/// Who had which job.
#[derive(Drop)]
pub struct Tally {
    /// For each seat the jobs that it had, in the order in which it got them.
    pub seats: Vec<Vec<usize>>,
    /// The jobs that no seat had, in rising order.
    pub gatherer: Vec<usize>,
}

impl Board {
    /// A board on which nothing was done, and a seat for each of the workers.
    ///
    /// All room that the seats' lists and the tally need is taken here. The refusal is `Workers` unless there are 1 to
    /// 64 of them, and else `NoMemory`.
    pub fn open(
        alloc: Global,
        graph: &JobGraph,
        workers: usize,
    ) -> Result<(Board, Vec<BoardSeat>), PoolRefusal>
        ensures workers { (result ≡ Err PoolRefusal.Workers)
            ↔ ¬ ((1 ≤ workers) × (workers ≤ max_workers)) }
        ensures graph { result ≢ Err PoolRefusal.Prerequisite }
        ensures board { IfOk result (λ r. (r.0.graph ≡ graph.now) × (r.0.workers ≡ workers)) }
        ensures seats { IfOk result (λ r. r.1.items ≡ replicate workers (new_seat r.0.id)) }
    {
        if workers == 0 || workers > MAX_WORKERS {
            return Err(PoolRefusal::Workers);
        }
        Ok(open_for(alloc, graph, workers)?)
    }

    /// Claims a job for a seat, by one atomic exchange. True exactly for the one call that gets the job: the seat's list
    /// then ends with it. After false the seat has met the job, and the board's rule says that some seat has what was met:
    /// `close`, which sees all seats, hands this on.
    ///
    /// It takes no memory, never waits and always answers. Each worker calls it from its own thread.
    pub fn claim(&self, seat: &mut BoardSeat, job: usize) -> bool
        requires board { seat.old.board ≡ self.now.id }
        requires job { job < length self.now.graph }
        ensures board { seat.new.board ≡ seat.old.board }
        ensures counts { seat.new.counts ≡ seat.old.counts }
        ensures had { MatchBool result (seat.new.had ≡ seat.old.had ++ job ∷ [])
            (seat.new.had ≡ seat.old.had) }
        ensures met { MatchBool result (seat.new.met ≡ seat.old.met)
            (seat.new.met ≡ seat.old.met ++ job ∷ []) }
        ensures fresh { IsTrue result → (edge : ℕ) → count_of_edge job edge seat.new.counts ≡ 0 }
    {
        let found = self.table.shared.swap::<Claiming>(&mut seat.seat, job, 1);
        if found == 0 {
            seat.had.push_reserved(job);
            return true;
        }
        false
    }

    /// Counts an edge of a job that the seat has, by one atomic subtraction. True exactly for the call that ends the
    /// waiting of the edge's target, which is then left waiting for no job.
    ///
    /// It takes no memory, never waits and always answers. Each worker calls it from its own thread.
    pub fn count_down(&self, seat: &mut BoardSeat, from: usize, edge: usize) -> bool
        requires board { seat.old.board ≡ self.now.id }
        requires had { 0 < times from seat.old.had }
        requires edge { edge < length (targets_of self.now.graph from) }
        requires fresh { count_of_edge from edge seat.old.counts ≡ 0 }
        ensures board { seat.new.board ≡ seat.old.board }
        ensures had { seat.new.had ≡ seat.old.had }
        ensures met { seat.new.met ≡ seat.old.met }
        ensures counts { (left : ℕ)
            × (seat.new.counts ≡ seat.old.counts ++ count_of from edge left ∷ [])
            × (IsTrue result ↔ (left ≡ 0)) }
    {
        let target = self.graph.targets(from)[edge];
        let waiting = self.table.word_count() / 2 + target;
        let found = count_word::<Brand>(&self.table.shared, &mut seat.seat, from, edge, waiting);
        found == 1
    }

    /// Who had which job, given all seats of the board, in the order in which they are given.
    ///
    /// The last clauses say what the lists of all seats are together: what holds of them after every step in every
    /// schedule, and three things that follow. No two seats have one job; a job that a seat found taken is some seat's;
    /// of all the counts of the edges to one job only the one that ended its wait was answered so. It takes no memory, never
    /// waits and always answers.
    pub fn close(self, seats: Vec<BoardSeat>) -> Tally
        requires { IsAllSeats self seats.items }
        ensures seats { map (λ l. l.items) result.seats.items ≡ map (λ s. s.had) seats.items }
        ensures gatherer { result.gatherer.items
            ≡ without (all_had seats.items) (length self.graph) }
        ensures each { (job : ℕ)
            → job < length self.graph
            → times job (one_list (map (λ l. l.items) result.seats.items) ++ result.gatherer.items)
            ≡ 1 }
        ensures consistent { IsConsistent self.graph (all_had seats.items) (all_met seats.items)
            (all_counts seats.items) }
        ensures sources { All (λ s. IsSourced s.had s.counts) seats.items }
        ensures apart { NoJobTwice seats.items }
        ensures taken { TakenIsHad seats.items }
        ensures answered { AnsweredOnce self.graph (all_counts seats.items) }
    {
        let Board {
            graph,
            table,
            workers: _,
            mut lists,
            unclaimed: mut gatherer,
        } = self;
        let whole = join_all(&table, seats, &mut lists);
        let closed = table.close_with(whole);
        unclaimed_jobs(&closed, graph.jobs(), &mut gatherer);
        closed.free();
        Tally {
            seats: lists,
            gatherer,
        }
    }
}

// One step on a waiting word. The step knows the edge by `E`, which the caller picks from the arguments.
fn count_word<E: Edge>(
    shared: &Shared<(), Record, Terms, Keeping>,
    seat: &mut Seat<(), Record>,
    from: usize,
    edge: usize,
    waiting: usize,
) -> u64
    requires edge { (from ≡ E.from) × (edge ≡ E.edge) }
    requires may { Counts shared.now.table_id shared.now.key.graph.value from edge waiting
        seat.old.table_id seat.old.me.0 }
    ensures table { (seat.new.table_id ≡ seat.old.table_id)
        × (seat.new.id ≡ seat.old.id)
        × (seat.new.me.1 ≡ seat.old.me.1) }
    ensures count { (left : ℕ)
        × (result ≡ suc left)
        × (seat.new.me.0 ≡ with_count seat.old.me.0 (count_of from edge left)) }
{
    let _ = (from, edge);
    shared.fetch_sub::<Counting<E>>(seat, waiting, 1)
}

// A board for a number of workers that is right.
fn open_for(
    alloc: Global,
    graph: &JobGraph,
    workers: usize,
) -> Result<(Board, Vec<BoardSeat>), AllocError>
    ensures board { IfOk result (λ r. (r.0.graph ≡ graph.now) × (r.0.workers ≡ workers)) }
    ensures seats { IfOk result (λ r. r.1.items ≡ replicate workers (new_seat r.0.id)) }
{
    let graph = graph.copy(alloc)?;
    let jobs = graph.jobs();
    let words = first_words(alloc, &graph)?;
    let lists = Vec::with_capacity(alloc, workers)?;
    let unclaimed = Vec::with_capacity(alloc, jobs)?;
    let terms = Terms {
        graph: Snapshot::of(&graph),
        workers,
    };
    let (table, root) = Table::of_words(alloc, words.as_slice(), &terms)?;
    let seats = deal(alloc, &table, root, jobs, workers)?;
    Ok((
        Board {
            graph,
            table,
            workers,
            lists,
            unclaimed,
        },
        seats,
    ))
}

// The words of a board on which nothing was done: the words of the claims, the words of the waiting jobs, and one that
// is never written, so that a board without jobs has a word too.
fn first_words(alloc: Global, graph: &JobGraph) -> Result<Vec<u64>, AllocError>
    ensures { IfOk result (λ v. IsFresh graph.now v.items) }
{
    let mut words = Vec::from_elem(alloc, 0, graph.jobs())?;
    for job in 0..graph.jobs() {
        words.push(graph.prerequisites(job).len() as u64)?;
    }
    words.push(0)?;
    Ok(words)
}

// A seat for each worker, with room for each job.
fn deal(
    alloc: Global,
    table: &Table<(), Record, Terms, Keeping, Global>,
    mut root: Seat<(), Record>,
    jobs: usize,
    workers: usize,
) -> Result<Vec<BoardSeat>, AllocError>
    requires table { (root.table_id ≡ table.now.shared.table_id)
        × (table.now.shared.table_id.words ≡ suc (jobs + jobs)) }
    requires root { root.me ≡ (blank workers, []) }
    ensures { IfOk result (λ v. v.items ≡ replicate workers (new_seat table.now.shared.table_id)) }
{
    let mut seats = Vec::with_capacity(alloc, workers)?;
    for _ in 0..workers {
        let had = Vec::with_capacity(alloc, jobs)?;
        let seat = table.shared.split_seat::<Dealing>(&mut root);
        seats.push(BoardSeat { seat, had })?;
    }
    Ok(seats)
}

// Joins the seats to a new one, and takes their lists.
fn join_all(
    table: &Table<(), Record, Terms, Keeping, Global>,
    seats: Vec<BoardSeat>,
    lists: &mut Vec<Vec<usize>>,
) -> Seat<(), Record>
    requires words { 0 < table.now.shared.table_id.words }
    requires room { (lists.old.items ≡ []) × (length seats.items ≤ vec_capacity lists.old) }
    requires table { (k : ℕ) (d : SeatState)
        → k < length seats.items
        → (slice_index_or seats.items k d).board ≡ table.now.shared.table_id }
    ensures lists { map (λ l. l.items) lists.new.items ≡ map (λ s. s.had) seats.items }
    ensures seat { (result.table_id ≡ table.now.shared.table_id)
        × (result.me
        ≡ (
          record_of (length seats.items) (all_had seats.items) (all_met seats.items)
              (all_counts seats.items),
          [],
        )) }
    ensures sources { All (λ s. IsSourced s.had s.counts) seats.items }
{
    let (_, mut whole) = table.shared.load_new_seat::<Sitting>(0);
    for next in seats {
        let BoardSeat { seat, had } = next;
        table.shared.join_seat::<Joining>(&mut whole, seat);
        lists.push_reserved(had);
    }
    whole
}

// The jobs whose claim words are 0.
fn unclaimed_jobs(closed: &Closed<(), Global>, jobs: usize, list: &mut Vec<usize>)
    requires words { (jobs ≤ slots_len closed.now.words) × IsFull closed.now.words }
    requires room { (list.old.items ≡ []) × (jobs ≤ vec_capacity list.old) }
    ensures { list.new.items ≡ unset (slots_items closed.now.words) jobs }
{
    for job in 0..jobs {
        if closed.word(job) == 0 {
            list.push_reserved(job);
        }
    }
}
