// The gatherer, who works when all workers have ended.
ghost use Rattle.std.specs.Prelude.{◌≡◌, ℕ, List, ◌<◌, length, map, All, IfOk, IfSome, MatchOption, MatchResult, IsTrue, slice_index_or, slice_set, None, Some, true, false};
ghost use Rattle.once_cell.specs.Once.{cell_name, Agrees};
ghost use Rattle.pool_board.specs.Lists.{times};
ghost use Rattle.pool_board.specs.Graph.{prerequisites_of};
ghost use Rattle.pool_board.specs.Results.{items_at, AreCoherent, AreResults, IsCopy, IsRan, IsMade};
ghost use Rattle.m2_pool.specs.Settled.{IsFounded, IsSettled, all_settled, known_at};

use once_cell::race::Note;
use pool_board::{Gate, Pool, Ran, Work};
use std::alloc::{AllocError, Global};

/// For each job what a worker handed back of it, or nothing if no worker ran it.
pub fn place_results<W: Work, G: Gate>(
    alloc: Global,
    pool: &Pool<'_, W, G>,
    all: Vec<Ran<W>>,
) -> Result<Vec<Option<Ran<W>>>, AllocError>
    requires stands { All (λ r.
        MatchResult r.kept (λ n.
        IsRan (map cell_name pool.now.cells.now) pool.now.graph.now
        (W.defines pool.now.work.now) r.job n.cell n.known
        (map (λ u. u.cell) r.used.items) (map (λ u. u.known) r.used.items)) (λ b.
        IsMade (map cell_name pool.now.cells.now) pool.now.graph.now
        (W.defines pool.now.work.now) r.job b.value (map (λ u. u.cell) r.used.items)
        (map (λ u. u.known) r.used.items))) all.items }
    ensures count { IfOk result (λ v. length v.items ≡ length pool.now.graph.now) }
    ensures each { IfOk result (λ v.
        (k : ℕ)
        → k < length pool.now.graph.now
        → MatchOption (slice_index_or v.items k None) (times k (map (λ r. r.job) all.items) ≡ 0)
        (λ r.
        (r.job ≡ k)
        × MatchResult r.kept (λ n.
        IsRan (map cell_name pool.now.cells.now) pool.now.graph.now
        (W.defines pool.now.work.now) r.job n.cell n.known
        (map (λ u. u.cell) r.used.items)
        (map (λ u. u.known) r.used.items)) (λ b.
        IsMade (map cell_name pool.now.cells.now) pool.now.graph.now
        (W.defines pool.now.work.now) r.job b.value
        (map (λ u. u.cell) r.used.items)
        (map (λ u. u.known) r.used.items)))) }
{
    let mut places = no_places(alloc, pool.graph.jobs())?;
    for ran in all {
        put(&mut places, ran);
    }
    Ok(places)
}

// Puts what was handed back at the place of its job, if there is one.
fn put<W: Work>(places: &mut Vec<Option<Ran<W>>>, ran: Ran<W>)
    ensures { places.new.items ≡ slice_set places.old.items ran.job (Some ran) }
{
    let job = ran.job;
    if job < places.len() {
        places[job] = Some(ran);
    }
}

// A place for each job, with nothing in it.
fn no_places<W: Work>(alloc: Global, jobs: usize) -> Result<Vec<Option<Ran<W>>>, AllocError>
    ensures count { IfOk result (λ v. length v.items ≡ jobs) }
    ensures empty { IfOk result (λ v. (k : ℕ) → slice_index_or v.items k None ≡ None) }
{
    let mut places = Vec::with_capacity(alloc, jobs)?;
    for _ in 0..jobs {
        places.push(None)?;
    }
    Ok(places)
}

/// All results in job order: a copy of what the cell holds for each job that is settled. The others are run here.
///
/// A job is settled if a worker set its cell and all its prerequisites are settled: what the worker used of them are then
/// what their cells hold, and their results are copies of it. A result that was handed back, since its cell was set before,
/// is taken if its prerequisites are settled.
pub fn gather_results<W: Work, G: Gate>(
    alloc: Global,
    pool: &Pool<'_, W, G>,
    places: Vec<Option<Ran<W>>>,
) -> Result<Vec<W::Out>, AllocError>
    requires count { length places.items ≡ length pool.now.graph.now }
    requires places { (k : ℕ)
        → k < length pool.now.graph.now
        → IfSome (slice_index_or places.items k None) (λ r.
        (r.job ≡ k)
        × MatchResult r.kept (λ n.
        IsRan (map cell_name pool.now.cells.now) pool.now.graph.now
        (W.defines pool.now.work.now) r.job n.cell n.known
        (map (λ u. u.cell) r.used.items) (map (λ u. u.known) r.used.items))
        (λ b.
        IsMade (map cell_name pool.now.cells.now) pool.now.graph.now
        (W.defines pool.now.work.now) r.job b.value
        (map (λ u. u.cell) r.used.items)
        (map (λ u. u.known) r.used.items))) }
    ensures { IfOk result (λ v.
        AreResults pool.now.graph.now (W.defines pool.now.work.now) v.items) }
{
    let mut outs = Vec::with_capacity(alloc, pool.graph.jobs())?;
    let mut settled = Vec::with_capacity(alloc, pool.graph.jobs())?;
    for place in places {
        let job = outs.len();
        let kept = settle(pool, job, place, &mut settled);
        let (out, note) = one(alloc, pool, job, kept, outs.as_slice())?;
        outs.push(out)?;
        settled.push(note)?;
    }
    Ok(outs)
}

// What was kept of a job's result, if the job is settled: a note of its cell that knows it, or the result itself.
fn settle<W: Work, G: Gate>(
    pool: &Pool<'_, W, G>,
    job: usize,
    place: Option<Ran<W>>,
    settled: &mut Vec<Option<Note<W::Out>>>,
) -> Option<Result<Note<W::Out>, Box<W::Out>>>
    requires job { job < length pool.now.graph.now }
    requires place { IfSome place (λ r.
        (r.job ≡ job)
        × MatchResult r.kept (λ n.
        IsRan (map cell_name pool.now.cells.now) pool.now.graph.now
        (W.defines pool.now.work.now) r.job n.cell n.known
        (map (λ u. u.cell) r.used.items) (map (λ u. u.known) r.used.items)) (λ b.
        IsMade (map cell_name pool.now.cells.now) pool.now.graph.now
        (W.defines pool.now.work.now) r.job b.value
        (map (λ u. u.cell) r.used.items) (map (λ u. u.known) r.used.items))) }
    requires settled { (p : ℕ)
        → IfSome (slice_index_or settled.old.items p None)
        (λ n. IsSettled (map cell_name pool.now.cells.now) p n.cell n.known) }
    ensures same { settled.new.items ≡ settled.old.items }
    ensures kept { let founded = IsFounded (λ n. n.known) settled.old.items
        (W.defines pool.now.work.now) (prerequisites_of pool.now.graph.now job) job in
        IfSome result (λ k.
        MatchResult k
        (λ n. (s : IsSettled (map cell_name pool.now.cells.now) job n.cell n.known) × founded s.out)
        (λ b. founded b.value)) }
    ensures all { IfSome place (λ r.
        IsTrue (all_settled settled.old.items (prerequisites_of pool.now.graph.now job))
        → result ≡ Some r.kept) }
{
    let Ran { job: _, kept, used } = place?;
    match kept {
        Ok(note) => {
            if agree(pool, job, used, settled) {
                Some(Ok(note))
            } else {
                None
            }
        }
        Err(out) => {
            if agree(pool, job, used, settled) {
                Some(Err(out))
            } else {
                None
            }
        }
    }
}

// Whether all prerequisites of a job are settled. If they are, what was used of them is what their notes know.
fn agree<W: Work, G: Gate>(
    pool: &Pool<'_, W, G>,
    job: usize,
    used: Vec<Note<W::Out>>,
    settled: &mut Vec<Option<Note<W::Out>>>,
) -> bool
    requires job { job < length pool.now.graph.now }
    requires used { map (λ u. u.cell) used.items
        ≡ items_at (map cell_name pool.now.cells.now) (prerequisites_of pool.now.graph.now job) }
    requires settled { (p : ℕ)
        → IfSome (slice_index_or settled.old.items p None)
        (λ n. IsSettled (map cell_name pool.now.cells.now) p n.cell n.known) }
    ensures same { settled.new.items ≡ settled.old.items }
    ensures agree { IsTrue result
        → (outs : List W.Out)
        → map (λ u. u.known) used.items ≡ map Some outs
        → map (known_at (λ n. n.known) settled.old.items) (prerequisites_of pool.now.graph.now job)
        ≡ map Some outs }
    ensures all { IsTrue (all_settled settled.old.items (prerequisites_of pool.now.graph.now job))
        → IsTrue result }
{
    // It gives the proof that the graph is sound.
    let _jobs = pool.graph.jobs();
    let prerequisites = pool.graph.prerequisites(job);
    let mut place = 0;
    for note in used {
        if !agrees(settled, prerequisites[place], note) {
            return false;
        }
        place += 1;
    }
    true
}

// Whether a job is settled. If it is, what was used of it is what its note knows.
fn agrees<T>(settled: &mut Vec<Option<Note<T>>>, job: usize, used: Note<T>) -> bool
    requires { IfSome (slice_index_or settled.old.items job None) (λ n. used.cell ≡ n.cell) }
    ensures same { settled.new.items ≡ settled.old.items }
    ensures agree { MatchOption (slice_index_or settled.old.items job None) (result ≡ false)
        (λ n. (result ≡ true) × IfSome used.known (Agrees n.known)) }
{
    if job >= settled.len() {
        return false;
    }
    note_matches(&mut settled[job], used)
}

// Compares what was used with the note, if there is one.
fn note_matches<T>(own: &mut Option<Note<T>>, used: Note<T>) -> bool
    requires { IfSome own.old (λ n. used.cell ≡ n.cell) }
    ensures same { own.new ≡ own.old }
    ensures agree { MatchOption own.old (result ≡ false)
        (λ n. (result ≡ true) × IfSome used.known (Agrees n.known)) }
{
    match own {
        Some(note) => {
            note.compare(used);
            true
        }
        None => false,
    }
}

// The result of one job, given what was kept of it and the results of all jobs before it. With it comes the note of the
// job's cell, if the result is there.
fn one<W: Work, G: Gate>(
    alloc: Global,
    pool: &Pool<'_, W, G>,
    job: usize,
    kept: Option<Result<Note<W::Out>, Box<W::Out>>>,
    before: &[W::Out],
) -> Result<(W::Out, Option<Note<W::Out>>), AllocError>
    requires job { job < length pool.now.graph.now }
    requires kept { let defined = W.defines pool.now.work.now job
        (items_at before.now (prerequisites_of pool.now.graph.now job)) in
        IfSome kept (λ k.
        MatchResult k (λ n.
        (s : IsSettled (map cell_name pool.now.cells.now) job n.cell n.known) × defined s.out)
        (λ b. defined b.value)) }
    requires before { length before.now ≡ job }
    ensures out { IfOk result (λ r.
        W.defines pool.now.work.now job
        (items_at before.now (prerequisites_of pool.now.graph.now job)) r.0) }
    ensures note { IfOk result (λ r.
        IfSome r.1 (λ n.
        (s : IsSettled (map cell_name pool.now.cells.now) job n.cell n.known)
        × IsCopy (W.defines pool.now.work.now) s.out r.0)) }
{
    match kept {
        Some(Ok(mut note)) => {
            let out = copy_results(pool, job, &mut note)?;
            Ok((out, Some(note)))
        }
        Some(Err(out)) => Ok((Box::into_inner(out), None)),
        None => Ok((run_here(alloc, pool, job, before)?, None)),
    }
}

// A copy of what the cell of a settled job holds.
fn copy_results<W: Work, G: Gate>(
    pool: &Pool<'_, W, G>,
    job: usize,
    note: &mut Note<W::Out>,
) -> Result<W::Out, AllocError>
    requires job { job < length pool.now.graph.now }
    requires note { IsSettled (map cell_name pool.now.cells.now) job note.old.cell note.old.known }
    ensures same { note.new ≡ note.old }
    ensures out { IfOk result (λ x.
        (out : W.Out)
        → note.old.known ≡ Some out
        → IsCopy (W.defines pool.now.work.now) out x) }
{
    let mut second = note.again();
    match pool.cells[job].get_as(&mut second) {
        Some(out) => pool.work.copy(out),
        None => unreachable!(),
    }
}

// Runs a job, given the results of all jobs before it.
fn run_here<W: Work, G: Gate>(
    alloc: Global,
    pool: &Pool<'_, W, G>,
    job: usize,
    before: &[W::Out],
) -> Result<W::Out, AllocError>
    requires job { job < length pool.now.graph.now }
    requires before { length before.now ≡ job }
    ensures { IfOk result (W.defines pool.now.work.now job
        (items_at before.now (prerequisites_of pool.now.graph.now job))) }
{
    let _jobs = pool.graph.jobs();
    let outs = picks(alloc, before, pool.graph.prerequisites(job))?;
    pool.work.run(job, outs.as_slice())
}

// The results of these jobs, among the results of the first jobs.
fn picks<'o, X>(alloc: Global, outs: &'o [X], jobs: &[usize]) -> Result<Vec<&'o X>, AllocError>
    ensures { IfOk result (λ v. map (λ x. x.now) v.items ≡ items_at outs.now jobs.now) }
{
    let mut found = Vec::with_capacity(alloc, jobs.len())?;
    for job in jobs {
        if *job < outs.len() {
            found.push(&outs[*job])?;
        }
    }
    Ok(found)
}
