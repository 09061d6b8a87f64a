// A graph of jobs. Each job has prerequisites with smaller numbers.
ghost use Rattle.std.specs.Prelude.{◌≡◌, ◌<◌, ◌≤◌, ◌↔◌, ◌++◌, ◌∷◌, [], ℕ, suc, map, length, slice_index_or, slice_set, IfOk, OnOk, IsTrue, Err, Some, ◌≢◌};
ghost use Rattle.pool_board.specs.Graph.{AreBelow, IsJob, IsJobGraph, naming_from, targets_of, targets_table, prerequisites_of};

use crate::refusal::PoolRefusal;
use std::alloc::{AllocError, Global};
use std::marker::Model;

/// For each job, from 0, its prerequisites and the jobs that name it as one. Contracts see the lists of prerequisites.
#[derive(Drop)]
pub struct JobGraph {
    prerequisites: Vec<Vec<usize>>,
    targets: Vec<Vec<usize>>,
}

impl Model for JobGraph {
    ghost use Rattle.std.specs.Prelude.{List, ℕ, ◌≡◌, map};
    ghost use Rattle.pool_board.specs.Graph.{IsJobGraph, targets_table};

    ghost Value = { List (List ℕ) };

    ghost view = { λ g. map (λ v. v.items) g.prerequisites.items };

    ghost invariant = { λ g.
        IsJobGraph (map (λ v. v.items) g.prerequisites.items)
        × (map (λ v. v.items) g.targets.items
        ≡ targets_table (map (λ v. v.items) g.prerequisites.items)) };
}

impl JobGraph {
    /// The graph whose job `j` has the prerequisites `prerequisites[j]`.
    ///
    /// The refusal is `Prerequisite` exactly if a prerequisite is not smaller than its job or is repeated, and else
    /// `NoMemory`.
    pub fn of(alloc: Global, prerequisites: &[Vec<usize>]) -> Result<JobGraph, PoolRefusal>
        ensures ok { IfOk result (λ g. g ≡ map (λ l. l.items) prerequisites.now) }
        ensures prerequisite { (result ≡ Err PoolRefusal.Prerequisite)
            ↔ ¬ IsJobGraph (map (λ l. l.items) prerequisites.now) }
        ensures workers { result ≢ Err PoolRefusal.Workers }
    {
        if !are_sound(alloc, prerequisites) {
            return Err(PoolRefusal::Prerequisite);
        }
        Ok(JobGraph::of_sound(alloc, prerequisites)?)
    }

    // The graph of lists that are sound.
    fn of_sound(alloc: Global, prerequisites: &[Vec<usize>]) -> Result<JobGraph, AllocError>
        requires { IsJobGraph (map (λ l. l.items) prerequisites.now) }
        ensures { IfOk result (λ g. g ≡ map (λ l. l.items) prerequisites.now) }
    {
        let targets = all_targets(alloc, prerequisites)?;
        let prerequisites = copy_graph(alloc, prerequisites)?;
        Ok(JobGraph {
            prerequisites,
            targets,
        })
    }

    /// The same graph once more.
    pub fn copy(&self, alloc: Global) -> Result<JobGraph, AllocError>
        ensures { IfOk result (λ g. g ≡ self.now) }
    {
        Ok(JobGraph {
            prerequisites: copy_graph(alloc, self.prerequisites.as_slice())?,
            targets: copy_graph(alloc, self.targets.as_slice())?,
        })
    }

    /// How many jobs it has.
    pub fn jobs(&self) -> usize
        ensures jobs { result ≡ length self.now }
        ensures graph { IsJobGraph self.now }
    {
        self.prerequisites.len()
    }

    /// The jobs that are done before the job.
    pub fn prerequisites(&self, job: usize) -> &[usize]
        requires { job < length self.now }
        ensures { result.now ≡ prerequisites_of self.now job }
    {
        self.prerequisites[job].as_slice()
    }

    /// The jobs that name the job as a prerequisite, in rising order. Edge e of the job, from 0, goes to the e-th.
    pub fn targets(&self, job: usize) -> &[usize]
        requires { job < length self.now }
        ensures targets { result.now ≡ targets_of self.now job }
        ensures graph { IsJobGraph self.now }
    {
        self.targets[job].as_slice()
    }
}

// Whether each job is sound. Without memory for the marks it is found out all the same, more slowly.
fn are_sound(alloc: Global, jobs: &[Vec<usize>]) -> bool
    ensures { IsTrue result ↔ IsJobGraph (map (λ l. l.items) jobs.now) }
{
    match no_marks(alloc, jobs.len()) {
        Ok(mut marks) => are_sound_by_marks(jobs, marks.as_mut_slice()),
        Err(_) => are_sound_by_look(jobs),
    }
}

// No mark for each job.
fn no_marks(alloc: Global, jobs: usize) -> Result<Vec<Option<usize>>, AllocError>
    ensures count { IfOk result (λ v. length v.items ≡ jobs) }
    ensures below { IfOk result (λ v. AreBelow v.items 0) }
{
    Vec::from_elem(alloc, None, jobs)
}

// Whether each job is sound. The mark of a job is the last job that named it.
fn are_sound_by_marks(jobs: &[Vec<usize>], marks: &mut [Option<usize>]) -> bool
    requires count { length marks.old ≡ length jobs.now }
    requires below { AreBelow marks.old 0 }
    ensures { IsTrue result ↔ IsJobGraph (map (λ l. l.items) jobs.now) }
{
    for job in 0..jobs.len() {
        if !is_sound_by_marks(jobs[job].as_slice(), job, marks) {
            return false;
        }
    }
    true
}

// Whether each prerequisite is smaller than the job and stands once. Each gets the job's mark.
fn is_sound_by_marks(list: &[usize], job: usize, marks: &mut [Option<usize>]) -> bool
    requires count { job ≤ length marks.old }
    requires below { AreBelow marks.old job }
    ensures sound { IsTrue result ↔ IsJob list.now job }
    ensures below { AreBelow marks.new (suc job) }
{
    for i in 0..list.len() {
        if list[i] >= job || is_mark(marks[list[i]], job) {
            return false;
        }
        marks[list[i]] = Some(job);
    }
    true
}

// Whether the mark is the job's.
fn is_mark(mark: Option<usize>, job: usize) -> bool
    ensures { IsTrue result ↔ (mark ≡ Some job) }
{
    match mark {
        Some(by) => by == job,
        None => false,
    }
}

// Whether each job is sound, by a look back at each prerequisite.
fn are_sound_by_look(jobs: &[Vec<usize>]) -> bool
    ensures { IsTrue result ↔ IsJobGraph (map (λ l. l.items) jobs.now) }
{
    for job in 0..jobs.len() {
        if !is_sound_by_look(jobs[job].as_slice(), job) {
            return false;
        }
    }
    true
}

// Whether each prerequisite is smaller than the job and stands once.
fn is_sound_by_look(list: &[usize], job: usize) -> bool
    ensures { IsTrue result ↔ IsJob list.now job }
{
    for i in 0..list.len() {
        if list[i] >= job || list[..i].contains(&list[i]) {
            return false;
        }
    }
    true
}

// The table of targets: each job stands in the row of each of its prerequisites.
fn all_targets(alloc: Global, prerequisites: &[Vec<usize>]) -> Result<Vec<Vec<usize>>, AllocError>
    requires { IsJobGraph (map (λ l. l.items) prerequisites.now) }
    ensures { IfOk result
        (λ v. map (λ l. l.items) v.items ≡ targets_table (map (λ l. l.items) prerequisites.now)) }
{
    let mut table = no_targets(alloc, prerequisites.len())?;
    for job in 0..prerequisites.len() {
        put_in_all(table.as_mut_slice(), prerequisites[job].as_slice(), job)?;
    }
    Ok(table)
}

// An empty row for each job.
fn no_targets(alloc: Global, jobs: usize) -> Result<Vec<Vec<usize>>, AllocError>
    ensures count { IfOk result (λ v. length v.items ≡ jobs) }
    ensures empty { IfOk result (λ v.
        (p : ℕ) → slice_index_or (map (λ l. l.items) v.items) p [] ≡ []) }
{
    let mut table = Vec::with_capacity(alloc, jobs)?;
    for _ in 0..jobs {
        table.push(Vec::new(alloc))?;
    }
    Ok(table)
}

// Puts a job last in the row of each of its prerequisites.
fn put_in_all(table: &mut [Vec<usize>], list: &[usize], job: usize) -> Result<(), AllocError>
    requires sound { IsJob list.now job }
    requires count { job ≤ length table.old }
    ensures { OnOk result
        ((p : ℕ)
        → p < length table.old
        → slice_index_or (map (λ l. l.items) table.new) p []
        ≡ slice_index_or (map (λ l. l.items) table.old) p []
        ++ naming_from job (list.now ∷ []) p) }
{
    for i in 0..list.len() {
        put_last(table, list[i], job)?;
    }
    Ok(())
}

// Puts a job last in a row.
fn put_last(table: &mut [Vec<usize>], row: usize, job: usize) -> Result<(), AllocError>
    requires { row < length table.old }
    ensures { OnOk result
        (map (λ l. l.items) table.new ≡ slice_set (map (λ l. l.items) table.old) row
        (slice_index_or (map (λ l. l.items) table.old) row [] ++ job ∷ [])) }
{
    table[row].push(job)?;
    Ok(())
}

// The lists once more.
fn copy_graph(alloc: Global, jobs: &[Vec<usize>]) -> Result<Vec<Vec<usize>>, AllocError>
    ensures { IfOk result (λ v. map (λ l. l.items) v.items ≡ map (λ l. l.items) jobs.now) }
{
    let mut lists = Vec::with_capacity(alloc, jobs.len())?;
    for list in jobs {
        lists.push(Vec::from_slice(alloc, list.as_slice())?)?;
    }
    Ok(lists)
}
