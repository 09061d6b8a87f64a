//! What a build runs on, and the two rounds of its jobs, over threads.

ghost use Rattle.std.specs.Prelude.{◌≡◌, ◌≢◌, ◌≤◌, Err, IfOk, Ok, [], length, map};
ghost use Rattle.pool_board.specs.Graph.{IsJobGraph};
ghost use Rattle.pool_board.specs.Seats.{max_workers};
ghost use Rattle.pool_board.specs.declared.board.Tally.{Tally as Records};
ghost use Rattle.build_jobs.specs.Jobs.{all_compiled};
ghost use Rattle.build_jobs.specs.Borrowed.{borrow_trees, modules_borrowed};
ghost use Rattle.m2_graph.specs.Files.{number_files};
ghost use Rattle.m2_graph.specs.Graph.{IsGraph, CompileEach};
ghost use Rattle.build_jobs.specs.Reading.{AreRead};
ghost use Rattle.pool_board.specs.Results.{AreResults};

use crate::modules::Modules;
use crate::texts::Texts;
use crate::{Compiled, Read, SourceFile};
use m2_graph::Graph;
use m2_pool::run_jobs;
use m2_tree::Module;
use pool_board::{Gate, JobGraph, PoolRefusal, Tally, Work};
use std::alloc::{AllocError, Global};
use std::thread::Threads;

/// What a build runs on: threads and how many of them, its gate, and memory.
#[derive(Drop)]
pub struct Runner<'a, R: Threads + Sync, G: Gate> {
    pub rt: &'a R,
    pub alloc: Global,
    pub workers: usize,
    pub gate: &'a G,
    pub ghost some: { 1 ≤ workers },
    pub ghost few: { workers ≤ max_workers },
}

/// A row for each file, with nothing in it.
fn no_needs(alloc: Global, files: &[SourceFile]) -> Result<Vec<Vec<usize>>, AllocError>
    ensures { IfOk result (λ rows. map (λ row. row.items) rows.items ≡ map (λ f. []) files.now) }
{
    let mut rows = Vec::new(alloc);
    for _ in files {
        rows.push(Vec::new(alloc))?;
    }
    Ok(rows)
}

/// The graph of jobs that need only jobs before them, each once.
fn graph_of(alloc: Global, rows: &[Vec<usize>]) -> Result<JobGraph, AllocError>
    requires { IsJobGraph (map (λ row. row.items) rows.now) }
    ensures { IfOk result (λ g. g ≡ map (λ row. row.items) rows.now) }
{
    match JobGraph::of(alloc, rows) {
        Ok(graph) => Ok(graph),
        Err(PoolRefusal::NoMemory) => Err(AllocError),
        Err(PoolRefusal::Workers | PoolRefusal::Prerequisite) => unreachable!(),
    }
}

/// The results of jobs that ran.
fn results_of<X>(ran: Result<(Vec<X>, Tally), PoolRefusal>) -> Result<Vec<X>, AllocError>
    requires workers { ran ≢ Err PoolRefusal.Workers }
    requires graph { ran ≢ Err PoolRefusal.Prerequisite }
    ensures { IfOk result (λ outs. (tally : Records) × (ran ≡ Ok (outs, tally))) }
{
    match ran {
        Ok((outs, _)) => Ok(outs),
        Err(PoolRefusal::NoMemory) => Err(AllocError),
        Err(PoolRefusal::Workers | PoolRefusal::Prerequisite) => unreachable!(),
    }
}

/// The work of the jobs of a graph.
fn modules_of<'a>(
    alloc: Global,
    trees: &'a [(&'a str, &'a Module)],
    graph: &'a Graph,
) -> Modules<'a>
    requires graph { IsGraph (number_files 0 (borrow_trees trees.now)) graph.now.files.items
        (map (λ j. j.items) graph.now.jobs.items) graph.now.starts.items }
    requires each { CompileEach (number_files 0 (borrow_trees trees.now)) graph.now.files.items }
    ensures trees { result.trees.now ≡ trees.now }
    ensures files { result.files.now ≡ graph.now.files.items }
    ensures jobs { result.jobs.now ≡ graph.now.jobs.items }
{
    Modules {
        alloc,
        trees,
        files: graph.files(),
        jobs: graph.jobs(),
    }
}

/// The graph of jobs for the pool.
fn job_graph(alloc: Global, graph: &Graph) -> Result<JobGraph, AllocError>
    ensures same { IfOk result (λ g. g ≡ map (λ row. row.items) graph.now.jobs.items) }
    ensures sound { IsJobGraph (map (λ row. row.items) graph.now.jobs.items) }
{
    graph_of(alloc, graph.jobs())
}

impl<R: Threads + Sync, G: Gate> Runner<'_, R, G> {
    /// The results of the jobs of a graph.
    fn run<W: Work>(&self, graph: &JobGraph, work: &W) -> Result<Vec<W::Out>, AllocError>
        requires { graph.now ≡ W.graph work.now }
        ensures { IfOk result (λ outs.
            AreResults (W.graph work.now) (W.defines work.now) outs.items) }
    {
        results_of(run_jobs(self.rt, self.alloc, graph, self.workers, self.gate, work))
    }

    /// The first round: what is read of each file.
    pub fn read_all(&self, files: &[SourceFile]) -> Result<Vec<Read>, AllocError>
        ensures read { IfOk result (λ reads. AreRead files.now reads.items) }
        ensures count { IfOk result (λ reads. length files.now ≡ length reads.items) }
    {
        let alloc = self.alloc;
        let rows = no_needs(alloc, files)?;
        let graph = graph_of(alloc, &rows)?;
        self.run(&graph, &Texts { alloc, files })
    }

    /// The second round: what becomes of the module of each job of a graph. The only error is that memory ran out.
    pub fn compile_all(
        &self,
        trees: &[(&str, &Module)],
        graph: &Graph,
    ) -> Result<Vec<Compiled>, AllocError>
        requires graph { IsGraph (number_files 0 (borrow_trees trees.now)) graph.now.files.items
            (map (λ j. j.items) graph.now.jobs.items) graph.now.starts.items }
        requires each { CompileEach (number_files 0 (borrow_trees trees.now))
            graph.now.files.items }
        ensures { IfOk result (λ all.
            all.items ≡ all_compiled (modules_borrowed trees.now) graph.now.files.items
            (map (λ job. job.items) graph.now.jobs.items)) }
    {
        let jobs = job_graph(self.alloc, graph)?;
        self.run(&jobs, &modules_of(self.alloc, trees, graph))
    }
}
