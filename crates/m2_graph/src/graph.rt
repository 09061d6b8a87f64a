//! The graph of a program.

ghost use Rattle.std.specs.Prelude.{◌≡◌, map, Some, IfOk, IfErr};
ghost use Rattle.m2_graph.specs.Files.{trees};
ghost use Rattle.m2_graph.specs.Graph.{IsJobs, IsStarts, IsGraphOf, CompileEach, IsRefusalOf};
ghost use Rattle.m2_graph.specs.Imports.{is_definition, is_program, first_that, links};
ghost use Rattle.m2_graph.specs.Jobs.{AreJobs};
ghost use Rattle.graph_walk.specs.Numbering.{IsNumbering};
ghost use Rattle.m2_graph.specs.Program.{modules_of, IsIndexed};
ghost use Rattle.m2_graph.specs.Sources.{file_of};

use crate::compiled::{Jobs, jobs_of_files};
use crate::decided::{Decided, decide};
use crate::error::GraphError;
use crate::given::starts_of;
use crate::program::{Program, program_with};
use crate::sources::{Source, in_order, trees};
use m2_tree::Module;
use std::alloc::{AllocError, Global};
use tree_parts::Items;

/// The jobs of a program, and the order in which its bodies start. Files go by how many were given before them.
pub struct Graph {
    /// For each job the file that it compiles.
    files: Vec<usize>,
    /// For each job its prerequisites.
    jobs: Vec<Vec<usize>>,
    /// The files of the bodies that start, in order.
    starts: Vec<usize>,
    ghost are_jobs: { AreJobs (map (λ job. job.items) jobs.items) },
}

// Written by hand, so that proofs above take a drop as one call, and not as one for each field.
impl Drop for Graph {
    fn drop(self) {
        let Graph {
            files,
            jobs,
            starts,
        } = self;
        drop(files);
        drop(jobs);
        drop(starts);
    }
}

/// The graph of files in order, if these definitions have numbers, this is the program module, and nothing is refused.
fn graph_with(
    alloc: Global,
    program: &Program<'_>,
    sources: &[Source<'_>],
    numbered: Items<usize>,
    first: usize,
) -> Result<Graph, AllocError>
    requires indexed { IsIndexed program.now }
    requires same { modules_of program.now ≡ trees (map file_of sources.now) }
    requires numbering { IsNumbering (links (modules_of program.now))
        (map is_definition (modules_of program.now)) numbered }
    requires program { first_that is_program (modules_of program.now) ≡ Some first }
    ensures jobs { IfOk result (λ g.
        IsJobs (map file_of sources.now) g.files.items (map (λ job. job.items) g.jobs.items)) }
    ensures starts { IfOk result (λ g. IsStarts (map file_of sources.now) g.starts.items) }
{
    let starts = starts_of(alloc, program, sources, first)?;
    let Jobs { files, jobs } = jobs_of_files(alloc, program, sources, numbered)?;
    Ok(Graph {
        files,
        jobs,
        starts,
    })
}

/// The graph of files in order.
fn graph_of(
    alloc: Global,
    program: &Program<'_>,
    sources: &[Source<'_>],
) -> Result<Graph, GraphError>
    requires indexed { IsIndexed program.now }
    requires same { modules_of program.now ≡ trees (map file_of sources.now) }
    ensures graph { IfOk result (λ g.
        IsGraphOf (map file_of sources.now) g.files.items (map (λ job. job.items) g.jobs.items)
        g.starts.items) }
    ensures each { IfOk result (λ g. CompileEach (map file_of sources.now) g.files.items) }
    ensures refused { IfErr result (IsRefusalOf (map file_of sources.now)) }
{
    let Decided { refusals, numbered } = decide(alloc, program, sources)?;
    if !refusals.is_empty() {
        return Err(GraphError::Refused(refusals));
    }
    match program.program {
        None => Err(GraphError::Refused(refusals)),
        Some(first) => {
            let graph = graph_with(alloc, program, sources, numbered, first)?;
            Ok(graph)
        }
    }
}

impl Graph {
    ghost use Rattle.m2_graph.specs.Files.{files_of};
    ghost use Rattle.m2_graph.specs.Graph.{IsGraph, IsRefusal};

    /// The graph of a program of these files, each a name and a module. Files are taken in order of their names by
    /// their bytes, and as given if these are equal.
    ///
    /// `Refused` if a rule of imports is broken. For each file that breaks one the least place, and there the least
    /// number, is reported, in that order of the files:
    ///
    /// - 20, at the module's name in the import: a module other than Console is imported and has no definition, or a body
    ///   imports its own module;
    /// - 21, at the module's name: a second file for a definition or a body, or a module named Console or link;
    /// - 22, at the module's name in the import, for cycles of definitions: the definition on a cycle with the least
    ///   file name, at its first import that leads back to it. Of several files of a definition only the first counts;
    /// - 23, at the module's name, for each program module but the first; at 1:1 of the first file if there is none,
    ///   and of a file without name if there is no file;
    /// - 24, at the module's name: an implementation without definition, or a definition without implementation;
    /// - 25, at 1:1 of the 1025th file that is given.
    ///
    /// `NoMemory` if a request for memory was refused.
    pub fn of(alloc: Global, files: &[(&str, &Module)]) -> Result<Graph, GraphError>
        ensures graph { IfOk result (λ g.
            IsGraph (files_of files.now) g.files.items (map (λ job. job.items) g.jobs.items)
            g.starts.items) }
        ensures each { IfOk result (λ g. CompileEach (files_of files.now) g.files.items) }
        ensures refused { IfErr result (IsRefusal (files_of files.now)) }
    {
        let sources = in_order(alloc, files)?;
        let modules = trees(alloc, &sources)?;
        let program = program_with(alloc, &modules)?;
        graph_of(alloc, &program, &sources)
    }

    /// For each job the file that it compiles. Each file that was given has one job.
    pub fn files(&self) -> &[usize]
        ensures { result.now ≡ self.now.files.items }
    {
        &self.files
    }

    /// For each job its prerequisites: the jobs of the definitions that it imports, and for a body the job of its own
    /// definition. Each stands once, and has a smaller number.
    pub fn jobs(&self) -> &[Vec<usize>]
        ensures jobs { result.now ≡ self.now.jobs.items }
        ensures prerequisites { AreJobs (map (λ job. job.items) result.now) }
    {
        &self.jobs
    }

    /// The files of the bodies that start, in order: the last is the program module's.
    pub fn start_order(&self) -> &[usize]
        ensures { result.now ≡ self.now.starts.items }
    {
        &self.starts
    }
}
