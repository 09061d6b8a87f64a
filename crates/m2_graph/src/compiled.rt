//! The jobs of files.

ghost use Rattle.std.specs.Prelude.{◌≡◌, map, IfOk};
ghost use Rattle.m2_graph.specs.Files.{trees};
ghost use Rattle.m2_graph.specs.Graph.{IsJobs};
ghost use Rattle.m2_graph.specs.Imports.{is_definition, links};
ghost use Rattle.m2_graph.specs.Jobs.{AreJobs};
ghost use Rattle.graph_walk.specs.Numbering.{IsNumbering};
ghost use Rattle.m2_graph.specs.Program.{modules_of, IsIndexed};
ghost use Rattle.m2_graph.specs.Sources.{file_of};

use crate::given::given_all;
use crate::order::{add_bodies, jobs_of};
use crate::program::Program;
use crate::sources::Source;
use std::alloc::{AllocError, Global};
use tree_parts::Items;

/// For each job the file that it compiles, and its prerequisites.
#[derive(Drop)]
pub struct Jobs {
    pub files: Vec<usize>,
    pub jobs: Vec<Vec<usize>>,
}

/// The jobs of files in order: first the definitions, and then the bodies.
pub fn jobs_of_files(
    alloc: Global,
    program: &Program<'_>,
    sources: &[Source<'_>],
    numbered: Items<usize>,
) -> Result<Jobs, AllocError>
    requires indexed { IsIndexed program.now }
    requires same { modules_of program.now ≡ trees (map file_of sources.now) }
    requires numbering { IsNumbering (links (modules_of program.now))
        (map is_definition (modules_of program.now)) numbered }
    ensures jobs { IfOk result (λ j.
        IsJobs (map file_of sources.now) j.files.items (map (λ job. job.items) j.jobs.items)) }
    ensures smaller { IfOk result (λ j. AreJobs (map (λ job. job.items) j.jobs.items)) }
{
    let mut order = numbered;
    add_bodies(program.modules, &mut order)?;
    let files = given_all(alloc, sources, order.as_slice())?;
    let jobs = jobs_of(alloc, program, order.as_slice())?;
    Ok(Jobs { files, jobs })
}
