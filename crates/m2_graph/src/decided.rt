//! What is reported of a program, and the numbers of its definitions.

ghost use Rattle.std.specs.Prelude.{◌≡◌, map, IfOk, OnOk};
ghost use Rattle.graph_walk.specs.Cycles.{HasCycleOrder};
ghost use Rattle.m2_graph.specs.Files.{trees};
ghost use Rattle.m2_graph.specs.Imports.{is_definition, links};
ghost use Rattle.graph_walk.specs.Numbering.{IsNumbering};
ghost use Rattle.m2_graph.specs.Program.{modules_of, IsIndexed};
ghost use Rattle.m2_graph.specs.Sources.{file_of};
ghost use Rattle.m2_graph.specs.Reported.{report_of, IsReported};

use crate::back::cycle_of;
use crate::imports::links;
use crate::numbering::numbering_of;
use crate::program::Program;
use crate::reported::refused_of;
use crate::sources::Source;
use graph_walk::reverse_links;
use m2_tree::Refusal;
use std::alloc::{AllocError, Global};
use tree_parts::Items;

/// What is reported of files in order, and the definitions in the order in which they get numbers.
#[derive(Drop)]
pub struct Decided {
    pub refusals: Vec<Refusal>,
    pub numbered: Items<usize>,
}

/// What is reported of a program, and the numbers of its definitions.
pub fn decide(
    alloc: Global,
    program: &Program<'_>,
    sources: &[Source<'_>],
) -> Result<Decided, AllocError>
    requires indexed { IsIndexed program.now }
    requires same { modules_of program.now ≡ trees (map file_of sources.now) }
    ensures reported { IfOk result (λ j.
        IsReported (map file_of sources.now) (map report_of j.refusals.items)) }
    ensures numbering { IfOk result (λ j.
        IsNumbering (links (modules_of program.now))
        (map is_definition (modules_of program.now)) j.numbered) }
    ensures order { OnOk result (HasCycleOrder (links (modules_of program.now))) }
{
    let pairs = links(alloc, program)?;
    let back = reverse_links(alloc, &pairs)?;
    let numbered = numbering_of(alloc, program, &pairs, &back)?;
    let cycle = cycle_of(alloc, program, &pairs, &back)?;
    let refusals = refused_of(alloc, program, cycle, sources)?;
    Ok(Decided { refusals, numbered })
}
