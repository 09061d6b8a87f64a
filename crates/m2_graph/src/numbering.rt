//! The order in which definitions get their numbers.

ghost use Rattle.std.specs.Prelude.{◌≡◌, map, IfOk};
ghost use Rattle.graph_walk.specs.Numbering.{IsNumbering};
ghost use Rattle.graph_walk.specs.Turned.{IsTurned};
ghost use Rattle.m2_graph.specs.Imports.{is_definition, links};
ghost use Rattle.m2_graph.specs.Program.{modules_of};

use crate::order::definition_flags;
use crate::program::Program;
use graph_walk::definition_order;
use std::alloc::{AllocError, Global};
use tree_parts::Items;

/// The definitions of a program in the order in which they get numbers. `pairs` has for each module the definitions that
/// it imports, and `back` the same the other way round.
pub fn numbering_of(
    alloc: Global,
    program: &Program<'_>,
    pairs: &[Items<usize>],
    back: &[Items<usize>],
) -> Result<Items<usize>, AllocError>
    requires links { pairs.now ≡ links (modules_of program.now) }
    requires turned { IsTurned pairs.now back.now }
    ensures { IfOk result
        (λ order. IsNumbering pairs.now (map is_definition (modules_of program.now)) order) }
{
    let flags = definition_flags(alloc, program.modules)?;
    let order = definition_order(alloc, pairs, back, &flags)?;
    Ok(order)
}
