//! The order in which definitions get their numbers.

ghost use Rattle.std.specs.Prelude.{◌≡◌, length, IfOk};
ghost use Rattle.graph_walk.specs.Links.{AreNodes};
ghost use Rattle.graph_walk.specs.Turned.{IsTurned};
ghost use Rattle.graph_walk.specs.Numbering.{IsNumbering};

use crate::counts::{counts_of, settle_all};
use crate::flags::{no_marks, targets};
use crate::least::Least;
use std::alloc::{AllocError, Global};
use tree_parts::Items;

/// The definitions in the order in which they get numbers: each time the first whose imports all have numbers.
/// Definitions that are on cycles, or import one that gets none, get none. `links` has for each node those that it
/// imports, `back` the same the other way round, and `definitions` says which nodes are definitions.
pub fn definition_order(
    alloc: Global,
    links: &[Items<usize>],
    back: &[Items<usize>],
    definitions: &[bool],
) -> Result<Items<usize>, AllocError>
    requires same { length definitions.now ≡ length links.now }
    requires nodes { AreNodes links.now }
    requires turned { IsTurned links.now back.now }
    ensures { IfOk result (λ order. IsNumbering links.now definitions.now order) }
{
    let mut counts = counts_of(alloc, links)?;
    let mut done = no_marks(alloc, links.len())?;
    let mut ready = Least::new(alloc);
    let all = targets(back, links.len());
    settle_all(definitions, &done, all, &mut counts, &mut ready)?;
    let mut order = Items::new(alloc);
    while let Some(node) = ready.pop() {
        order.push(node)?;
        done[node] = true;
        settle_all(
            definitions,
            &done,
            targets(back, node),
            &mut counts,
            &mut ready,
        )?;
    }
    Ok(order)
}
