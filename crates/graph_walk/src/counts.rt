//! Counts of imports without number.

ghost use Rattle.std.specs.Prelude.{◌≡◌, ◌<◌, ◌≤◌, ◌+◌, ◌∷◌, [], ℕ, length, map, IfOk, OnOk};
ghost use Rattle.graph_walk.specs.Links.{times};
ghost use Rattle.graph_walk.specs.Numbering.{is_open};
ghost use Rattle.graph_walk.specs.Waiting.{numbers_in, count_at, Settles};

use crate::flags::is_marked;
use crate::least::Least;
use std::alloc::{AllocError, Global};
use tree_parts::Items;

/// For each node one more than its imports.
pub fn counts_of(alloc: Global, links: &[Items<usize>]) -> Result<Vec<usize>, AllocError>
    ensures { IfOk result (λ counts. counts.items ≡ map (λ ts. length ts + 1) links.now) }
{
    let mut counts = Vec::with_capacity(alloc, links.len())?;
    for imports in links {
        counts.push(imports.as_slice().len() + 1)?;
    }
    Ok(counts)
}

/// Whether a node is a definition without number.
fn is_open(definitions: &[bool], done: &[bool], node: usize) -> bool
    ensures { result ≡ is_open definitions.now done.now node }
{
    is_marked(definitions, node) && !is_marked(done, node)
}

/// Settles one for a node. A definition without number for which none is left is ready.
fn settle(
    definitions: &[bool],
    done: &[bool],
    node: usize,
    counts: &mut [usize],
    ready: &mut Least,
) -> Result<(), AllocError>
    requires within { node < length counts.old }
    requires some { 0 < count_at counts.old node }
    ensures { OnOk result
        (Settles definitions.now done.now (node ∷ []) counts.old (numbers_in ready.old) counts.new
        (numbers_in ready.new)) }
{
    counts[node] -= 1;
    if counts[node] == 0 && is_open(definitions, done, node) {
        ready.push(node)?;
    }
    Ok(())
}

/// Settles one for each of these nodes.
pub fn settle_all(
    definitions: &[bool],
    done: &[bool],
    nodes: &[usize],
    counts: &mut [usize],
    ready: &mut Least,
) -> Result<(), AllocError>
    requires { (k : ℕ) → times nodes.now k ≤ count_at counts.old k }
    ensures { OnOk result
        (Settles definitions.now done.now nodes.now counts.old (numbers_in ready.old) counts.new
        (numbers_in ready.new)) }
{
    for node in nodes {
        settle(definitions, done, *node, counts, ready)?;
    }
    Ok(())
}
