//! The pairs the other way round.

ghost use Rattle.std.specs.Prelude.{◌≡◌, ◌<◌, ◌+◌, ◌++◌, ◌∷◌, [], ℕ, length, replicate, cond, nat_lt, slice_set, IfOk, OnOk};
ghost use Rattle.std.specs.List.{All};
ghost use Rattle.graph_walk.specs.Links.{targets, times, AreNodes};
ghost use Rattle.graph_walk.specs.Turned.{Gathers, IsTurned};

use crate::flags::targets;
use std::alloc::{AllocError, Global};
use tree_parts::Items;

/// No pairs from any of this many nodes.
fn no_links(alloc: Global, count: usize) -> Result<Vec<Items<usize>>, AllocError>
    ensures { IfOk result (λ rows. rows.items ≡ replicate count []) }
{
    let mut rows = Vec::with_capacity(alloc, count)?;
    for _ in 0..count {
        rows.push(Items::new(alloc))?;
    }
    Ok(rows)
}

/// This many nodes, from 0 on.
fn all_nodes(alloc: Global, count: usize) -> Result<Items<usize>, AllocError>
    ensures { IfOk result (λ nodes. (k : ℕ) → times nodes k ≡ cond (nat_lt k count) 1 0) }
{
    let mut nodes = Items::new(alloc);
    for node in 0..count {
        nodes.push(node)?;
    }
    Ok(nodes)
}

/// Adds a pair from one node to another.
fn add_pair(rows: &mut [Items<usize>], from: usize, to: usize) -> Result<(), AllocError>
    requires { from < length rows.old }
    ensures { OnOk result (rows.new ≡ slice_set rows.old from (targets rows.old from ++ to ∷ [])) }
{
    rows[from].push(to)?;
    Ok(())
}

/// Adds a pair from each of these nodes to one.
fn add_pairs(rows: &mut [Items<usize>], nodes: &[usize], to: usize) -> Result<(), AllocError>
    requires { All (λ node. node < length rows.old) nodes.now }
    ensures { OnOk result (Gathers nodes.now to rows.old rows.new) }
{
    for node in nodes {
        add_pair(rows, *node, to)?;
    }
    Ok(())
}

/// The pairs the other way round, as often as they are there, and behind them a node from which a pair goes to each.
pub fn reverse_links(alloc: Global, links: &[Items<usize>]) -> Result<Vec<Items<usize>>, AllocError>
    requires { AreNodes links.now }
    ensures { IfOk result (λ back. IsTurned links.now back.items) }
{
    let mut back = no_links(alloc, links.len())?;
    for node in 0..links.len() {
        add_pairs(&mut back, targets(links, node), node)?;
    }
    back.push(all_nodes(alloc, links.len())?)?;
    Ok(back)
}
