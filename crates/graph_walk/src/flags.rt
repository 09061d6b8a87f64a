//! Marks on nodes.

ghost use Rattle.std.specs.Prelude.{◌≡◌, ◌<◌, length, replicate, IfOk, OnOk, ◌∷◌, [], false};
ghost use Rattle.std.specs.List.{All};
ghost use Rattle.graph_walk.specs.Links.{flag, targets, AreEachOnce};
ghost use Rattle.graph_walk.specs.Marks.{Marks, Unmarks, AreUnmarked};

use std::alloc::{AllocError, Global};
use tree_parts::Items;

/// Marks for this many nodes, none of which is marked.
pub fn no_marks(alloc: Global, count: usize) -> Result<Vec<bool>, AllocError>
    ensures { IfOk result (λ flags. flags.items ≡ replicate count false) }
{
    vec![in alloc; false; count]
}

/// The nodes to which a pair goes from this one.
pub fn targets<'a>(links: &'a [Items<usize>], node: usize) -> &'a [usize]
    requires { node < length links.now }
    ensures { result.now ≡ targets links.now node }
{
    links[node].as_slice()
}

/// Whether the node is marked.
#[tactic(auto, using(crate::proofs::Marking::unmarked_past))]
pub fn is_marked(flags: &[bool], node: usize) -> bool
    ensures { result ≡ flag flags.now node }
{
    node < flags.len() && flags[node]
}

/// Marks a node. One that was not marked is added to those that are to be done.
fn mark(node: usize, flags: &mut [bool], todo: &mut Items<usize>) -> Result<(), AllocError>
    requires { node < length flags.old }
    ensures { OnOk result (Marks (node ∷ []) flags.old todo.old flags.new todo.new) }
{
    if is_marked(flags, node) {
        return Ok(());
    }
    todo.push(node)?;
    flags[node] = true;
    Ok(())
}

/// Marks nodes. Those that were not marked are added to those that are to be done.
pub fn mark_all(
    nodes: &[usize],
    flags: &mut [bool],
    todo: &mut Items<usize>,
) -> Result<(), AllocError>
    requires { All (λ node. node < length flags.old) nodes.now }
    ensures { OnOk result (Marks nodes.now flags.old todo.old flags.new todo.new) }
{
    for node in nodes {
        mark(*node, flags, todo)?;
    }
    Ok(())
}

/// Takes the marks of these nodes away.
fn unmark_all(nodes: &[usize], flags: &mut [bool])
    requires { All (λ node. node < length flags.old) nodes.now }
    ensures { Unmarks nodes.now flags.old flags.new }
{
    for node in nodes {
        flags[*node] = false;
    }
}

/// The numbers of the list, each once. No node is marked before, and none after.
pub fn each_once(
    alloc: Global,
    numbers: &[usize],
    flags: &mut [bool],
) -> Result<Items<usize>, AllocError>
    requires within { All (λ n. n < length flags.old) numbers.now }
    requires unmarked { AreUnmarked flags.old }
    ensures once { IfOk result (λ once. AreEachOnce once numbers.now) }
    ensures same { OnOk result (length flags.new ≡ length flags.old) }
    ensures unmarked { OnOk result (AreUnmarked flags.new) }
{
    let mut once = Items::new(alloc);
    mark_all(numbers, flags, &mut once)?;
    unmark_all(numbers, flags);
    Ok(once)
}
