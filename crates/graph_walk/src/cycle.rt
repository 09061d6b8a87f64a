//! Where chains of pairs lead, and which nodes are on cycles.
//!
//! Cycles take two walks. The first goes over all nodes against the pairs, and leaves each node behind those to which it
//! came from there. In that order a node is on a cycle if a chain leads to it from itself or from one behind it. The
//! second goes through the order from behind, along the pairs, and enters no node twice.

ghost use Rattle.std.specs.Prelude.{◌≡◌, ◌<◌, ◌↔◌, ◌⊎◌, ℕ, length, IfOk, OnOk, IsTrue, MatchOption};
ghost use Rattle.graph_walk.specs.Links.{flag, AreNodes, Leads};
ghost use Rattle.graph_walk.specs.Cycles.{IsClosed, IsCycleOrder, HasCycleOrder, Sweeps};
ghost use Rattle.graph_walk.specs.Turned.{IsTurned};

use crate::flags::{is_marked, mark_all, no_marks, targets};
use crate::starts::start_order;
use std::alloc::{AllocError, Global};
use tree_parts::Items;

/// Marks too the nodes to which a chain of pairs leads from this one. With each node that is marked already, those to
/// which it leads are.
fn lead_on(
    alloc: Global,
    links: &[Items<usize>],
    from: usize,
    flags: &mut [bool],
) -> Result<(), AllocError>
    requires nodes { AreNodes links.now }
    requires within { from < length links.now }
    requires same { length flags.old ≡ length links.now }
    requires closed { IsClosed links.now flags.old }
    ensures same { OnOk result (length flags.new ≡ length flags.old) }
    ensures marked { OnOk result
        ((k : ℕ)
        → IsTrue (flag flags.new k) ↔ (IsTrue (flag flags.old k) ⊎ Leads links.now from k)) }
{
    let mut todo = Items::new(alloc);
    mark_all(targets(links, from), flags, &mut todo)?;
    while let Some(node) = todo.pop() {
        mark_all(targets(links, node), flags, &mut todo)?;
    }
    Ok(())
}

/// Marks the nodes to which a chain of pairs leads from this one. `links` has for each node those to which a pair goes
/// from it.
pub fn led_to(alloc: Global, links: &[Items<usize>], from: usize) -> Result<Vec<bool>, AllocError>
    requires nodes { AreNodes links.now }
    requires within { from < length links.now }
    ensures { IfOk result (λ flags.
        (k : ℕ) → IsTrue (flag flags.items k) ↔ Leads links.now from k) }
{
    let mut flags = no_marks(alloc, links.len())?;
    lead_on(alloc, links, from, &mut flags)?;
    Ok(flags)
}

/// Marks too where this node leads, and answers whether it leads back to itself, as these marks say.
fn sweep(
    alloc: Global,
    links: &[Items<usize>],
    node: usize,
    led: &mut [bool],
    cyclic: &mut [bool],
) -> Result<(), AllocError>
    requires nodes { AreNodes links.now }
    requires same_led { length led.old ≡ length links.now }
    requires same_cyclic { length cyclic.old ≡ length links.now }
    requires closed { IsClosed links.now led.old }
    ensures { OnOk result (Sweeps links.now node led.old cyclic.old led.new cyclic.new) }
{
    if node >= links.len() {
        return Ok(());
    }
    lead_on(alloc, links, node, led)?;
    if is_marked(led, node) {
        cyclic[node] = true;
    }
    Ok(())
}

/// Marks the nodes on cycles. In this order a node is on a cycle if it, or one behind it, leads to it.
fn cyclic(
    alloc: Global,
    links: &[Items<usize>],
    order: Items<usize>,
) -> Result<Vec<bool>, AllocError>
    requires nodes { AreNodes links.now }
    requires order { IsCycleOrder links.now order }
    ensures { IfOk result (λ flags.
        (k : ℕ) → k < length links.now → IsTrue (flag flags.items k) ↔ Leads links.now k k) }
{
    let mut led = no_marks(alloc, links.len())?;
    let mut flags = no_marks(alloc, links.len())?;
    let mut left = order;
    while let Some(node) = left.pop() {
        sweep(alloc, links, node, &mut led, &mut flags)?;
    }
    Ok(flags)
}

/// The order in which a walk over all nodes, against the pairs, leaves them.
fn cycle_order(
    alloc: Global,
    links: &[Items<usize>],
    back: &[Items<usize>],
) -> Result<Items<usize>, AllocError>
    requires nodes { AreNodes links.now }
    requires turned { IsTurned links.now back.now }
    ensures { IfOk result (IsCycleOrder links.now) }
{
    start_order(alloc, back, links.len())
}

/// The first node from which a chain of pairs leads back to it. `back` has the pairs the other way round.
pub fn first_on_cycle(
    alloc: Global,
    links: &[Items<usize>],
    back: &[Items<usize>],
) -> Result<Option<usize>, AllocError>
    requires nodes { AreNodes links.now }
    requires turned { IsTurned links.now back.now }
    ensures found { IfOk result (λ found.
        MatchOption found ((k : ℕ) → k < length links.now → ¬ Leads links.now k k) (λ node.
        (node < length links.now)
        × Leads links.now node node
        × ((k : ℕ) → k < node → ¬ Leads links.now k k))) }
    ensures order { OnOk result (HasCycleOrder links.now) }
{
    let order = cycle_order(alloc, links, back)?;
    let flags = cyclic(alloc, links, order)?;
    for node in 0..links.len() {
        if is_marked(&flags, node) {
            return Ok(Some(node));
        }
    }
    Ok(None)
}
