//! The order in which bodies start.

ghost use Rattle.std.specs.Prelude.{◌≡◌, ◌<◌, ◌++◌, ◌∷◌, [], length, cond, slice_set, true, IfOk, OnOk};
ghost use Rattle.graph_walk.specs.Links.{AreNodes, flag};
ghost use Rattle.graph_walk.specs.Starts.{IsStartOrder};
ghost use Rattle.graph_walk.specs.Frames.{entering, Advances};

use crate::flags::{is_marked, no_marks, targets};
use std::alloc::{AllocError, Global};
use tree_parts::Items;

/// A node that was entered, and how many of its imports were walked. It starts when all were.
#[derive(Clone, Copy)]
pub struct Frame {
    pub node: usize,
    pub next: usize,
}

/// Enters a node unless it was entered.
fn enter(node: usize, entered: &mut [bool], todo: &mut Items<Frame>) -> Result<(), AllocError>
    requires { node < length entered.old }
    ensures marks { OnOk result
        (entered.new
        ≡ cond (flag entered.old node) entered.old (slice_set entered.old node true)) }
    ensures frames { OnOk result
        (todo.new ≡ cond (flag entered.old node) todo.old (todo.old ++ entering node ∷ [])) }
{
    if is_marked(entered, node) {
        return Ok(());
    }
    todo.push(Frame { node, next: 0 })?;
    entered[node] = true;
    Ok(())
}

/// Walks the next import of a node, or starts the node if all were walked.
fn advance(
    imports: &[Items<usize>],
    frame: Frame,
    entered: &mut [bool],
    todo: &mut Items<Frame>,
    order: &mut Items<usize>,
) -> Result<(), AllocError>
    requires nodes { AreNodes imports.now }
    requires within { frame.node < length imports.now }
    requires same { length entered.old ≡ length imports.now }
    ensures { OnOk result
        (Advances imports.now entered.old (todo.old ++ frame ∷ []) order.old entered.new
        todo.new order.new) }
{
    let Frame { node, next } = frame;
    let targets = targets(imports, node);
    if targets.len() <= next {
        order.push(node)?;
        return Ok(());
    }
    let target = targets[next];
    todo.push(Frame {
        node,
        next: next + 1,
    })?;
    enter(target, entered, todo)?;
    Ok(())
}

/// The nodes in the order in which they start: from this node the imports are walked depth first, a node that was
/// entered is not entered again, and each starts after its imports. `imports` has for each node those that it imports,
/// in order.
pub fn start_order(
    alloc: Global,
    imports: &[Items<usize>],
    from: usize,
) -> Result<Items<usize>, AllocError>
    requires nodes { AreNodes imports.now }
    requires within { from < length imports.now }
    ensures { IfOk result (λ order. IsStartOrder imports.now from order) }
{
    let mut order = Items::new(alloc);
    let mut entered = no_marks(alloc, imports.len())?;
    let mut todo = Items::new(alloc);
    todo.push(Frame {
        node: from,
        next: 0,
    })?;
    entered[from] = true;
    while let Some(frame) = todo.pop() {
        advance(imports, frame, &mut entered, &mut todo, &mut order)?;
    }
    Ok(order)
}
