//! One component in the stead of another.

ghost use Rattle.std.specs.Prelude.{◌≤◌, length, drop, IfOk};
ghost use Rattle.plain_store.specs.Contents.{contents, IsOpened, IsReplaced};

use crate::held::Held;
use crate::opened_tree::{Components, Taken, grow_tree, open_tree, put_in, take_out};
use std::alloc::{AllocError, Global};

/// The tree with its components at hand, and the one with this number among them. The only error is that memory ran out.
fn opened_to(alloc: Global, held: Held, number: usize) -> Result<Components, AllocError>
    ensures { IfOk result (λ o. IsOpened held number o) }
{
    let tree = open_tree(alloc, held)?;
    grow_tree(alloc, tree, number)
}

/// The tree with this one in the stead of the component that the numbers from a place on lead to. The only error is that
/// memory ran out.
pub fn replace_component(
    alloc: Global,
    held: Held,
    to: &[usize],
    from: usize,
    new: Held,
) -> Result<Held, AllocError>
    requires { from ≤ length to.now }
    ensures { let place = drop from to.now in
        IfOk result (λ h. IsReplaced place (contents new) (contents held) (contents h)) }
{
    if from == to.len() {
        return Ok(new);
    }
    let number = to[from];
    let tree = opened_to(alloc, held, number)?;
    let Taken { tree, part } = take_out(tree, number);
    let part = replace_component(alloc, part, to, from + 1, new)?;
    put_in(alloc, tree, number, part)
}
