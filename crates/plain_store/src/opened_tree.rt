//! Trees whose first components are at hand.

ghost use Rattle.std.specs.Prelude.{◌≡◌, ◌<◌, pos, Some, length, slice_get, IfOk};
ghost use Rattle.plain_store.specs.declared.held.Held.TheVariants.{Same};
ghost use Rattle.plain_store.specs.Contents.{contents, spread, with_component, opened_contents, SaysAs, Longer};

use crate::copying::{copy, fill_parts};
use crate::held::Held;
use std::alloc::{AllocError, Global};
use std::mem;
use tree_parts::{Boxed, Items};

/// The number of the whole, what its first components hold, and what each of the others holds.
#[derive(Drop)]
pub struct Components {
    pub own: i64,
    pub parts: Items<Held>,
    pub rest: Held,
}

/// A tree of these components.
pub fn spread(own: i64, parts: Items<Held>, rest: Held) -> Components
    ensures { result ≡ spread own parts rest }
{
    Components { own, parts, rest }
}

/// The same tree, with its components at hand. The only error is that memory ran out.
pub fn open_tree(alloc: Global, held: Held) -> Result<Components, AllocError>
    ensures { IfOk result (λ o. SaysAs (opened_contents o) (contents held)) }
{
    match held {
        Held::Same(v) => Ok(spread(v, Items::new(alloc), Held::Same(v))),
        Held::Parts(own, parts, rest) => Ok(spread(own, parts, rest.into_inner())),
        Held::Array(count, one) => {
            let parts = fill_parts(alloc, Items::new(alloc), count, one.get())?;
            Ok(spread(0, parts, Held::Same(0)))
        }
    }
}

/// The tree. The only error is that memory ran out.
#[tactic(auto, using(crate::proofs::Layers::parts))]
pub fn close_tree(alloc: Global, tree: Components) -> Result<Held, AllocError>
    ensures { IfOk result (λ h. contents h ≡ opened_contents tree) }
{
    let Components { own, parts, rest } = tree;
    Ok(Held::Parts(own, parts, Boxed::new(alloc, rest)?))
}

/// The same tree, with more components at hand, so that one with this number is there. The only error is that memory ran
/// out.
pub fn grow_tree(alloc: Global, tree: Components, number: usize) -> Result<Components, AllocError>
    ensures { IfOk result (λ o. Longer tree number o) }
{
    if number < tree.parts.len() {
        return Ok(tree);
    }
    let missing = number - tree.parts.len();
    let Components { own, parts, rest } = tree;
    let mut parts = fill_parts(alloc, parts, missing, &rest)?;
    parts.push(copy(alloc, &rest)?)?;
    Ok(spread(own, parts, rest))
}

/// A tree of which a component was taken out, and that component.
#[derive(Drop)]
pub struct Taken {
    pub tree: Components,
    pub part: Held,
}

/// Takes the component with this number out. All of it holds 0 then.
pub fn take_out(tree: Components, number: usize) -> Taken
    requires { number < length tree.parts }
    ensures part { slice_get tree.parts number ≡ Some result.part }
    ensures tree { result.tree ≡ with_component tree number (Same (pos 0)) }
{
    let Components { own, parts, rest } = tree;
    let mut all = parts.into_vec();
    let part = mem::replace(&mut all[number], Held::Same(0));
    Taken {
        tree: spread(own, Items::from_vec(all), rest),
        part,
    }
}

/// Puts a component in the stead of the one with this number. The only error is that memory ran out.
pub fn put_in(
    alloc: Global,
    tree: Components,
    number: usize,
    part: Held,
) -> Result<Held, AllocError>
    requires { number < length tree.parts }
    ensures { IfOk result (λ h. contents h ≡ opened_contents (with_component tree number part)) }
{
    let Components { own, parts, rest } = tree;
    let mut parts = parts;
    parts.set(number, part);
    close_tree(alloc, spread(own, parts, rest))
}
