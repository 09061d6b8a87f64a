//! What a variable holds.

ghost use Rattle.std.specs.Prelude.{◌≡◌, ◌∷◌, ◌++◌, []};
ghost use Rattle.std.specs.Option.{option_copied};
ghost use Rattle.def_meaning.specs.Store.{Location};
ghost use Rattle.plain_store.specs.Contents.{contents, or_nought};

use tree_parts::{Boxed, Items};

/// What a variable holds, and each of its components.
#[derive(Drop)]
pub enum Held {
    /// This number, and all components too.
    Same(i64),
    /// The number of the whole, what its first components hold, and what each of the others holds.
    Parts(i64, Items<Held>, Boxed<Held>),
    /// This many components that each hold this. The whole holds 0, and so do all others.
    Array(usize, Boxed<Held>),
}

/// The number of the whole.
#[tactic(auto, using(crate::proofs::Layers::layers))]
pub fn own_of(held: &Held) -> i64
    ensures { result ≡ contents held.now [] }
{
    match held {
        Held::Same(v) => *v,
        Held::Parts(own, _, _) => *own,
        Held::Array(_, _) => 0,
    }
}

/// What a component holds; nothing if all holds 0.
#[tactic(auto, using(crate::proofs::Layers::layers))]
pub fn component(held: &Held, number: usize) -> Option<&Held>
    ensures { (r : Location) → or_nought (option_copied result) r
        ≡ contents held.now (number ∷ r) }
{
    match held {
        Held::Same(_) => Some(held),
        Held::Parts(_, parts, rest) => match parts.get(number) {
            None => Some(rest.get()),
            Some(part) => Some(part),
        },
        Held::Array(count, one) => {
            if number < *count {
                Some(one.get())
            } else {
                None
            }
        }
    }
}

/// What a component of components holds; nothing if all holds 0.
pub fn part_at<'a>(held: &'a Held, at: &[usize]) -> Option<&'a Held>
    ensures { (r : Location) → or_nought (option_copied result) r
        ≡ contents held.now (at.now ++ r) }
{
    let mut here = held;
    for number in at {
        match component(here, *number) {
            None => return None,
            Some(next) => here = next,
        }
    }
    Some(here)
}

fn own_or(found: Option<&Held>) -> i64
    ensures { result ≡ or_nought (option_copied found.entry) [] }
{
    match found {
        None => 0,
        Some(held) => own_of(held),
    }
}

/// The number that a component holds.
pub fn read(held: &Held, at: &[usize]) -> i64
    ensures { result ≡ contents held.now at.now }
{
    own_or(part_at(held, at))
}
