//! The store of a program.

ghost use Rattle.std.specs.Prelude.{◌≡◌, map, IfOk};
ghost use Rattle.def_meaning.specs.Store.{assign_number, copy_whole, overlay};
ghost use Rattle.def_meaning.specs.Statements.{character};
ghost use Rattle.plain_store.specs.Contents.{contents, behind_it};
ghost use Rattle.plain_store.specs.Characters.{character_part};

use crate::copying::copy;
use crate::held::{Held, part_at};
use crate::opened_tree::{close_tree, spread};
use crate::replaced::replace_component;
use std::alloc::{AllocError, Global};
use tree_parts::Items;

/// The store after this was put at a location. The only error is that memory ran out.
pub fn put(alloc: Global, store: Held, to: &[usize], new: Held) -> Result<Held, AllocError>
    ensures { IfOk result (λ s. contents s ≡ overlay to.now (contents new) (contents store)) }
{
    replace_component(alloc, store, to, 0, new)
}

/// The store after an assignment of a number. The only error is that memory ran out.
pub fn assign_number(alloc: Global, store: Held, to: &[usize], v: i64) -> Result<Held, AllocError>
    ensures { IfOk result (λ s. contents s ≡ assign_number to.now v (contents store)) }
{
    put(alloc, store, to, Held::Same(v))
}

/// What a location and its components hold, once more.
fn part_copy(alloc: Global, store: &Held, from: &[usize]) -> Result<Held, AllocError>
    ensures { IfOk result (λ h. contents h ≡ behind_it (contents store.now) from.now) }
{
    match part_at(store, from) {
        None => Ok(Held::Same(0)),
        Some(held) => copy(alloc, held),
    }
}

/// The store after an assignment of a whole array or record. The only error is that memory ran out.
pub fn copy_whole(
    alloc: Global,
    store: Held,
    to: &[usize],
    from: &[usize],
) -> Result<Held, AllocError>
    ensures { IfOk result (λ s. contents s ≡ copy_whole to.now from.now (contents store)) }
{
    let part = part_copy(alloc, &store, from)?;
    put(alloc, store, to, part)
}

fn character_parts(alloc: Global, text: &[u8]) -> Result<Items<Held>, AllocError>
    ensures { IfOk result (λ ps. ps ≡ map character_part text.now) }
{
    let mut parts = Items::new(alloc);
    for code in text {
        parts.push(Held::Same(i64::from(*code)))?;
    }
    Ok(parts)
}

/// The characters of a string, and 0C behind them. The only error is that memory ran out.
pub fn characters(alloc: Global, text: &[u8]) -> Result<Held, AllocError>
    ensures { IfOk result (λ h. contents h ≡ character text.now) }
{
    let parts = character_parts(alloc, text)?;
    close_tree(alloc, spread(0, parts, Held::Same(0)))
}
