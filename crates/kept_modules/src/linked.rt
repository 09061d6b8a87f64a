//! What link.wasm says of the modules that it links.

use link_parts::Sizes;
use std::alloc::{AllocError, Global};
use wasm_binary::read_module;
use wasm_tree::{Code, Op, WFault, WModule};

/// How many globals link has for each module: where its variables, its texts and its slots begin.
const GLOBALS: usize = 3;

/// What the name of the first of these globals begins with.
pub const BASE: &[u8] = b"base.";

/// A module that is linked.
#[derive(Drop)]
pub struct Linked {
    pub name: String,
    pub sizes: Sizes,
}

/// The number with which code begins.
fn number_of(code: &Code) -> Option<u32> {
    match code.ops() {
        [Op::I32Const(number), ..] => Some(*number),
        _ => None,
    }
}

/// Adds what stands behind the last module: where the stack begins, and the end of the table.
fn add_end(tree: &WModule, places: &mut Vec<u32>) -> Result<bool, AllocError> {
    let (runs, tables) = (tree.functions.as_slice(), tree.tables.as_slice());
    let (Some(run), Some(table)) = (runs.first(), tables.first()) else {
        return Ok(false);
    };
    let Some(stack) = number_of(&run.body.code) else {
        return Ok(false);
    };
    places.push(stack)?;
    places.push(stack)?;
    places.push(table.limits.min)?;
    Ok(true)
}

/// The globals of all modules, and behind them what stands behind the last. None of another tree than link's.
fn places_of(alloc: Global, tree: &WModule) -> Result<Option<Vec<u32>>, AllocError> {
    let mut places = Vec::new(alloc);
    for global in tree.globals.as_slice().iter().skip(1) {
        match number_of(&global.value) {
            Some(number) => places.push(number)?,
            None => return Ok(None),
        }
    }
    if add_end(tree, &mut places)? {
        Ok(Some(places))
    } else {
        Ok(None)
    }
}

/// Where the variables, the texts and the slots of the module of this number begin.
fn begins_of(places: &[u32], number: usize) -> Option<(u32, u32, u32)> {
    let at = number.checked_mul(GLOBALS)?;
    match places.get(at..)? {
        [base, text, slot, ..] => Some((*base, *text, *slot)),
        _ => None,
    }
}

/// The sizes of the module of this number.
fn sizes_of(places: &[u32], number: usize) -> Option<Sizes> {
    let (base, text, slot) = begins_of(places, number)?;
    let (end, _, last) = begins_of(places, number.checked_add(1)?)?;
    Some(Sizes {
        variables: text.checked_sub(base)?,
        texts: end.checked_sub(text)?,
        slots: last.checked_sub(slot)?,
    })
}

/// The name behind `base.`.
pub fn name_behind_base(name: &[u8]) -> Option<&[u8]> {
    if name.starts_with(BASE) {
        name.get(BASE.len()..)
    } else {
        None
    }
}

/// The names of the modules, in the order in which they start.
fn names_of(alloc: Global, tree: &WModule) -> Result<Vec<String>, AllocError> {
    let mut names = Vec::new(alloc);
    for export in tree.exports.as_slice() {
        if let Some(name) = name_behind_base(export.name.as_slice()) {
            names.push(String::from_utf8_lossy(alloc, name)?)?;
        }
    }
    Ok(names)
}

/// The modules of this tree.
fn modules_of(alloc: Global, tree: &WModule) -> Result<Option<Vec<Linked>>, AllocError> {
    let Some(places) = places_of(alloc, tree)? else {
        return Ok(None);
    };
    let mut modules = Vec::new(alloc);
    for (number, name) in names_of(alloc, tree)?.into_iter().enumerate() {
        let Some(sizes) = sizes_of(&places, number) else {
            return Ok(None);
        };
        modules.push(Linked { name, sizes })?;
    }
    Ok(Some(modules))
}

/// The modules that these bytes of link.wasm link, in the order in which they start. None of bytes that are no such module.
pub fn linked_by(alloc: Global, link: &[u8]) -> Result<Option<Vec<Linked>>, AllocError> {
    match read_module(alloc, link) {
        Ok(tree) => modules_of(alloc, &tree),
        Err(WFault::NoMemory) => Err(AllocError),
        Err(_) => Ok(None),
    }
}
