//! Link is moved.

use crate::fault::{RelinkFault, unread, unwritten};
use std::alloc::Global as Alloc;
use wasm_core::{Body, Code, ExportKind, Function, Global, Op, WModule, read_module, write_module};

/// The global of link with the place of the input's texts.
const TEXTS_OF_INPUT: &[u8] = b"text.InputBytes";

/// The global of link with the size of memory.
const LIMIT: &[u8] = b"limit";

/// How the names of globals with places in memory begin.
const PLACES: [&[u8]; 2] = [b"base.", b"text."];

/// The least room for the stack.
const LEAST_STACK: u32 = 4096;

/// How many bytes the texts of a module have.
fn texts_of(alloc: Alloc, bytes: &[u8]) -> Result<u32, RelinkFault> {
    let tree = read_module(alloc, bytes).map_err(unread)?;
    let size = match tree.data.get(0) {
        None => 0,
        Some(data) => data.bytes.len(),
    };
    u32::try_from(size).map_err(|_| RelinkFault::NotOurs)
}

/// The global that is exported under a name.
fn global_named(link: &WModule, name: &[u8]) -> Option<u32> {
    for export in link.exports.as_slice() {
        if let ExportKind::Global(index) = export.kind {
            if export.name.as_slice() == name {
                return Some(index);
            }
        }
    }
    None
}

/// Whether this global is the place of variables or texts.
fn is_place(link: &WModule, global: usize) -> bool {
    for export in link.exports.as_slice() {
        if let ExportKind::Global(index) = export.kind {
            let name = export.name.as_slice();
            if index as usize == global && PLACES.iter().any(|front| name.starts_with(front)) {
                return true;
            }
        }
    }
    false
}

/// The number that is the whole code.
fn value_of(code: &Code) -> Option<u32> {
    match code.ops() {
        [Op::I32Const(number)] => Some(*number),
        _ => None,
    }
}

/// How far things move: the old size of the texts, and the new one.
#[derive(Clone, Copy)]
struct Move {
    old: u32,
    new: u32,
}

impl Move {
    /// Where what was at this place is.
    fn moved(self, place: u32) -> Result<u32, RelinkFault> {
        let Some(rest) = place.checked_sub(self.old) else {
            return Err(RelinkFault::NotOurs);
        };
        rest.checked_add(self.new).ok_or(RelinkFault::NoRoom)
    }
}

fn number_code(alloc: Alloc, number: u32) -> Result<Code, RelinkFault> {
    let mut ops = Vec::new(alloc);
    ops.push(Op::I32Const(number))?;
    Ok(Code::new(ops))
}

/// Moves the globals behind the place of the input's texts.
fn move_globals(alloc: Alloc, link: &mut WModule, input: u32, by: Move) -> Result<(), RelinkFault> {
    for index in (input as usize).saturating_add(1)..link.globals.len() {
        if is_place(link, index) {
            let Some(global) = link.globals.get(index) else {
                return Err(RelinkFault::NotOurs);
            };
            let Some(place) = value_of(&global.value) else {
                return Err(RelinkFault::NotOurs);
            };
            let value_type = global.value_type;
            let value = number_code(alloc, by.moved(place)?)?;
            link.globals.set(index, Global { value_type, value });
        }
    }
    Ok(())
}

/// An operation of link's function, whose only numbers are the begin of the stack.
fn moved_op(op: Op, by: Move, room: u32) -> Result<Op, RelinkFault> {
    match op {
        Op::I32Const(begin) => {
            let moved = by.moved(begin)?;
            match moved.checked_add(LEAST_STACK) {
                Some(least) if least <= room => Ok(Op::I32Const(moved)),
                _ => Err(RelinkFault::NoRoom),
            }
        }
        _ => Ok(op),
    }
}

/// Moves the begin of the stack, which the only function of link hands to each body.
fn move_stack(alloc: Alloc, link: &mut WModule, by: Move, room: u32) -> Result<(), RelinkFault> {
    let Some(function) = link.functions.pop() else {
        return Err(RelinkFault::NotOurs);
    };
    let Function { type_index, body } = function;
    let Body { locals, code } = body;
    let mut ops = Vec::new(alloc);
    for op in code.ops() {
        ops.push(moved_op(*op, by, room)?)?;
    }
    let code = Code::new(ops);
    let body = Body { locals, code };
    link.functions.push(Function { type_index, body })?;
    Ok(())
}

/// How many bytes the memory of the program has.
fn room_of(link: &WModule) -> Option<u32> {
    let limit = global_named(link, LIMIT)?;
    value_of(&link.globals.get(limit as usize)?.value)
}

/// The bytes of link for the new module InputBytes in place of the old one, from the bytes of link and of both.
pub fn relink(alloc: Alloc, link: &[u8], old: &[u8], new: &[u8]) -> Result<Vec<u8>, RelinkFault> {
    let by = Move {
        old: texts_of(alloc, old)?,
        new: texts_of(alloc, new)?,
    };
    let mut tree = read_module(alloc, link).map_err(unread)?;
    let Some(input) = global_named(&tree, TEXTS_OF_INPUT) else {
        return Err(RelinkFault::ReadsNone);
    };
    let Some(room) = room_of(&tree) else {
        return Err(RelinkFault::NotOurs);
    };
    move_globals(alloc, &mut tree, input, by)?;
    move_stack(alloc, &mut tree, by, room)?;
    write_module(alloc, &tree).map_err(unwritten)
}
