//! Sizes and places.

use crate::inside::Inside;
use layout_storage::{extents_of, field_offset, frame_row, size_of, start_of, variables_row};
use m2_tree::Pos;
use std::alloc::{AllocError, Global};
use tree_parts::Items;
use typed_tree::{Dictionary, Routine, Shape, TypeNo, Types, made_of};

/// The place of a routine that is not looked at.
const NOWHERE: Pos = Pos { line: 1, col: 1 };

/// How many arrays of arrays are looked through for the record that they are made of. A text has no more levels.
const MOST_LEVELS: usize = 4096;

/// How many bytes a value of a type takes.
pub fn bytes_in(alloc: Global, types: &Types, of: TypeNo) -> Result<u32, AllocError> {
    let extents = extents_of(alloc, types)?;
    Ok(size_of(types, &extents, of))
}

/// Where the variable of a module begins that has this number among these, from the begin of the module's data.
pub fn variable_start(
    alloc: Global,
    types: &Types,
    variables: &[TypeNo],
    number: usize,
) -> Result<u32, AllocError> {
    let extents = extents_of(alloc, types)?;
    let row = variables_row(alloc, types, &extents, variables)?;
    Ok(start_of(&row, number))
}

/// Where a variable or a formal of a procedure begins in the procedure's frame.
fn routine_start(
    alloc: Global,
    types: &Types,
    routine: &Routine,
    number: usize,
) -> Result<u32, AllocError> {
    let extents = extents_of(alloc, types)?;
    let row = frame_row(alloc, types, &extents, routine)?;
    Ok(start_of(&row, number))
}

/// Where a field of a record begins in it.
pub fn field_start(
    alloc: Global,
    types: &Types,
    whole: TypeNo,
    number: usize,
) -> Result<u32, AllocError> {
    let extents = extents_of(alloc, types)?;
    Ok(field_offset(types, &extents, whole, number))
}

/// The procedure of a heading with these variables, without its body.
fn routine_of(alloc: Global, heading: TypeNo, variables: &[TypeNo]) -> Result<Routine, AllocError> {
    Ok(Routine {
        pos: NOWHERE,
        heading,
        level: 1,
        around: None,
        variables: Items::from_slice(alloc, variables)?,
        body: Items::new(alloc),
    })
}

/// Where a variable or a formal of the procedure begins whose block this is. Nothing if it is no procedure's.
pub fn local_start(
    alloc: Global,
    inside: &Inside,
    number: usize,
) -> Result<Option<u32>, AllocError> {
    let Some(heading) = inside.heading else {
        return Ok(None);
    };
    let variables = inside.scope.variables.as_slice();
    let own = variables.get(inside.formals..).unwrap_or(&[]);
    let routine = routine_of(alloc, heading, own)?;
    Ok(Some(routine_start(alloc, &inside.scope.types, &routine, number)?))
}

/// The record that a type is, or of which the elements of an array are made.
pub fn record_in(types: &Types, of: TypeNo) -> Option<(TypeNo, &Dictionary<TypeNo>)> {
    let mut at = of;
    for _ in 0..MOST_LEVELS {
        match &made_of(types, at)?.shape {
            Shape::Array(_, element) => at = *element,
            Shape::Record(fields) => return Some((at, fields)),
            _ => return None,
        }
    }
    None
}
