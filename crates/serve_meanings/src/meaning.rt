//! What a declared thing means.

use crate::inside::Inside;
use crate::names::Names;
use crate::stored::{bytes_in, field_start, local_start, record_in, variable_start};
use crate::tables::{Tables, Tree};
use crate::values::value_words;
use m2_tree::Pos;
use std::alloc::{AllocError, Global};
use typed_tree::{LocalKind, LocalVariable, Meaning, TypeNo, Types, Value, Variable};

/// A thing that is declared.
#[derive(Clone, Copy)]
pub struct Wanted<'a> {
    /// The number of its file.
    pub file: usize,
    /// The places of the names of the procedures in which it is declared, the outermost first.
    pub procedures: &'a [Pos],
    /// Its name, or of a field the name of the type or the variable in which it is written, and behind it the fields down to its own.
    pub names: &'a [&'a [u8]],
}

/// What a declared thing means. Sizes and offsets are numbers of bytes.
#[derive(Drop)]
pub enum Meant {
    /// A constant: its value in words of the language, and its number, if it is of a scalar type.
    Constant(String, Option<i64>),
    /// A variable of a module: its size, and its offset in the module's data.
    OfModule(u32, u32),
    /// A variable of a procedure: its size, and its offset in the procedure's frame.
    OfProcedure(u32, u32),
    /// A parameter that is passed by value: its size, and its offset in the frame.
    ByValue(u32, u32),
    /// A parameter that is passed by reference: the size of what is passed, and the offset of its address in the frame.
    ByReference(u32, u32),
    /// A parameter that is an open array: the size of an element, and the offset of its address and HIGH in the frame.
    Open(u32, u32),
    /// A field: its size, and its offset in the record.
    Field(u32, u32),
}

/// The number of a constant of a scalar type.
fn number_in(value: &Value) -> Option<i64> {
    match value {
        Value::Number(number) => Some(*number),
        Value::Scalar(scalar) => Some(scalar.number),
        Value::Set(_) | Value::Text(_) => None,
    }
}

/// A variable of a module.
fn of_module(alloc: Global, inside: &Inside, variable: Variable) -> Result<Meant, AllocError> {
    let types = &inside.scope.types;
    let size = bytes_in(alloc, types, variable.of)?;
    let variables = inside.scope.variables.as_slice();
    let start = variable_start(alloc, types, variables, variable.number)?;
    Ok(Meant::OfModule(size, start))
}

/// A variable or a parameter of a procedure.
fn of_procedure(
    alloc: Global,
    inside: &Inside,
    local: LocalVariable,
) -> Result<Option<Meant>, AllocError> {
    let size = bytes_in(alloc, &inside.scope.types, local.of)?;
    let Some(start) = local_start(alloc, inside, local.number)? else {
        return Ok(None);
    };
    Ok(Some(match local.kind {
        LocalKind::Variable => Meant::OfProcedure(size, start),
        LocalKind::Value => Meant::ByValue(size, start),
        LocalKind::Alias => Meant::ByReference(size, start),
        LocalKind::Open => Meant::Open(size, start),
    }))
}

/// What a name of a block means.
fn of_name(
    alloc: Global,
    tables: &Tables,
    inside: &Inside,
    name: &[u8],
) -> Result<Option<Meant>, AllocError> {
    let names = Names {
        tables,
        scope: &inside.scope,
    };
    match inside.meaning(name) {
        Some(Meaning::Constant(value)) => {
            let words = value_words(alloc, names, value)?;
            Ok(Some(Meant::Constant(words, number_in(value))))
        }
        Some(Meaning::Variable(variable)) => Ok(Some(of_module(alloc, inside, *variable)?)),
        Some(Meaning::Local(local)) => of_procedure(alloc, inside, *local),
        _ => Ok(None),
    }
}

/// The type of a name of a block.
fn type_named(inside: &Inside, name: &[u8]) -> Option<TypeNo> {
    match inside.meaning(name)? {
        Meaning::Type(of, _constants) => Some(*of),
        Meaning::Variable(variable) => Some(variable.of),
        Meaning::Local(local) => Some(local.of),
        _ => None,
    }
}

/// A field of a record: the record, the field's number and its type.
#[derive(Clone, Copy)]
struct FieldOf {
    whole: TypeNo,
    number: usize,
    of: TypeNo,
}

/// The field of this name of the record that a type is made of.
fn field_named(types: &Types, of: TypeNo, name: &[u8]) -> Option<FieldOf> {
    let (whole, fields) = record_in(types, of)?;
    let number = fields.place(name)?;
    let (_, of) = fields.get(number)?;
    Some(FieldOf {
        whole,
        number,
        of: *of,
    })
}

/// The last of these fields, each of the record of which the one before is made.
fn last_field(types: &Types, of: TypeNo, names: &[&[u8]]) -> Option<FieldOf> {
    match names {
        [] => None,
        [name] => field_named(types, of, *name),
        [name, inner @ ..] => last_field(types, field_named(types, of, *name)?.of, inner),
    }
}

/// What a field means.
fn of_field(
    alloc: Global,
    inside: &Inside,
    name: &[u8],
    fields: &[&[u8]],
) -> Result<Option<Meant>, AllocError> {
    let types = &inside.scope.types;
    let found = type_named(inside, name).and_then(|of| last_field(types, of, fields));
    let Some(field) = found else {
        return Ok(None);
    };
    let size = bytes_in(alloc, types, field.of)?;
    let start = field_start(alloc, types, field.whole, field.number)?;
    Ok(Some(Meant::Field(size, start)))
}

/// What a declared thing means in a program of these files, each with its name and its tree. Nothing of a module, a procedure or a
/// type, and nothing if a rule of imports or of declarations is broken. The only error is want of memory.
pub fn meaning_of(
    alloc: Global,
    trees: &[Tree<'_>],
    wanted: Wanted<'_>,
) -> Result<Option<Meant>, AllocError> {
    let Some(tables) = Tables::of(alloc, trees)? else {
        return Ok(None);
    };
    let found = Inside::of(alloc, &tables, trees, wanted.file, wanted.procedures)?;
    let Some(inside) = found else {
        return Ok(None);
    };
    match wanted.names {
        [] => Ok(None),
        [name] => of_name(alloc, &tables, &inside, *name),
        [name, fields @ ..] => of_field(alloc, &inside, *name, fields),
    }
}
