//! The module in the making.

use crate::fault::{SingleFault, unread};
use crate::numbers::{Numbers, Outside};
use std::alloc::Global as Alloc;
use tree_parts::Items;
use wasm_core::{
    Body, Code, Data, Element, FuncType, Function, Locals, Op, ValueType, WModule, read_module,
};

/// A number of things in 32 bits.
fn small(number: usize) -> Result<u32, SingleFault> {
    u32::try_from(number).map_err(|_| SingleFault::TooLarge)
}

/// The number that the next function gets.
pub fn next_function(whole: &WModule) -> Result<u32, SingleFault> {
    small(whole.functions.len().saturating_add(whole.imports.len()))
}

/// Adds a type.
pub fn add_type(
    alloc: Alloc,
    whole: &mut WModule,
    params: &[ValueType],
    results: &[ValueType],
) -> Result<(), SingleFault> {
    whole.types.push(FuncType {
        params: Items::from_slice(alloc, params)?,
        results: Items::from_slice(alloc, results)?,
    })?;
    Ok(())
}

/// Adds a function.
pub fn add_function(
    alloc: Alloc,
    whole: &mut WModule,
    type_index: u32,
    locals: &[Locals],
    code: Code,
) -> Result<(), SingleFault> {
    let body = Body {
        locals: Items::from_slice(alloc, locals)?,
        code,
    };
    whole.functions.push(Function { type_index, body })?;
    Ok(())
}

/// Adds bytes for the memory.
pub fn add_bytes(
    alloc: Alloc,
    whole: &mut WModule,
    offset: Code,
    bytes: &[u8],
) -> Result<(), SingleFault> {
    whole.data.push(Data {
        memory: 0,
        offset,
        bytes: Items::from_slice(alloc, bytes)?,
    })?;
    Ok(())
}

fn add_elements(
    alloc: Alloc,
    whole: &mut WModule,
    elements: &[Element],
    numbers: &Numbers,
) -> Result<(), SingleFault> {
    for element in elements {
        whole.elements.push(Element {
            table: 0,
            offset: numbers.code(alloc, &element.offset)?,
            functions: numbers.listed(alloc, element.functions.as_slice())?,
        })?;
    }
    Ok(())
}

fn add_functions(
    alloc: Alloc,
    whole: &mut WModule,
    functions: &[Function],
    numbers: &Numbers,
) -> Result<(), SingleFault> {
    for function in functions {
        let (of_type, body) = (numbers.of_type(function.type_index)?, &function.body);
        let code = numbers.code(alloc, &body.code)?;
        add_function(alloc, whole, of_type, body.locals.as_slice(), code)?;
    }
    Ok(())
}

/// Adds the types, functions, elements and texts of the module of these bytes.
pub fn add_module(
    alloc: Alloc,
    whole: &mut WModule,
    bytes: &[u8],
    outside: &Outside<'_>,
) -> Result<(), SingleFault> {
    let tree = read_module(alloc, bytes).map_err(unread)?;
    let (types, functions) = (small(whole.types.len())?, next_function(whole)?);
    let numbers = Numbers::of(alloc, &tree, outside, types, functions)?;
    for of_type in tree.types.as_slice() {
        add_type(
            alloc,
            whole,
            of_type.params.as_slice(),
            of_type.results.as_slice(),
        )?;
    }
    add_functions(alloc, whole, tree.functions.as_slice(), &numbers)?;
    add_elements(alloc, whole, tree.elements.as_slice(), &numbers)?;
    for text in tree.data.as_slice() {
        let offset = numbers.code(alloc, &text.offset)?;
        add_bytes(alloc, whole, offset, text.bytes.as_slice())?;
    }
    Ok(())
}
