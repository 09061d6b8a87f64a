//! Code that says what it writes into the memory: in place of each instruction that stores, a function is called that signals the
//! address and the value and then stores it. So are the functions that copy and clear bytes. Who reads these signals knows all bytes
//! of the memory at each time.

use crate::module::HELPERS;
use crate::rewriting::Rewriting;
use crate::signals::{
    ADDRESS_BYTES, BITS, CLEARED, COPIED, COPY, FILL, FRAME, IMPORTED, PUT, STORED_EIGHT,
    STORED_FOUR, STORED_ONE, STORED_TWO,
};
use std::alloc::{AllocError, Global};
use std::mem;
use tree_parts::Items;
use wasm_tree::{
    Body, Code, FuncType, Function, Numeric, Op, Operation, StoreWidth, ValueType, WModule,
};

/// The widths of what is stored, each with its signal and its bytes, in the order of their functions.
const WIDTHS: [(StoreWidth, u8, usize); 4] = [
    (StoreWidth::One, STORED_ONE, 1),
    (StoreWidth::Two, STORED_TWO, 2),
    (StoreWidth::Four, STORED_FOUR, 4),
    (StoreWidth::Eight, STORED_EIGHT, 8),
];

/// The parameter that has the address, and the one that has the value.
const ADDRESS: u32 = 0;

const VALUE: u32 = 1;

/// How many functions there are for what is stored. Those for copies and for clearing stand behind them.
const STORING: u32 = 4;

/// Puts operations that print so many bytes of a local, the lowest first.
fn put_bytes(
    code: &mut Rewriting,
    local: u32,
    count: usize,
    is_narrow: bool,
) -> Result<(), AllocError> {
    for byte in 0..count {
        code.put(Op::LocalGet(local))?;
        if is_narrow {
            code.put(Op::Numeric(Numeric::I64ExtendI32U))?;
        }
        code.put(Op::I64Const((byte as u64).saturating_mul(BITS)))?;
        code.put(Op::Numeric(Numeric::I64Operation(Operation::ShrU)))?;
        code.put(Op::Call(PUT))?;
    }
    Ok(())
}

/// A function of this type with this code and no locals.
fn function_of(alloc: Global, type_index: u32, code: Rewriting) -> Function {
    Function {
        type_index,
        body: Body {
            locals: Items::new(alloc),
            code: Code::new(code.finish(&[])),
        },
    }
}

/// The function that signals a value of this width and stores it.
fn storing(
    alloc: Global,
    type_index: u32,
    width: StoreWidth,
    signal: u8,
    bytes: usize,
) -> Result<Function, AllocError> {
    let mut code = Rewriting::new(alloc);
    code.signal(&[signal])?;
    put_bytes(&mut code, ADDRESS, ADDRESS_BYTES, true)?;
    put_bytes(&mut code, VALUE, bytes, false)?;
    code.put(Op::LocalGet(ADDRESS))?;
    code.put(Op::LocalGet(VALUE))?;
    code.put(Op::Store(width))?;
    Ok(function_of(alloc, type_index, code))
}

/// The function that signals its parameters, so many, and hands them to another.
fn handing(
    alloc: Global,
    type_index: u32,
    signal: u8,
    count: u32,
    other: u32,
) -> Result<Function, AllocError> {
    let mut code = Rewriting::new(alloc);
    code.signal(&[signal])?;
    for local in 0..count {
        put_bytes(&mut code, local, ADDRESS_BYTES, true)?;
    }
    for local in 0..count {
        code.put(Op::LocalGet(local))?;
    }
    code.put(Op::Call(other))?;
    Ok(function_of(alloc, type_index, code))
}

/// The index of the type of the function of this number.
fn type_of(functions: &[Function], number: u32) -> u32 {
    let place = number.saturating_sub(IMPORTED) as usize;
    functions.get(place).map_or(0, |it| it.type_index)
}

/// The functions that store, copy and clear with signals. Those that store have the type of this index.
fn writing(
    alloc: Global,
    functions: &[Function],
    type_index: u32,
) -> Result<Vec<Function>, AllocError> {
    let mut all = Vec::new(alloc);
    for (width, signal, bytes) in WIDTHS {
        all.push(storing(alloc, type_index, width, signal, bytes)?)?;
    }
    all.push(handing(alloc, type_of(functions, COPY), COPIED, 3, COPY)?)?;
    all.push(handing(alloc, type_of(functions, FILL), CLEARED, 2, FILL)?)?;
    Ok(all)
}

/// The place of a width among those of functions that store.
fn place_of(width: StoreWidth) -> u32 {
    match width {
        StoreWidth::One => 0,
        StoreWidth::Two => 1,
        StoreWidth::Four => 2,
        StoreWidth::Eight => 3,
    }
}

/// What stands for an operation, if the functions with signals stand from this number on.
fn written(op: Op, first: u32) -> Op {
    match op {
        Op::Store(width) => Op::Call(first.saturating_add(place_of(width))),
        Op::Call(COPY) => Op::Call(first.saturating_add(STORING)),
        Op::Call(FILL) => Op::Call(first.saturating_add(STORING).saturating_add(1)),
        other => other,
    }
}

/// The code of a function that signals where its variables stand, and what it writes.
fn code_that_tells(alloc: Global, code: &Code, first: u32) -> Result<Code, AllocError> {
    let mut made = Rewriting::new(alloc);
    for (at, op) in code.ops().iter().enumerate() {
        made.begin()?;
        if at == 0 {
            made.signal(&[FRAME])?;
            put_bytes(&mut made, ADDRESS, ADDRESS_BYTES, true)?;
        }
        made.put(written(*op, first))?;
    }
    Ok(Code::new(made.finish(code.ops())))
}

/// Adds the type of the functions that store. Its index.
fn add_type(alloc: Global, types: &mut Items<FuncType>) -> Result<u32, AllocError> {
    let index = u32::try_from(types.len()).unwrap_or(u32::MAX);
    types.push(FuncType {
        params: Items::from_slice(alloc, &[ValueType::I32, ValueType::I64])?,
        results: Items::new(alloc),
    })?;
    Ok(index)
}

/// A module with signals (`watch_module`) that also signals where the variables of its functions stand, and what they write. So many
/// functions are its own.
///
/// The only error is that memory ran out.
pub fn with_stores(alloc: Global, tree: WModule, own: usize) -> Result<WModule, AllocError> {
    let mut tree = tree;
    let mut functions = mem::replace(&mut tree.functions, Items::new(alloc)).into_vec();
    let count = u32::try_from(functions.len()).unwrap_or(u32::MAX);
    let first = IMPORTED.saturating_add(count);
    let type_index = add_type(alloc, &mut tree.types)?;
    let mut more = writing(alloc, &functions, type_index)?;
    for function in functions.iter_mut().skip(HELPERS).take(own) {
        function.body.code = code_that_tells(alloc, &function.body.code, first)?;
    }
    functions.append(&mut more)?;
    tree.functions = Items::from_vec(functions);
    Ok(tree)
}
