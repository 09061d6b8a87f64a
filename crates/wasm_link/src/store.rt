//! What a module adds to the store (Core 1.0, section 4.5.3).

ghost use Rattle.std.specs.Prelude.{◌≡◌, ◌*◌, List, Ok, OnOk, IfOk, replicate, None};
ghost use Rattle.wasm_tree.specs.declared.code.Op.{Op};
ghost use Rattle.wasm_tree.specs.Code.{tree, head};
ghost use Rattle.wasm_tree.specs.Format.{Gives};
ghost use Rattle.wasm_tree.specs.Linking.{with_function, with_functions, fresh_table, with_table, fresh_memory, with_memory, constant, value_of, with_value, with_global, each};
ghost use Rattle.wasm_link.specs.Placed.{link_result};

use std::alloc::{AllocError, Global};
use tree_parts::{Items, at};
use wasm_tree::{
    Callee, Function, Global as Constant, Instance, Memory, MemoryType, Op, PAGE_SIZE, Store,
    Table, TableType, Value, WFault,
};

fn with_function(
    store: &mut Store,
    instance: &mut Instance,
    callee: Callee,
) -> Result<(), AllocError>
    ensures { OnOk result (link_result store.new instance.new
        ≡ with_function callee (link_result store.old instance.old)) }
{
    let address = store.functions.len();
    store.functions.push(callee)?;
    instance.functions.push(address)?;
    Ok(())
}

/// Adds the functions that the module of this number declares.
pub fn with_functions(
    store: &mut Store,
    instance: &mut Instance,
    number: usize,
    functions: &[Function],
) -> Result<(), AllocError>
    ensures { OnOk result
        (link_result store.new instance.new
        ≡ with_functions number 0 functions.now (link_result store.old instance.old)) }
{
    for function in 0..functions.len() {
        let callee = Callee::Own {
            module: number,
            function,
        };
        with_function(store, instance, callee)?;
    }
    Ok(())
}

fn fresh_table(alloc: Global, table: TableType) -> Result<Table, AllocError>
    ensures { IfOk result (λ t. t ≡ fresh_table table) }
{
    let slots = vec![in alloc; None; table.limits.min as usize]?;
    Ok(Table {
        slots: Items::from_vec(slots),
        max: table.limits.max,
    })
}

fn with_table(
    alloc: Global,
    store: &mut Store,
    instance: &mut Instance,
    table: TableType,
) -> Result<(), AllocError>
    ensures { OnOk result (with_table table (link_result store.old instance.old)
        ≡ Ok (link_result store.new instance.new)) }
{
    let address = store.tables.len();
    let fresh = fresh_table(alloc, table)?;
    store.tables.push(fresh)?;
    instance.tables.push(address)?;
    Ok(())
}

/// Adds empty tables.
pub fn with_tables(
    alloc: Global,
    store: &mut Store,
    instance: &mut Instance,
    tables: &[TableType],
) -> Result<(), AllocError>
    ensures { OnOk result
        (each with_table tables.now (link_result store.old instance.old)
        ≡ Ok (link_result store.new instance.new)) }
{
    for table in tables {
        with_table(alloc, store, instance, *table)?;
    }
    Ok(())
}

fn fresh_memory(alloc: Global, memory: MemoryType) -> Result<Memory, AllocError>
    ensures { IfOk result (λ m. m ≡ fresh_memory memory) }
{
    let bytes = vec![in alloc; 0u8; PAGE_SIZE as usize * memory.limits.min as usize]?;
    Ok(Memory {
        bytes: Items::from_vec(bytes),
        max: memory.limits.max,
    })
}

fn with_memory(
    alloc: Global,
    store: &mut Store,
    instance: &mut Instance,
    memory: MemoryType,
) -> Result<(), AllocError>
    ensures { OnOk result
        (with_memory memory (link_result store.old instance.old)
        ≡ Ok (link_result store.new instance.new)) }
{
    let address = store.memories.len();
    let fresh = fresh_memory(alloc, memory)?;
    store.memories.push(fresh)?;
    instance.memories.push(address)?;
    Ok(())
}

/// Adds memories of zero bytes.
pub fn with_memories(
    alloc: Global,
    store: &mut Store,
    instance: &mut Instance,
    memories: &[MemoryType],
) -> Result<(), AllocError>
    ensures { OnOk result
        (each with_memory memories.now (link_result store.old instance.old)
        ≡ Ok (link_result store.new instance.new)) }
{
    for memory in memories {
        with_memory(alloc, store, instance, *memory)?;
    }
    Ok(())
}

/// The value of an instruction that is constant, whatever stands behind it.
fn constant(store: &Store, instance: &Instance, op: Op) -> Option<Value>
    ensures { (rest : List Op)
        → result ≡ constant (link_result store.now instance.now) (head tree op rest) }
{
    match op {
        Op::I32Const(number) => Some(Value::I32(number)),
        Op::I64Const(number) => Some(Value::I64(number)),
        Op::GlobalGet(global) => {
            let address = at(instance.globals.as_slice(), global as usize)?;
            Some(*at(store.globals.as_slice(), *address)?)
        }
        Op::Unreachable
        | Op::Block(_, _)
        | Op::Loop(_, _)
        | Op::If(_, _)
        | Op::IfElse(_, _, _)
        | Op::Br(_)
        | Op::BrIf(_)
        | Op::BrTable(_, _)
        | Op::Return
        | Op::Call(_)
        | Op::CallIndirect(_)
        | Op::Drop
        | Op::LocalGet(_)
        | Op::LocalSet(_)
        | Op::LocalTee(_)
        | Op::Load(_)
        | Op::Store(_)
        | Op::Numeric(_) => None,
    }
}

/// The value of a constant expression.
pub fn value_of(store: &Store, instance: &Instance, code: &[Op]) -> Option<Value>
    ensures { result ≡ value_of (link_result store.now instance.now) (tree code.now) }
{
    match code {
        [op] => constant(store, instance, *op),
        _ => None,
    }
}

fn with_global(store: &mut Store, instance: &mut Instance, global: &Constant) -> Result<(), WFault>
    ensures { Gives (λ _. link_result store.new instance.new) result
        (with_global global.now (link_result store.old instance.old)) }
{
    let Some(value) = value_of(store, instance, global.value.ops()) else {
        return Err(WFault::Unlinked);
    };
    let address = store.globals.len();
    store.globals.push(value)?;
    instance.globals.push(address)?;
    Ok(())
}

/// Adds the module's globals, each with its value.
pub fn with_globals(
    store: &mut Store,
    instance: &mut Instance,
    globals: &[Constant],
) -> Result<(), WFault>
    ensures { Gives (λ _. link_result store.new instance.new) result
        (each with_global globals.now (link_result store.old instance.old)) }
{
    for global in globals {
        with_global(store, instance, global)?;
    }
    Ok(())
}
