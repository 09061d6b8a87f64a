//! The one module.

ghost use Rattle.std.specs.Prelude.{IfOk};
ghost use Rattle.wasm_tree.specs.declared.module.WModule.{WModule};
ghost use Rattle.link_single.specs.Single.{IsModule};

use crate::fault::{SingleFault, invalid, unread, unwritten};
use crate::host::Host;
use crate::numbers::{Outside, values_of};
use crate::wasi::{Page, add_start, add_wasi};
use crate::whole::{add_module, add_type, next_function};
use std::alloc::{AllocError, Global as Alloc};
use tree_parts::Items;
use wasm_core::{
    Export, ExportKind, Limits, MemoryType, TableType, ValueType, WModule, read_module, validate,
    write_module,
};

/// A module over a host, without functions. It has this table, and a memory of so many pages and those that the host asks for.
fn empty_module(
    alloc: Alloc,
    host: Host,
    table: TableType,
    pages: u32,
) -> Result<WModule, AllocError> {
    let min = pages.saturating_add(host.pages());
    let memory = MemoryType {
        limits: Limits {
            min,
            max: Some(min),
        },
    };
    Ok(WModule {
        types: Items::new(alloc),
        imports: host.imports(alloc)?,
        functions: Items::new(alloc),
        tables: Items::from_slice(alloc, &[table])?,
        memories: Items::from_slice(alloc, &[memory])?,
        globals: Items::new(alloc),
        exports: Items::new(alloc),
        elements: Items::new(alloc),
        data: Items::new(alloc),
    })
}

/// Adds all modules, link first. The number of the function of link, which runs all bodies.
fn add_modules(
    alloc: Alloc,
    whole: &mut WModule,
    outside: &Outside<'_>,
    link: &[u8],
    others: &[(String, Vec<u8>)],
) -> Result<u32, SingleFault> {
    let run = next_function(whole)?;
    add_module(alloc, whole, link, outside)?;
    for module in others {
        add_module(alloc, whole, &module.1, outside)?;
    }
    Ok(run)
}

/// Exports the memory, and a function under this name.
fn add_exports(
    alloc: Alloc,
    whole: &mut WModule,
    name: &[u8],
    function: u32,
) -> Result<(), SingleFault> {
    whole.exports.push(Export {
        name: Items::from_slice(alloc, b"memory")?,
        kind: ExportKind::Memory(0),
    })?;
    whole.exports.push(Export {
        name: Items::from_slice(alloc, name)?,
        kind: ExportKind::Function(function),
    })?;
    Ok(())
}

/// The module over this host.
fn whole_module(
    alloc: Alloc,
    host: Host,
    link: &[u8],
    others: &[(String, Vec<u8>)],
) -> Result<WModule, SingleFault> {
    let tree = read_module(alloc, link).map_err(unread)?;
    let (Some(table), Some(memory)) = (tree.tables.get(0), tree.memories.get(0)) else {
        return Err(SingleFault::NotOurs);
    };
    let pages = memory.limits.min;
    let mut whole = empty_module(alloc, host, *table, pages)?;
    match host {
        Host::Wasi => add_wasi(alloc, &mut whole, Page::behind(pages)?)?,
        Host::Plain => add_type(alloc, &mut whole, &[ValueType::I64], &[])?,
    }
    let outside = Outside {
        values: values_of(alloc, &tree)?,
        put: host.put(),
        stop: host.stop(),
    };
    let run = add_modules(alloc, &mut whole, &outside, link, others)?;
    let begin = match host {
        Host::Wasi => add_start(alloc, &mut whole, run)?,
        Host::Plain => run,
    };
    add_exports(alloc, &mut whole, host.begin(), begin)?;
    Ok(whole)
}

/// The bytes of a module, if it is valid.
fn bytes_of(alloc: Alloc, tree: WModule) -> Result<Vec<u8>, SingleFault>
    ensures { IfOk result (λ v. IsModule v.items tree) }
{
    let bytes = write_module(alloc, &tree).map_err(unwritten)?;
    validate(alloc, tree).map_err(invalid)?;
    Ok(bytes)
}

/// The bytes of the one module over this host, from the bytes of link and of the other modules of a program, whose names do not
/// matter. `NotOurs` if they are not such modules, `TooLarge` if a number or a size passes what the format allows, and `NotValid`
/// if what they make is not valid.
pub fn single_module(
    alloc: Alloc,
    host: Host,
    link: &[u8],
    others: &[(String, Vec<u8>)],
) -> Result<Vec<u8>, SingleFault>
    // What is handed out encodes a valid module.
    ensures { IfOk result (λ v. (tree : WModule) × IsModule v.items tree) }
{
    bytes_of(alloc, whole_module(alloc, host, link, others)?)
}
