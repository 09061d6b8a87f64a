//! Modules linked one after the other (Core 1.0, section 4.5.4).

ghost use Rattle.std.specs.Prelude.{◌≡◌, Ok, OnOk, IfOk, slice_get, length};
ghost use Rattle.std.specs.Option.{option_and_then};
ghost use Rattle.wasm_tree.specs.Format.{Gives};
ghost use Rattle.wasm_tree.specs.Validity.{context};
ghost use Rattle.wasm_tree.specs.Linking.{linked_one, linked_from, host_store, no_instance, is_plain, run_index, run_of, run_name, export_named};
ghost use Rattle.wasm_link.specs.Placed.{type_of_ref};

use crate::imports::{export_of, with_imports};
use crate::segments::{with_elements, with_segments};
use crate::store::{with_functions, with_globals, with_memories, with_tables};
use crate::types::has_types;
use std::alloc::{AllocError, Global};
use tree_parts::{Items, at};
use wasm_tree::{Callee, ExportKind, FuncType, Instance, Store, WFault, WModule};
use wasm_valid::ValidModule;

fn no_instance(alloc: Global) -> Instance
    ensures { result ≡ no_instance }
{
    Instance {
        functions: Items::new(alloc),
        tables: Items::new(alloc),
        memories: Items::new(alloc),
        globals: Items::new(alloc),
    }
}

/// A store with the host's functions alone.
fn host_store(alloc: Global) -> Result<Store, AllocError>
    ensures { IfOk result (λ st. st ≡ host_store) }
{
    let mut functions = Items::new(alloc);
    functions.push(Callee::Put)?;
    functions.push(Callee::Stop)?;
    Ok(Store {
        functions,
        tables: Items::new(alloc),
        memories: Items::new(alloc),
        globals: Items::new(alloc),
        instances: Items::new(alloc),
    })
}

/// Links the module of this number: its imports are answered before its segments are placed.
#[tactic(auto, unfolding(wasm_tree::specs::Linking::linked_one))]
fn linked_one(
    alloc: Global,
    modules: &[ValidModule],
    number: usize,
    tree: &WModule,
    store: &mut Store,
) -> Result<(), WFault>
    ensures { Gives (λ _. store.new) result (linked_one modules.now number tree.now store.old) }
{
    let mut instance = no_instance(alloc);
    with_imports(modules, store, tree, tree.imports.as_slice(), &mut instance)?;
    with_functions(store, &mut instance, number, tree.functions.as_slice())?;
    with_tables(alloc, store, &mut instance, tree.tables.as_slice())?;
    with_memories(alloc, store, &mut instance, tree.memories.as_slice())?;
    with_globals(store, &mut instance, tree.globals.as_slice())?;
    with_elements(alloc, store, &instance, tree.elements.as_slice())?;
    with_segments(alloc, store, &instance, tree.data.as_slice())?;
    store.instances.push(instance)?;
    Ok(())
}

/// Links all modules. The first at fault in order decides.
pub fn linked_all(alloc: Global, modules: &[ValidModule]) -> Result<Store, WFault>
    ensures { Gives (λ st. st) result (linked_from modules.now 0 modules.now host_store) }
{
    let mut store = host_store(alloc)?;
    for number in 0..modules.len() {
        let tree = modules[number].module();
        linked_one(alloc, modules, number, tree, &mut store)?;
    }
    Ok(store)
}

fn is_plain(func_type: Option<&FuncType>) -> bool
    ensures { result ≡ is_plain (type_of_ref func_type.entry) }
{
    match func_type {
        None => false,
        Some(func_type) => has_types(func_type, &[], &[]),
    }
}

fn run_index(alloc: Global, first: &ValidModule, found: Option<ExportKind>) -> Result<u32, WFault>
    ensures { Gives (λ f. f) result (run_index first.now found) }
{
    let Some(ExportKind::Function(function)) = found else {
        return Err(WFault::Unlinked);
    };
    let uses = first.function_types(alloc)?;
    let Some(type_index) = at(&uses, function as usize) else {
        return Err(WFault::Unlinked);
    };
    if is_plain(at(first.module().types.as_slice(), *type_index as usize)) {
        Ok(function)
    } else {
        Err(WFault::Unlinked)
    }
}

/// The index of the function without parameters and results that the first module exports as `run`. `Unlinked` if there
/// is none.
pub fn run_of(alloc: Global, modules: &[ValidModule]) -> Result<u32, WFault>
    ensures { Gives (λ f. f) result (run_of modules.now) }
{
    match modules {
        [] => Err(WFault::Unlinked),
        [first, ..] => run_index(alloc, first, export_of(b"run", first.exports())),
    }
}
