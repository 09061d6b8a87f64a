//! Imports, answered by name and kind (Core 1.0, sections 3.3.2 and 4.5.4).

ghost use Rattle.std.specs.Prelude.{◌≡◌, ◌/◌, length, slice_get, OnOk, codes, Some};
ghost use Rattle.std.specs.Option.{option_and_then, option_copied};
ghost use Rattle.std.specs.Str.{bytes_eq};
ghost use Rattle.wasm_tree.specs.Format.{Gives};
ghost use Rattle.wasm_tree.specs.Machine.{callee_type, agree};
ghost use Rattle.wasm_tree.specs.Linking.{export_named, extern_of, host_answer, link_answer, answer, has_limits, has_table, has_memory, has_type, suits, with_extern, import_answer, with_import, each, type_of};
ghost use Rattle.wasm_link.specs.Placed.{type_of_ref};

use crate::types::{agrees, is_same_value_type};
use std::alloc::AllocError;
use tree_parts::at;
use wasm_tree::{
    Export, ExportKind, Extern, Import, ImportKind, Instance, Limits, PAGE_SIZE, Store, Value,
    ValueType, WFault, WModule,
};
use wasm_valid::ValidModule;

fn is_same_name(name: &[u8], other: &[u8]) -> bool
    ensures { result ≡ bytes_eq name.now other.now }
{
    name == other
}

/// What is exported under a name.
pub fn export_of(name: &[u8], exports: &[Export]) -> Option<ExportKind>
    ensures { result ≡ export_named name.now exports.now }
{
    for export in exports {
        if is_same_name(export.name.as_slice(), name) {
            return Some(export.kind);
        }
    }
    None
}

fn extern_of(instance: &Instance, kind: ExportKind) -> Option<Extern>
    ensures { result ≡ extern_of instance.now kind }
{
    match kind {
        ExportKind::Function(x) => {
            Some(Extern::Function(*at(instance.functions.as_slice(), x as usize)?))
        }
        ExportKind::Table(x) => Some(Extern::Table(*at(instance.tables.as_slice(), x as usize)?)),
        ExportKind::Memory(x) => {
            Some(Extern::Memory(*at(instance.memories.as_slice(), x as usize)?))
        }
        ExportKind::Global(x) => {
            Some(Extern::Global(*at(instance.globals.as_slice(), x as usize)?))
        }
    }
}

fn host_answer(name: &[u8]) -> Option<Extern>
    ensures { result ≡ host_answer name.now }
{
    if is_same_name(name, b"put") {
        Some(Extern::Function(0))
    } else if is_same_name(name, b"stop") {
        Some(Extern::Function(1))
    } else {
        None
    }
}

fn link_answer(modules: &[ValidModule], store: &Store, name: &[u8]) -> Option<Extern>
    ensures { result ≡ link_answer modules.now store.now name.now }
{
    let instance = at(store.instances.as_slice(), 0)?;
    let tree = at(modules, 0)?.module();
    extern_of(instance, export_of(name, tree.exports.as_slice())?)
}

fn answer(modules: &[ValidModule], store: &Store, import: &Import) -> Option<Extern>
    ensures { result ≡ answer modules.now store.now import.now }
{
    if is_same_name(import.module_name.as_slice(), b"host") {
        host_answer(import.name.as_slice())
    } else if is_same_name(import.module_name.as_slice(), b"link") {
        link_answer(modules, store, import.name.as_slice())
    } else {
        None
    }
}

fn has_limits(limits: Limits, size: usize, max: Option<u32>) -> bool
    ensures { result ≡ has_limits limits size max }
{
    if size < limits.min as usize {
        return false;
    }
    match (limits.max, max) {
        (None, _) => true,
        (Some(_), None) => false,
        (Some(most), Some(max)) => max <= most,
    }
}

fn type_of(value: Value) -> ValueType
    ensures { result ≡ type_of value }
{
    match value {
        Value::I32(_) => ValueType::I32,
        Value::I64(_) => ValueType::I64,
    }
}

fn suits_table(store: &Store, limits: Limits, address: usize) -> bool
    ensures { result ≡ has_table limits (slice_get store.now.tables address) }
{
    match at(store.tables.as_slice(), address) {
        None => false,
        Some(table) => has_limits(limits, table.slots.len(), table.max),
    }
}

fn suits_memory(store: &Store, limits: Limits, address: usize) -> bool
    ensures { result ≡ has_memory limits (slice_get store.now.memories address) }
{
    match at(store.memories.as_slice(), address) {
        None => false,
        Some(memory) => has_limits(limits, memory.bytes.len() / PAGE_SIZE as usize, memory.max),
    }
}

fn suits_global(store: &Store, value_type: ValueType, address: usize) -> bool
    ensures { result ≡ has_type value_type (slice_get store.now.globals address) }
{
    match at(store.globals.as_slice(), address) {
        None => false,
        Some(value) => is_same_value_type(value_type, type_of(*value)),
    }
}

fn suits_function(
    modules: &[ValidModule],
    store: &Store,
    tree: &WModule,
    type_index: u32,
    address: usize,
) -> bool
    ensures { result ≡ agree (slice_get tree.now.types type_index)
        (option_and_then (λ c. callee_type modules.now c)
        (slice_get store.now.functions address)) }
{
    let asked = at(tree.types.as_slice(), type_index as usize);
    match at(store.functions.as_slice(), address) {
        None => false,
        Some(callee) => agrees(modules, asked, *callee),
    }
}

/// Whether what was found is what the import asks for.
fn suits(
    modules: &[ValidModule],
    store: &Store,
    tree: &WModule,
    kind: ImportKind,
    found: Extern,
) -> bool
    ensures { result ≡ suits modules.now store.now tree.now kind found }
{
    match (kind, found) {
        (ImportKind::Function(type_index), Extern::Function(address)) => {
            suits_function(modules, store, tree, type_index, address)
        }
        (ImportKind::Table(table), Extern::Table(address)) => {
            suits_table(store, table.limits, address)
        }
        (ImportKind::Memory(memory), Extern::Memory(address)) => {
            suits_memory(store, memory.limits, address)
        }
        (ImportKind::Global(value_type), Extern::Global(address)) => {
            suits_global(store, value_type, address)
        }
        _ => false,
    }
}

fn with_extern(instance: &mut Instance, found: Extern) -> Result<(), AllocError>
    ensures { OnOk result (instance.new ≡ with_extern found instance.old) }
{
    match found {
        Extern::Function(address) => instance.functions.push(address),
        Extern::Table(address) => instance.tables.push(address),
        Extern::Memory(address) => instance.memories.push(address),
        Extern::Global(address) => instance.globals.push(address),
    }
}

/// The answer to an import. `Unlinked` if there is none, or one of another type.
fn suitable_answer(
    modules: &[ValidModule],
    store: &Store,
    tree: &WModule,
    import: &Import,
) -> Result<Extern, WFault>
    ensures { Gives (λ x. x) result (import_answer modules.now store.now tree.now import.now) }
{
    match answer(modules, store, import) {
        Some(found) if suits(modules, store, tree, import.kind, found) => Ok(found),
        _ => Err(WFault::Unlinked),
    }
}

/// Appends the places of what the module's imports ask for. `Unlinked` at the first that is missing or another.
pub fn with_imports(
    modules: &[ValidModule],
    store: &Store,
    tree: &WModule,
    imports: &[Import],
    instance: &mut Instance,
) -> Result<(), WFault>
    ensures { Gives (λ _. instance.new) result
        (each (with_import modules.now store.now tree.now) imports.now instance.old) }
{
    for import in imports {
        let found = suitable_answer(modules, store, tree, import)?;
        with_extern(instance, found)?;
    }
    Ok(())
}
