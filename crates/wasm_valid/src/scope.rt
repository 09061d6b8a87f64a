//! What a module's indices stand for (Core 1.0, section 3.1).

ghost use Rattle.std.specs.Prelude.{◌≡◌, ◌++◌, map, IfOk};
ghost use Rattle.std.specs.List.{filter_map};
ghost use Rattle.wasm_tree.specs.Validity.{function_import, table_import, memory_import, global_import, context, initial_context};
ghost use Rattle.wasm_valid.specs.CodeScope.{scope_of};
ghost use Rattle.wasm_valid.specs.Scope.{HasNames};

use crate::Scope;
use std::alloc::{AllocError, Global};
use wasm_tree::{Import, ImportKind, Limits, ValueType, WModule};

/// The lists that a scope borrows.
#[derive(Drop)]
pub struct Names {
    pub functions: Vec<u32>,
    pub tables: Vec<Limits>,
    pub memories: Vec<Limits>,
    pub imported_globals: Vec<ValueType>,
    pub globals: Vec<ValueType>,
}

fn function_import(import: &Import) -> Option<u32>
    ensures { result ≡ function_import import.now }
{
    match import.kind {
        ImportKind::Function(type_index) => Some(type_index),
        _ => None,
    }
}

fn table_import(import: &Import) -> Option<Limits>
    ensures { result ≡ table_import import.now }
{
    match import.kind {
        ImportKind::Table(table) => Some(table.limits),
        _ => None,
    }
}

fn memory_import(import: &Import) -> Option<Limits>
    ensures { result ≡ memory_import import.now }
{
    match import.kind {
        ImportKind::Memory(memory) => Some(memory.limits),
        _ => None,
    }
}

fn global_import(import: &Import) -> Option<ValueType>
    ensures { result ≡ global_import import.now }
{
    match import.kind {
        ImportKind::Global(value_type) => Some(value_type),
        _ => None,
    }
}

pub fn functions_of(alloc: Global, tree: &WModule) -> Result<Vec<u32>, AllocError>
    ensures { IfOk result (λ v.
        v.items ≡ filter_map function_import tree.now.imports
        ++ map (λ f. f.type_index) tree.now.functions) }
{
    let imports = tree.imports.as_slice();
    let own = tree.functions.as_slice();
    imports
        .iter()
        .filter_map(function_import)
        .chain(own.iter().map(|f| f.type_index))
        .collect(alloc)
}

fn tables_of(alloc: Global, tree: &WModule) -> Result<Vec<Limits>, AllocError>
    ensures { IfOk result (λ v.
        v.items
        ≡ filter_map table_import tree.now.imports ++ map (λ t. t.limits) tree.now.tables) }
{
    let imports = tree.imports.as_slice();
    let own = tree.tables.as_slice();
    imports
        .iter()
        .filter_map(table_import)
        .chain(own.iter().map(|t| t.limits))
        .collect(alloc)
}

fn memories_of(alloc: Global, tree: &WModule) -> Result<Vec<Limits>, AllocError>
    ensures { IfOk result (λ v.
        v.items
        ≡ filter_map memory_import tree.now.imports
        ++ map (λ t. t.limits) tree.now.memories) }
{
    let imports = tree.imports.as_slice();
    let own = tree.memories.as_slice();
    imports
        .iter()
        .filter_map(memory_import)
        .chain(own.iter().map(|m| m.limits))
        .collect(alloc)
}

fn imported_globals(alloc: Global, tree: &WModule) -> Result<Vec<ValueType>, AllocError>
    ensures { IfOk result (λ v. v.items ≡ filter_map global_import tree.now.imports) }
{
    let imports = tree.imports.as_slice();
    imports.iter().filter_map(global_import).collect(alloc)
}

fn globals_of(alloc: Global, tree: &WModule) -> Result<Vec<ValueType>, AllocError>
    ensures { IfOk result (λ v.
        v.items ≡ filter_map global_import tree.now.imports
        ++ map (λ g. g.value_type) tree.now.globals) }
{
    let imports = tree.imports.as_slice();
    let own = tree.globals.as_slice();
    imports
        .iter()
        .filter_map(global_import)
        .chain(own.iter().map(|g| g.value_type))
        .collect(alloc)
}

/// All that the module's indices stand for.
pub fn names_of(alloc: Global, tree: &WModule) -> Result<Names, AllocError>
    ensures { IfOk result (λ n. HasNames n tree.now) }
{
    Ok(Names {
        functions: functions_of(alloc, tree)?,
        tables: tables_of(alloc, tree)?,
        memories: memories_of(alloc, tree)?,
        imported_globals: imported_globals(alloc, tree)?,
        globals: globals_of(alloc, tree)?,
    })
}

/// What the module's code may name.
pub fn whole_scope<'a>(tree: &'a WModule, names: &'a Names) -> Scope<'a>
    requires { HasNames names.now tree.now }
    ensures { scope_of result ≡ context tree.now }
{
    Scope {
        types: tree.types.as_slice(),
        functions: names.functions.as_slice(),
        tables: names.tables.as_slice(),
        memories: names.memories.as_slice(),
        globals: names.globals.as_slice(),
    }
}

/// What the values of its globals may name.
pub fn initial_scope<'a>(tree: &'a WModule, names: &'a Names) -> Scope<'a>
    requires { HasNames names.now tree.now }
    ensures { scope_of result ≡ initial_context tree.now }
{
    Scope {
        globals: names.imported_globals.as_slice(),
        ..whole_scope(tree, names)
    }
}
