//! What a module imports.

ghost use Rattle.std.specs.Prelude.{◌≡◌, ◌++◌, ◌∷◌, [], IfOk, OnOk, map};
ghost use Rattle.def_scheme.specs.Scheme.{base_name, from_host, from_link, imported_globals, own_imports, tab_name};
ghost use Rattle.def_scheme.specs.Modules.{imports};
ghost use Rattle.m2_emit.specs.OwnImports.{linked_as, own_globals};

use crate::parts::{AT_LEAST_ONE, name_behind_word};
use std::alloc::{AllocError, Global};
use tree_parts::Items;
use typed_tree::{Imported, TypedModule};
use wasm_tree::{Import, ImportKind, MemoryType, TableType, ValueType};

fn from_link(alloc: Global, name: Items<u8>) -> Result<Import, AllocError>
    ensures { IfOk result (λ import. import ≡ from_link name) }
{
    Ok(Import {
        module_name: Items::from_slice(alloc, b"link")?,
        name,
        kind: ImportKind::Global(ValueType::I32),
    })
}

fn from_host(alloc: Global, name: &[u8]) -> Result<Import, AllocError>
    ensures { IfOk result (λ import. import ≡ from_host name.now) }
{
    Ok(Import {
        module_name: Items::from_slice(alloc, b"host")?,
        name: Items::from_slice(alloc, name)?,
        kind: ImportKind::Function(0),
    })
}

/// What link exports under this name.
fn push_from_link(
    alloc: Global,
    imports: &mut Items<Import>,
    name: &[u8],
    kind: ImportKind,
) -> Result<(), AllocError>
    ensures { OnOk result (imports.new ≡ imports.old ++ linked_as name.now kind ∷ []) }
{
    imports.push(Import {
        module_name: Items::from_slice(alloc, b"link")?,
        name: Items::from_slice(alloc, name)?,
        kind,
    })
}

/// A global that link exports under this name.
fn push_from(alloc: Global, imports: &mut Items<Import>, name: Items<u8>) -> Result<(), AllocError>
    ensures { OnOk result (imports.new ≡ imports.old ++ from_link name ∷ []) }
{
    imports.push(from_link(alloc, name)?)
}

/// The limit of the storage, and where the module's own data, texts and slots begin.
fn push_own_globals(
    alloc: Global,
    imports: &mut Items<Import>,
    name: &[u8],
) -> Result<(), AllocError>
    ensures { OnOk result (imports.new ≡ imports.old ++ own_globals name.now) }
{
    push_from(alloc, imports, Items::from_slice(alloc, b"limit")?)?;
    push_from(alloc, imports, name_behind_word(alloc, b"base.", name)?)?;
    push_from(alloc, imports, name_behind_word(alloc, b"text.", name)?)?;
    push_from(alloc, imports, name_behind_word(alloc, b"tab.", name)?)
}

/// The memory, the table, and where the module's own data and slots begin.
fn own_imports(alloc: Global, name: &[u8]) -> Result<Items<Import>, AllocError>
    ensures { IfOk result (λ imports. imports ≡ own_imports name.now) }
{
    let mut imports = Items::new(alloc);
    let limits = AT_LEAST_ONE;
    let memory = ImportKind::Memory(MemoryType { limits });
    push_from_link(alloc, &mut imports, b"memory", memory)?;
    let table = ImportKind::Table(TableType { limits });
    push_from_link(alloc, &mut imports, b"table", table)?;
    push_own_globals(alloc, &mut imports, name)?;
    Ok(imports)
}

/// Where the data and the slots of another module begin.
fn push_globals(alloc: Global, imports: &mut Items<Import>, name: &[u8]) -> Result<(), AllocError>
    ensures { OnOk result
        (imports.new
        ≡ imports.old ++ from_link (base_name name.now) ∷ from_link (tab_name name.now)
        ∷ []) }
{
    imports.push(from_link(alloc, name_behind_word(alloc, b"base.", name)?)?)?;
    imports.push(from_link(alloc, name_behind_word(alloc, b"tab.", name)?)?)?;
    Ok(())
}

/// The same of the modules that are imported.
fn push_imported(
    alloc: Global,
    imports: &mut Items<Import>,
    imported: &[Imported],
) -> Result<(), AllocError>
    ensures { OnOk result
        (imports.new ≡ imports.old ++ imported_globals (map (λ i. i.name) imported.now)) }
{
    for module in imported {
        push_globals(alloc, imports, module.name.as_slice())?;
    }
    Ok(())
}

/// What a module imports.
pub fn imports_of(alloc: Global, module_body: &TypedModule) -> Result<Items<Import>, AllocError>
    ensures { IfOk result (λ found. found ≡ imports module_body.now) }
{
    let mut found = own_imports(alloc, module_body.name.as_bytes())?;
    push_imported(alloc, &mut found, module_body.imports.as_slice())?;
    found.push(from_host(alloc, b"put")?)?;
    found.push(from_host(alloc, b"stop")?)?;
    Ok(found)
}
