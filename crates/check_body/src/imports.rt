//! The modules that a body stands on.

ghost use Rattle.std.specs.Prelude.{◌≡◌, [], IfOk, OnOk};
ghost use Rattle.std.specs.List.{fold};
ghost use Rattle.std.specs.Option.{option_map, option_copied};
ghost use Rattle.check_definition.specs.Steps.{if_some};
ghost use Rattle.check_definition.specs.Export.{with_import_of};
ghost use Rattle.check_body.specs.Imports.{with_import_copy, all_imports, with_table_of, with_name_of, with_place_of, with_module_of, typed_imports};

use crate::own::exported_variables;
use check_definition::with_import_of;
use m2_tree::{Import, is_console};
use std::alloc::{AllocError, Global};
use tree_parts::{Items, Shared};
use typed_tree::{Dictionary, Imported, Table};

// ---- names

fn with_import_copy_if(
    alloc: Global,
    imports: &mut Dictionary<u32>,
    entry: Option<(&[u8], &u32)>,
) -> Result<(), AllocError>
    ensures { OnOk result (imports.new
        ≡ if_some with_import_copy imports.old (option_map (λ e. (e.0.now, e.1.now)) entry.entry)) }
{
    match entry {
        None => Ok(()),
        Some((name, number)) => imports.enter(alloc, name, *number),
    }
}

fn imports_copy(alloc: Global, list: &Dictionary<u32>) -> Result<Dictionary<u32>, AllocError>
    ensures { IfOk result (λ imports. imports ≡ fold with_import_copy [] list.now) }
{
    let mut imports = Dictionary::new(alloc);
    for place in 0..list.len() {
        with_import_copy_if(alloc, &mut imports, list.get(place))?;
    }
    Ok(imports)
}

/// The names of the modules that the definition imports, if there is one, and then of those that the body imports, each
/// once, with their numbers. The only error is that memory ran out.
pub fn all_imports(
    alloc: Global,
    modules: &Dictionary<usize>,
    tables: &Items<Shared<Table>>,
    own: Option<&Table>,
    list: &[Import],
) -> Result<Dictionary<u32>, AllocError>
    ensures { IfOk result (λ imports.
        imports ≡ all_imports modules.now tables.now (option_copied own.entry) list.now) }
{
    let mut imports = match own {
        None => Dictionary::new(alloc),
        Some(own) => imports_copy(alloc, &own.imports)?,
    };
    for one in list {
        with_import_of(alloc, &mut imports, modules, tables, one)?;
    }
    Ok(imports)
}

// ---- their variables

fn with_table_of(
    alloc: Global,
    imports: &mut Items<Imported>,
    table: Option<&Shared<Table>>,
) -> Result<(), AllocError>
    ensures { OnOk result (imports.new ≡ with_table_of imports.old (option_copied table.entry)) }
{
    match table {
        None => Ok(()),
        Some(table) => {
            let table = table.get();
            if is_console(table.name.as_bytes()) {
                return Ok(());
            }
            imports.push(Imported {
                name: Items::from_slice(alloc, table.name.as_bytes())?,
                number: table.number,
                variables: exported_variables(alloc, &table.exported)?,
            })
        }
    }
}

fn with_name_of(
    alloc: Global,
    imports: &mut Items<Imported>,
    name: &[u8],
    number: u32,
) -> Result<(), AllocError>
    ensures { OnOk result (imports.new ≡ with_name_of imports.old (name.now, number)) }
{
    if is_console(name) {
        return Ok(());
    }
    imports.push(Imported {
        name: Items::from_slice(alloc, name)?,
        number,
        variables: Items::new(alloc),
    })
}

fn with_module_if(
    alloc: Global,
    imports: &mut Items<Imported>,
    modules: &Dictionary<usize>,
    tables: &Items<Shared<Table>>,
    entry: Option<(&[u8], &u32)>,
) -> Result<(), AllocError>
    ensures { OnOk result (imports.new
        ≡ if_some (with_module_of modules.now tables.now) imports.old
        (option_map (λ e. (e.0.now, e.1.now)) entry.entry)) }
{
    match entry {
        None => Ok(()),
        Some((name, number)) => match modules.find(name) {
            None => with_name_of(alloc, imports, name, *number),
            Some(place) => with_table_of(alloc, imports, tables.get(*place)),
        },
    }
}

/// The modules of these names with the variables that they export, without Console.
pub fn typed_imports(
    alloc: Global,
    modules: &Dictionary<usize>,
    tables: &Items<Shared<Table>>,
    names: &Dictionary<u32>,
) -> Result<Items<Imported>, AllocError>
    ensures { IfOk result (λ imports. imports ≡ typed_imports modules.now tables.now names.now) }
{
    let mut imports = Items::new(alloc);
    for place in 0..names.len() {
        with_module_if(alloc, &mut imports, modules, tables, names.get(place))?;
    }
    Ok(imports)
}
