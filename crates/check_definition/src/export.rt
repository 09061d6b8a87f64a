//! What a definition exports, and the modules that it imports.

ghost use Rattle.std.specs.Prelude.{◌≡◌, IfOk, OnOk};
ghost use Rattle.std.specs.Option.{option_map};
ghost use Rattle.check_definition.specs.Steps.{if_some};
ghost use Rattle.check_definition.specs.Export.{with_meaning, with_export, exports, with_types, reached_of, with_imported, with_import_of, imported_modules};

use check_scope::{Known, Origin};
use m2_rule::Breach;
use m2_tree::{Ident, Import};
use std::alloc::{AllocError, Global};
use tree_parts::{Items, Shared};
use typed_tree::{Dictionary, Made, Meaning, ModuleTypes, Table, Types};

// ---- exports

fn with_meaning<E>(
    alloc: Global,
    exported: &mut Dictionary<Meaning>,
    name: &[u8],
    means: &Result<Meaning, E>,
) -> Result<(), AllocError>
    ensures { OnOk result (exported.new ≡ with_meaning exported.old name.now means.now) }
{
    match means {
        Err(_) => Ok(()),
        Ok(meaning) => exported.enter(alloc, name, meaning.copy()?),
    }
}

fn with_export_if(
    alloc: Global,
    exported: &mut Dictionary<Meaning>,
    entry: Option<(&[u8], &Known<Breach>)>,
) -> Result<(), AllocError>
    ensures { OnOk result (exported.new
        ≡ if_some with_export exported.old (option_map (λ e. (e.0.now, e.1.now)) entry.entry)) }
{
    match entry {
        None => Ok(()),
        Some((name, known)) => match known {
            Known::Later | Known::Ahead | Known::Begun => Ok(()),
            Known::Headed(means) => with_meaning(alloc, exported, name, means),
            Known::Declared(origin, means) => match origin {
                Origin::Here => with_meaning(alloc, exported, name, means),
                Origin::Module(_) => Ok(()),
                Origin::Export(_) => Ok(()),
            },
        },
    }
}

/// What is declared in a block, in order.
pub fn exports(
    alloc: Global,
    own: &Dictionary<Known<Breach>>,
) -> Result<Dictionary<Meaning>, AllocError>
    ensures { IfOk result (λ exported. exported ≡ exports own.now) }
{
    let mut exported = Dictionary::new(alloc);
    for place in 0..own.len() {
        with_export_if(alloc, &mut exported, own.get(place))?;
    }
    Ok(exported)
}

// ---- types that are met

fn with_types_if(
    reached: &mut Items<ModuleTypes>,
    entry: Option<(&u32, &Shared<Items<Made>>)>,
) -> Result<(), AllocError>
    ensures { OnOk result (reached.new
        ≡ if_some with_types reached.old (option_map (λ e. (e.0.now, e.1.now)) entry.entry)) }
{
    match entry {
        None => Ok(()),
        Some((number, made)) => reached.push(ModuleTypes {
            number: *number,
            made: made.share()?,
        }),
    }
}

/// The types of each module whose types can be met, each behind those that it names.
pub fn reached_of(alloc: Global, types: Types) -> Result<Items<ModuleTypes>, AllocError>
    ensures { IfOk result (λ reached. reached ≡ reached_of types) }
{
    let Types { home, own, others } = types;
    let mut reached = Items::new(alloc);
    for place in 0..others.len() {
        with_types_if(&mut reached, others.get(place))?;
    }
    if own.len() > 0 {
        reached.push(ModuleTypes {
            number: home,
            made: Shared::new(alloc, own)?,
        })?;
    }
    Ok(reached)
}

// ---- modules that are imported

fn with_imported(
    alloc: Global,
    imported: &mut Dictionary<u32>,
    modules: &Dictionary<usize>,
    tables: &Items<Shared<Table>>,
    name: &Ident,
) -> Result<(), AllocError>
    ensures { OnOk result
        (imported.new ≡ with_imported modules.now tables.now imported.old name.now) }
{
    match modules.find(name.name.as_bytes()) {
        None => Ok(()),
        Some(place) => match tables.get(*place) {
            None => Ok(()),
            Some(table) => imported.enter(alloc, name.name.as_bytes(), table.get().number),
        },
    }
}

/// Enters the modules that an import names, with their numbers.
pub fn with_import_of(
    alloc: Global,
    imported: &mut Dictionary<u32>,
    modules: &Dictionary<usize>,
    tables: &Items<Shared<Table>>,
    one: &Import,
) -> Result<(), AllocError>
    ensures { OnOk result
        (imported.new ≡ with_import_of modules.now tables.now imported.old one.now) }
{
    match &one.from {
        None => {
            for name in one.names.as_slice() {
                with_imported(alloc, imported, modules, tables, name)?;
            }
            Ok(())
        }
        Some(from) => with_imported(alloc, imported, modules, tables, from),
    }
}

/// The modules that are imported, in order, each once, with their numbers.
pub fn imported_modules(
    alloc: Global,
    modules: &Dictionary<usize>,
    tables: &Items<Shared<Table>>,
    imports: &[Import],
) -> Result<Dictionary<u32>, AllocError>
    ensures { IfOk result (λ imported.
        imported ≡ imported_modules modules.now tables.now imports.now) }
{
    let mut imported = Dictionary::new(alloc);
    for one in imports {
        with_import_of(alloc, &mut imported, modules, tables, one)?;
    }
    Ok(imported)
}
