//! Which modules a tree imports, or a text.
#![tactic(auto)]

ghost use Rattle.std.specs.Prelude.{◌≡◌, [], ◌∷◌, OnOk};
ghost use Rattle.std.specs.List.{list_any};
ghost use Rattle.m2_tree.specs.Names.{same_name};
ghost use Rattle.list_imports.specs.Listed.{names_of, import_names, imported_by, texts, told, with_new};

mod begins;

pub use begins::imports_by_begin;
use m2_tree::{Ident, Import, Module, Name, is_console};
use std::alloc::{AllocError, Global};

/// Whether a text stands among these.
fn stands_there(names: &[String], text: &[u8]) -> bool
    ensures { result ≡ list_any (same_name text.now) (texts names.now) }
{
    for name in names {
        if text == name.as_bytes() {
            return true;
        }
    }
    false
}

/// Adds the name of a module, unless it is built in or stands there already. The only error is that memory ran out.
pub fn add_name(alloc: Global, names: &mut Vec<String>, name: &Name) -> Result<(), AllocError>
    ensures { OnOk result
        (texts names.new.items ≡ with_new (texts names.old.items) (told (name.now ∷ []))) }
{
    let bytes = name.as_bytes();
    if is_console(bytes) {
        return Ok(());
    }
    let text = String::from_utf8_lossy(alloc, bytes)?;
    if !stands_there(names, text.as_bytes()) {
        names.push(text)?;
    }
    Ok(())
}

/// Adds the names of modules.
fn add_each(alloc: Global, names: &mut Vec<String>, idents: &[Ident]) -> Result<(), AllocError>
    ensures { OnOk result
        (texts names.new.items ≡ with_new (texts names.old.items) (told (names_of idents.now))) }
{
    for ident in idents {
        add_name(alloc, names, &ident.name)?;
    }
    Ok(())
}

/// Adds the modules that an import names: the one behind FROM, else each.
fn add_import(alloc: Global, names: &mut Vec<String>, import: &Import) -> Result<(), AllocError>
    ensures { OnOk result (texts names.new.items
        ≡ with_new (texts names.old.items) (told (import_names import.now))) }
{
    match &import.from {
        Some(ident) => add_name(alloc, names, &ident.name),
        None => add_each(alloc, names, import.names.as_slice()),
    }
}

/// Adds the modules that a tree imports to names, in the order in which it names them: each once, without Console. The only
/// error is that memory ran out.
pub fn add_imports(alloc: Global, names: &mut Vec<String>, tree: &Module) -> Result<(), AllocError>
    ensures { OnOk result
        (texts names.new.items ≡ with_new (texts names.old.items) (told (imported_by tree.now))) }
{
    for import in tree.imports.as_slice() {
        add_import(alloc, names, import)?;
    }
    Ok(())
}
