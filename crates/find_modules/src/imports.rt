//! Which modules a text imports.

ghost use Rattle.std.specs.Prelude.{◌≡◌, ◌++◌, map, IfOk, OnOk};
ghost use Rattle.find_modules.specs.Imports.{AreTokens, named_by, names_of_imports, Imports, TokensImport};

use crate::folders::FindFault;
use m2_parse::{ParseError, parse};
use m2_tree::{Ident, Import, Module, Name, Token};
use scan_tokens::{ScanError, scan};
use std::alloc::{AllocError, Global};

/// Adds the names of modules.
fn add_each(names: &mut Vec<Name>, idents: &[Ident]) -> Result<(), AllocError>
    ensures { OnOk result (names.new.items ≡ names.old.items ++ map (λ i. i.name) idents.now) }
{
    for ident in idents {
        names.push(ident.name.clone()?)?;
    }
    Ok(())
}

/// Adds the modules that an import names: the one behind FROM, else each.
fn add_named(names: &mut Vec<Name>, import: &Import) -> Result<(), AllocError>
    ensures { OnOk result (names.new.items ≡ names.old.items ++ named_by import.now) }
{
    match &import.from {
        Some(ident) => {
            names.push(ident.name.clone()?)?;
            Ok(())
        }
        None => add_each(names, import.names.as_slice()),
    }
}

/// The modules that a tree imports, as they are written.
fn names_of_imports(alloc: Global, tree: &Module) -> Result<Vec<Name>, AllocError>
    ensures { IfOk result (λ names. names.items ≡ names_of_imports tree.now) }
{
    let mut names = Vec::new(alloc);
    let imports = tree.imports.as_slice();
    for import in imports {
        add_named(&mut names, import)?;
    }
    Ok(names)
}

/// The modules that tokens import, as they are written, and none if they have no tree.
fn imports_of_tokens(alloc: Global, tokens: &[Token]) -> Result<Vec<Name>, FindFault>
    ensures { IfOk result (λ names. TokensImport tokens.now names.items) }
{
    match parse(alloc, tokens) {
        Ok(tree) => Ok(names_of_imports(alloc, &tree)?),
        Err(ParseError::Refused(_)) => Ok(Vec::new(alloc)),
        Err(ParseError::NoMemory) => Err(FindFault::NoMemory),
    }
}

/// The modules that a text imports, as they are written. A text that has no tree imports none.
///
/// The only error is `NoMemory`.
pub fn imports_of(alloc: Global, text: &[u8]) -> Result<Vec<Name>, FindFault>
    ensures { IfOk result (λ names. Imports text.now names.items) }
{
    match scan(alloc, text) {
        Ok(tokens) => imports_of_tokens(alloc, &tokens),
        Err(ScanError::Refused(_)) => Ok(Vec::new(alloc)),
        Err(ScanError::NoMemory) => Err(FindFault::NoMemory),
    }
}
