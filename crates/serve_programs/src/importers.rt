//! Where a refused definition is imported.

use crate::heads::{Head, head_of};
use crate::program::{Program, file_of};
use crate::refused::{Severity, Shown};
use m2_tree::{Ident, Import};
use m2c::SourceFile;
use serve_names::read;
use std::alloc::{AllocError, Global};

/// What is said of an import.
const WORDS: &str = "the definition of this module is refused";

/// A definition that is refused: its module, and the rule that it breaks.
#[derive(Drop)]
struct Broken {
    module: String,
    number: u32,
}

/// The definitions that are refused.
fn broken_of(
    alloc: Global,
    files: &[SourceFile],
    shown: &[Shown],
) -> Result<Vec<Broken>, AllocError> {
    let mut all = Vec::new(alloc);
    for one in shown {
        if let Some(file) = file_of(files, one.path.as_str()) {
            if let Head::Definition(module) = head_of(alloc, &file.bytes)? {
                all.push(Broken {
                    module,
                    number: one.number,
                })?;
            }
        }
    }
    Ok(all)
}

/// Adds what is said of the name of a module in an import, if its definition is refused.
fn add_name(
    alloc: Global,
    path: &str,
    name: &Ident,
    broken: &[Broken],
    all: &mut Vec<Shown>,
) -> Result<(), AllocError> {
    let bytes = name.name.as_bytes();
    for one in broken {
        if one.module.as_bytes() == bytes {
            let path = String::from_str(alloc, path)?;
            let words = String::from_str(alloc, WORDS)?;
            all.push(Shown {
                path,
                pos: name.pos,
                length: bytes.len(),
                number: one.number,
                severity: Severity::Information,
                words,
            })?;
        }
    }
    Ok(())
}

/// Adds what is said of the modules that an import names.
fn add_import(
    alloc: Global,
    path: &str,
    import: &Import,
    broken: &[Broken],
    all: &mut Vec<Shown>,
) -> Result<(), AllocError> {
    if let Some(name) = &import.from {
        return add_name(alloc, path, name, broken, all);
    }
    for name in import.names.as_slice() {
        add_name(alloc, path, name, broken, all)?;
    }
    Ok(())
}

/// Adds what is said of the imports of a file that has a tree.
fn add_file(
    alloc: Global,
    file: &SourceFile,
    broken: &[Broken],
    all: &mut Vec<Shown>,
) -> Result<(), AllocError> {
    let Some(parsed) = read(alloc, &file.bytes)? else {
        return Ok(());
    };
    for import in parsed.tree.imports.as_slice() {
        add_import(alloc, file.name.as_str(), import, broken, all)?;
    }
    Ok(())
}

/// Adds to what is shown of a program that a definition is refused, wherever it is imported.
pub fn add_importers(
    alloc: Global,
    program: &Program,
    shown: &mut Vec<Shown>,
) -> Result<(), AllocError> {
    let broken = broken_of(alloc, &program.files, shown)?;
    if broken.is_empty() {
        return Ok(());
    }
    for (at, file) in program.files.iter().enumerate() {
        if at > 0 || !program.is_made {
            add_file(alloc, file, &broken, shown)?;
        }
    }
    Ok(())
}
