//! What is kept of a program that was built.

use crate::heads::imports_in;
use crate::kept::{Definition, Kept};
use crate::linked::{Linked, linked_by};
use crate::names::{defined_by, files_by_name};
use crate::sums::{definition_sum, short_sum};
use build_jobs::SourceFile;
use indexmap::IndexMap;
use link_parts::{LinkFault, Part, link_modules};
use list_imports::{add_name, imports_by_begin};
use std::alloc::{AllocError, Global};

/// The modules that a text imports, each once.
fn imports_of(alloc: Global, text: &[u8]) -> Result<Vec<String>, AllocError> {
    let mut imports = Vec::new(alloc);
    for name in &imports_by_begin(alloc, text)? {
        add_name(alloc, &mut imports, name)?;
    }
    Ok(imports)
}

/// What is kept of the definition with this text, which is that of the module of this name.
fn definition_of(alloc: Global, name: &str, text: &[u8]) -> Result<Definition, AllocError> {
    Ok(Definition {
        name: String::from_str(alloc, name)?,
        text: short_sum(alloc, text)?,
        tokens: definition_sum(alloc, text)?,
        imports: imports_of(alloc, text)?,
    })
}

/// What is kept of the definitions among these files.
fn definitions_of(alloc: Global, files: &[SourceFile]) -> Result<Vec<Definition>, AllocError> {
    let mut all = Vec::new(alloc);
    for file in files.iter().skip(1) {
        if let Some(name) = defined_by(file.name.as_str()) {
            all.push(definition_of(alloc, name, &file.bytes)?)?;
        }
    }
    Ok(all)
}

/// What is kept of a body with this text and this code.
fn part_of(
    alloc: Global,
    text: &[u8],
    linked: &Linked,
    code: &[u8],
    is_program: bool,
) -> Result<Option<Part>, AllocError> {
    let Some(imports) = imports_in(alloc, code, linked.name.as_str())? else {
        return Ok(None);
    };
    Ok(Some(Part {
        name: String::from_str(alloc, linked.name.as_str())?,
        is_program,
        sizes: linked.sizes,
        text: short_sum(alloc, text)?,
        code: short_sum(alloc, code)?,
        imports,
        interfaces: Vec::new(alloc),
    }))
}

/// Adds the body of an implementation.
fn add_body(
    alloc: Global,
    files: &[SourceFile],
    places: &IndexMap<&[u8], usize>,
    linked: &Linked,
    code: &[u8],
    bodies: &mut Vec<Part>,
) -> Result<(), AllocError> {
    let place = places.get(linked.name.as_bytes()).copied();
    if let Some(file) = place.and_then(|it| files.get(it)) {
        if let Some(part) = part_of(alloc, &file.bytes, linked, code, false)? {
            bodies.push(part)?;
        }
    }
    Ok(())
}

/// The body of the program, which starts last.
fn program_of(
    alloc: Global,
    files: &[SourceFile],
    linked: &[Linked],
    modules: &[(String, Vec<u8>)],
) -> Result<Option<Part>, AllocError> {
    match (files.first(), linked.last(), modules.last()) {
        (Some(file), Some(last), Some(module)) => {
            part_of(alloc, &file.bytes, last, &module.1, true)
        }
        _ => Ok(None),
    }
}

/// What is kept of the bodies: the program's, and behind it those that start before it.
fn bodies_of(
    alloc: Global,
    files: &[SourceFile],
    linked: &[Linked],
    modules: &[(String, Vec<u8>)],
) -> Result<Vec<Part>, AllocError> {
    let mut bodies = Vec::new(alloc);
    if let Some(program) = program_of(alloc, files, linked, modules)? {
        bodies.push(program)?;
    }
    let places = files_by_name(alloc, files, false)?;
    for (it, module) in linked.iter().zip(modules) {
        if bodies.len() < modules.len() {
            add_body(alloc, files, &places, it, &module.1, &mut bodies)?;
        }
    }
    Ok(bodies)
}

/// What is kept if it links to these bytes.
fn if_links(
    alloc: Global,
    kept: Kept,
    link: &[u8],
    pages: u32,
) -> Result<Option<Kept>, AllocError> {
    match link_modules(alloc, &kept.bodies, pages) {
        Ok(made) => {
            if made.as_slice() == link {
                Ok(Some(kept))
            } else {
                Ok(None)
            }
        }
        Err(LinkFault::NoMemory) => Err(AllocError),
        Err(_) => Ok(None),
    }
}

/// What is kept of the program of these files, which all have trees and were built to these modules in the order in which they start, and to link with so
/// many pages. The sizes are read off link, and the imports off the modules. None if the files are not just the definitions and bodies
/// of these modules, or if what was read does not link to these bytes. The only error is that memory ran out.
pub fn keep(
    alloc: Global,
    files: &[SourceFile],
    link: &[u8],
    modules: &[(String, Vec<u8>)],
    pages: u32,
) -> Result<Option<Kept>, AllocError> {
    let Some(linked) = linked_by(alloc, link)? else {
        return Ok(None);
    };
    let kept = Kept {
        definitions: definitions_of(alloc, files)?,
        bodies: bodies_of(alloc, files, &linked, modules)?,
    };
    let is_whole = kept.bodies.len() == modules.len()
        && kept.definitions.len().saturating_add(kept.bodies.len()) == files.len();
    if is_whole {
        if_links(alloc, kept, link, pages)
    } else {
        Ok(None)
    }
}
