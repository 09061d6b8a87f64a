//! What the file M.wasm of a module says of its imports.

use crate::linked::name_behind_base;
use std::alloc::{AllocError, Global};
use wasm_binary::read_module;
use wasm_code::{byte_at, unsigned_at};
use wasm_tree::{WFault, WModule};

/// How many bytes stand in front of the sections.
const HEADER: usize = 8;

/// What stands behind the section with which bytes begin.
fn behind_section(bytes: &[u8]) -> Result<&[u8], WFault> {
    let (_, rest) = byte_at(bytes)?;
    let (size, rest) = unsigned_at(rest)?;
    Ok(rest.get(size as usize..).unwrap_or(&[]))
}

/// The begin of a module, up to its imports: the sections of its types and of its imports come first.
fn head_of(code: &[u8]) -> Result<&[u8], WFault> {
    let sections = code.get(HEADER..).unwrap_or(&[]);
    let rest = behind_section(behind_section(sections)?)?;
    let end = code.len().saturating_sub(rest.len());
    Ok(code.get(..end).unwrap_or(code))
}

/// The tree of the begin of a module.
fn tree_of(alloc: Global, code: &[u8]) -> Result<WModule, WFault> {
    read_module(alloc, head_of(code)?)
}

/// The modules whose variables a module imports, without itself.
fn names_in(alloc: Global, tree: &WModule, own: &str) -> Result<Vec<String>, AllocError> {
    let mut names = Vec::new(alloc);
    for import in tree.imports.as_slice() {
        if let Some(name) = name_behind_base(import.name.as_slice()) {
            if name != own.as_bytes() {
                names.push(String::from_utf8_lossy(alloc, name)?)?;
            }
        }
    }
    Ok(names)
}

/// The modules that the module of this name and this code imports: those of its definition and then of its body, in order, each once,
/// without Console. None of bytes that are no module.
pub fn imports_in(
    alloc: Global,
    code: &[u8],
    own: &str,
) -> Result<Option<Vec<String>>, AllocError> {
    match tree_of(alloc, code) {
        Ok(tree) => Ok(Some(names_in(alloc, &tree, own)?)),
        Err(WFault::NoMemory) => Err(AllocError),
        Err(_) => Ok(None),
    }
}
