//! The names of variables and constants, which typed trees do not have.

use build_jobs::SourceFile;
use m2_tree::Pos;
use serve_names::{Declaration, Index, Kind, Parsed, read};
use std::alloc::{AllocError, Global};

/// The trees of files, as far as they have one.
fn parsed_files(alloc: Global, files: &[SourceFile]) -> Result<Vec<Option<Parsed>>, AllocError> {
    let mut all = Vec::new(alloc);
    for file in files {
        all.push(read(alloc, &file.bytes)?)?;
    }
    Ok(all)
}

/// What every name of a program stands for.
pub fn index_of(alloc: Global, files: &[SourceFile]) -> Result<Index, AllocError> {
    let parsed = parsed_files(alloc, files)?;
    let mut all = Vec::new(alloc);
    for file in &parsed {
        all.push(file.as_ref())?;
    }
    Index::of(alloc, &all)
}

/// The number of the declaration of the module of this name.
pub fn module_number(index: &Index, name: &[u8]) -> Option<usize> {
    index
        .declarations()
        .iter()
        .position(|it| it.kind == Kind::Module && it.name.as_slice() == name)
}

/// Whether a procedure has its name here, in the heading of its body.
fn is_procedure_at(it: &Declaration, file: usize, pos: Pos) -> bool {
    let is_here = it.place.is_at(file, pos);
    let is_there = it
        .implementation
        .is_some_and(|place| place.is_at(file, pos));
    it.kind == Kind::Procedure && (is_here || is_there)
}

/// The number of the declaration of the procedure whose name stands at a place.
pub fn procedure_number(index: &Index, file: usize, pos: Pos) -> Option<usize> {
    index
        .declarations()
        .iter()
        .position(|it| is_procedure_at(it, file, pos))
}

/// Adds the names of this kind that are declared in a declaration, of a procedure those in the file of its body.
pub fn add_names(
    alloc: Global,
    index: &Index,
    parent: usize,
    file: Option<usize>,
    kind: Kind,
    names: &mut Vec<Vec<u8>>,
) -> Result<(), AllocError> {
    for it in index.declarations() {
        let is_in_file = file.is_none_or(|file| it.place.file == file);
        if it.kind == kind && it.parent == Some(parent) && is_in_file {
            names.push(Vec::from_slice(alloc, &it.name)?)?;
        }
    }
    Ok(())
}

/// The constants of all enumerations of a module.
pub fn constants_of(
    alloc: Global,
    index: &Index,
    module: usize,
) -> Result<Vec<Vec<u8>>, AllocError> {
    let mut names = Vec::new(alloc);
    for it in index.declarations() {
        if it.kind == Kind::EnumerationConstant && it.module == module {
            names.push(Vec::from_slice(alloc, &it.name)?)?;
        }
    }
    Ok(names)
}
