//! The modules of a program: first the names of all definitions, then what stands in these, then the bodies.

use crate::blocks::{block, defs};
use crate::imports::imports;
use crate::parsed::is_definition;
use m2_tree::{Block, Contents, Def, Ident, Module};
use serve_scopes::{Kind, Range, Role};
use serve_walks::{Walk, defs_names, facts_of};
use std::alloc::AllocError;

/// Begins a file.
fn begin_file(walk: &mut Walk, file: usize, tree: &Module) {
    walk.is_definition = is_definition(tree);
    walk.file = file;
    walk.around.clear();
    walk.module = None;
    walk.parent = None;
}

/// Goes on in the module of this declaration.
fn begin_module(walk: &mut Walk, number: usize) {
    walk.module = Some(number);
    walk.parent = Some(number);
}

/// Declares a module under its name.
fn declare_module(walk: &mut Walk, name: &Ident) -> Result<usize, AllocError> {
    let range = walk.marks().module_of(name);
    let end = walk.marks().tail_of(name).end;
    let tail = Range { begin: end, end };
    let facts = facts_of(walk, Kind::Module, range, tail);
    walk.program.declare(walk.file, name, facts)
}

/// Notes the closing name of a module.
fn close_module(walk: &mut Walk, name: &Ident, number: usize) -> Result<(), AllocError> {
    let place = walk.marks().closing_of(walk.file, name);
    walk.program.add_use(place, number, Role::Closing)
}

/// Enters a module that has a definition. Of several with one name only the first can be imported.
fn enter_module(walk: &mut Walk, name: &Ident, number: usize) -> Result<(), AllocError> {
    let bytes = name.name.as_bytes();
    if walk.program.modules.get(bytes).is_none() {
        let key = Vec::from_slice(walk.alloc, bytes)?;
        walk.program.modules.insert(key, number)?;
    }
    Ok(())
}

/// Declares a definition and all that it exports. The number of the module.
fn declare_definition(
    walk: &mut Walk,
    name: &Ident,
    exported: &[Def],
) -> Result<usize, AllocError> {
    let number = declare_module(walk, name)?;
    close_module(walk, name, number)?;
    enter_module(walk, name, number)?;
    let scope = walk.program.new_scope()?;
    if let Some(it) = walk.program.declarations.get_mut(number) {
        it.scope = Some(scope);
    }
    begin_module(walk, number);
    walk.around.push(scope)?;
    defs_names(walk, exported)?;
    Ok(number)
}

/// The number of the module of a file that is a definition, whose names it declares.
fn definition_names(
    walk: &mut Walk,
    file: usize,
    tree: &Module,
) -> Result<Option<usize>, AllocError> {
    match &tree.contents {
        Contents::Definition(exported) => {
            begin_file(walk, file, tree);
            let name = &tree.name;
            Ok(Some(declare_definition(walk, name, exported.as_slice())?))
        }
        Contents::Implementation(_) | Contents::Program(_) => Ok(None),
    }
}

/// Begins the scope of what a module imports, and that of what its definition exports, if it has one.
fn open_module(walk: &mut Walk, number: usize, tree: &Module) -> Result<(), AllocError> {
    begin_module(walk, number);
    let whole = walk.marks().whole();
    let imported = walk.program.new_scope()?;
    imports(walk, imported, tree.imports.as_slice())?;
    walk.open(imported, whole)?;
    match walk.program.declaration(number).and_then(|it| it.scope) {
        Some(exported) => walk.open(exported, whole),
        None => Ok(()),
    }
}

/// What stands in a file that is the definition of this module.
fn definition_contents(
    walk: &mut Walk,
    file: usize,
    tree: &Module,
    number: usize,
) -> Result<(), AllocError> {
    if let Contents::Definition(exported) = &tree.contents {
        begin_file(walk, file, tree);
        open_module(walk, number, tree)?;
        defs(walk, exported.as_slice())?;
    }
    Ok(())
}

/// The module of a definition that has no implementation yet.
fn defined_before(walk: &Walk, name: &Ident) -> Option<usize> {
    let number = *walk.program.modules.get(name.name.as_bytes())?;
    let it = walk.program.declaration(number)?;
    if it.implementation.is_none() {
        Some(number)
    } else {
        None
    }
}

/// The number of the module of an implementation.
fn implemented(walk: &mut Walk, name: &Ident) -> Result<usize, AllocError> {
    match defined_before(walk, name) {
        Some(number) => {
            let place = walk.place(name);
            let range = walk.marks().module_of(name);
            walk.program.implement(number, place, range)?;
            Ok(number)
        }
        None => declare_module(walk, name),
    }
}

/// What stands in the body of this module.
fn body_contents(
    walk: &mut Walk,
    number: usize,
    tree: &Module,
    inner: &Block,
) -> Result<(), AllocError> {
    close_module(walk, &tree.name, number)?;
    open_module(walk, number, tree)?;
    let own = walk.program.new_scope()?;
    let whole = walk.marks().whole();
    walk.open(own, whole)?;
    block(walk, inner)
}

/// What stands in a file that is a program or an implementation.
fn body(walk: &mut Walk, file: usize, tree: &Module) -> Result<(), AllocError> {
    match &tree.contents {
        Contents::Definition(_) => Ok(()),
        Contents::Implementation(inner) => {
            begin_file(walk, file, tree);
            let number = implemented(walk, &tree.name)?;
            body_contents(walk, number, tree, inner)
        }
        Contents::Program(inner) => {
            begin_file(walk, file, tree);
            let number = declare_module(walk, &tree.name)?;
            body_contents(walk, number, tree, inner)
        }
    }
}

/// Declares what the definitions among the files export. For each file the number of its module, if it is a definition.
pub fn all_names(
    walk: &mut Walk,
    files: &[Option<&Module>],
) -> Result<Vec<Option<usize>>, AllocError> {
    let mut numbers = Vec::new(walk.alloc);
    for (file, tree) in files.iter().enumerate() {
        let number = match tree {
            Some(tree) => definition_names(walk, file, tree)?,
            None => None,
        };
        numbers.push(number)?;
    }
    Ok(numbers)
}

/// What stands in the definitions among the files, whose modules have these numbers.
pub fn all_definitions(
    walk: &mut Walk,
    files: &[Option<&Module>],
    numbers: &[Option<usize>],
) -> Result<(), AllocError> {
    for (file, tree) in files.iter().enumerate() {
        let number = numbers.get(file).and_then(|it| *it);
        if let (Some(tree), Some(number)) = (tree, number) {
            definition_contents(walk, file, tree, number)?;
        }
    }
    Ok(())
}

/// What stands in the programs and implementations among the files.
pub fn all_bodies(walk: &mut Walk, files: &[Option<&Module>]) -> Result<(), AllocError> {
    for (file, tree) in files.iter().enumerate() {
        if let Some(tree) = tree {
            body(walk, file, tree)?;
        }
    }
    Ok(())
}
