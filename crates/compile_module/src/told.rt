//! What is told of a module that was built.

ghost use Rattle.std.specs.Prelude.{◌≡◌, ◌++◌, [], IfOk, OnOk, map};
ghost use Rattle.std.specs.List.{flat_map};
ghost use Rattle.m2_graph.specs.Imports.{is_definition, defines};
ghost use Rattle.build_jobs.specs.Borrowed.{modules_borrowed};
ghost use Rattle.list_imports.specs.Listed.{texts, told, once, with_new};
ghost use Rattle.compile_module.specs.Told.{first_is_program, definition_imports, imports_of, interface_in, interfaces_of, interface_told};

use crate::made::Interface;
use list_imports::add_imports;
use m2_tree::{Contents, Module, Name};
use std::alloc::{AllocError, Global};

/// Whether this is a definition.
fn is_definition(tree: &Module) -> bool
    ensures { result ≡ is_definition tree.now }
{
    matches!(&tree.contents, Contents::Definition(_))
}

/// Whether this is the definition of the module of this name.
fn defines(name: &Name, tree: &Module) -> bool
    ensures { result ≡ defines name.now tree.now }
{
    is_definition(tree) && *name == tree.name.name
}

/// Whether the first of these modules is a program.
pub fn is_program(trees: &[(&str, &Module)]) -> bool
    ensures { result ≡ first_is_program (modules_borrowed trees.now) }
{
    match trees {
        [] => false,
        [first, ..] => matches!(&first.1.contents, Contents::Program(_)),
    }
}

/// Adds the modules that a definition imports, if it is that of the module of this name.
fn add_definition(
    alloc: Global,
    name: &Name,
    tree: &Module,
    imports: &mut Vec<String>,
) -> Result<(), AllocError>
    ensures { OnOk result
        (texts imports.new.items
        ≡ with_new (texts imports.old.items) (told (definition_imports name.now tree.now))) }
{
    if defines(name, tree) {
        add_imports(alloc, imports, tree)?;
    }
    Ok(())
}

/// The modules that the definition of the module of this name imports, if it is among these.
fn definition_imports(
    alloc: Global,
    name: &Name,
    trees: &[(&str, &Module)],
) -> Result<Vec<String>, AllocError>
    ensures { IfOk result (λ imports.
        texts imports.items
        ≡ with_new []
        (told (flat_map (definition_imports name.now) (modules_borrowed trees.now)))) }
{
    let mut imports = Vec::new(alloc);
    for tree in trees {
        add_definition(alloc, name, tree.1, &mut imports)?;
    }
    Ok(imports)
}

/// The modules that the definition of the first of these imports, if it is among the others, and then those that the first imports
/// itself: each once, without Console.
pub fn imports_of(alloc: Global, trees: &[(&str, &Module)]) -> Result<Vec<String>, AllocError>
    ensures { IfOk result (λ imports.
        texts imports.items ≡ once (told (imports_of (modules_borrowed trees.now)))) }
{
    match trees {
        [] => Ok(Vec::new(alloc)),
        [first, others @ ..] => {
            let mut imports = definition_imports(alloc, &first.1.name.name, others)?;
            add_imports(alloc, &mut imports, first.1)?;
            Ok(imports)
        }
    }
}

/// Adds a module whose file has this place, if it is a definition.
fn add_interface(
    alloc: Global,
    file: usize,
    tree: &Module,
    interfaces: &mut Vec<Interface>,
) -> Result<(), AllocError>
    ensures { OnOk result
        (map interface_told interfaces.new.items
        ≡ map interface_told interfaces.old.items ++ interface_in (file, tree.now)) }
{
    if is_definition(tree) {
        let name = String::from_utf8_lossy(alloc, tree.name.name.as_bytes())?;
        interfaces.push(Interface { name, file })?;
    }
    Ok(())
}

/// The definitions among these modules but the first, in order.
pub fn interfaces_of(alloc: Global, trees: &[(&str, &Module)]) -> Result<Vec<Interface>, AllocError>
    ensures { IfOk result (λ interfaces.
        map interface_told interfaces.items ≡ interfaces_of (modules_borrowed trees.now)) }
{
    let mut interfaces = Vec::new(alloc);
    for file in 1..trees.len() {
        add_interface(alloc, file, trees[file].1, &mut interfaces)?;
    }
    Ok(interfaces)
}
