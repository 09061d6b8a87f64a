//! What modules import.

ghost use Rattle.std.specs.Prelude.{◌≡◌, ◌<◌, ◌++◌, length, map, IfOk, OnOk, IfSome, Some, None};
ghost use Rattle.std.specs.List.{All, filter_map};
ghost use Rattle.std.specs.Option.{option_to_list};
ghost use Rattle.graph_walk.specs.Links.{AreNodes};
ghost use Rattle.m2_graph.specs.Imports.{named_by, imports_of, is_definition, is_program, is_implementation, first_that, definition_of, links_of, links};
ghost use Rattle.m2_graph.specs.Program.{modules_of, IsIndexed};

use crate::program::{Program, definition_of};
use m2_tree::{Contents, Ident, Import, Module, Name};
use std::alloc::{AllocError, Global};
use tree_parts::Items;

/// Whether it is a definition module.
pub fn is_definition(tree: &Module) -> bool
    ensures { result ≡ is_definition tree.now }
{
    match tree.contents {
        Contents::Definition(_) => true,
        Contents::Implementation(_) => false,
        Contents::Program(_) => false,
    }
}

/// Whether it is a program module.
pub fn is_program(tree: &Module) -> bool
    ensures { result ≡ is_program tree.now }
{
    match tree.contents {
        Contents::Definition(_) => false,
        Contents::Implementation(_) => false,
        Contents::Program(_) => true,
    }
}

/// Whether it is an implementation module.
pub fn is_implementation(tree: &Module) -> bool
    ensures { result ≡ is_implementation tree.now }
{
    !is_definition(tree) && !is_program(tree)
}

/// The first program module.
pub fn program_of(modules: &[&Module]) -> Option<usize>
    ensures { result ≡ first_that is_program (map (λ m. m.now) modules.now) }
{
    for (number, module) in modules.iter().enumerate() {
        if is_program(module) {
            return Some(number);
        }
    }
    None
}

/// Adds the definition that a name means, if it has one.
pub fn add_link(
    program: &Program<'_>,
    name: &Name,
    targets: &mut Items<usize>,
) -> Result<(), AllocError>
    requires { IsIndexed program.now }
    ensures { OnOk result
        (targets.new
        ≡ targets.old ++ option_to_list (definition_of (modules_of program.now) name.now)) }
{
    if let Some(number) = definition_of(program, name) {
        targets.push(number)?;
    }
    Ok(())
}

/// Adds the definitions that these names mean.
fn add_links(
    program: &Program<'_>,
    names: &[Ident],
    targets: &mut Items<usize>,
) -> Result<(), AllocError>
    requires { IsIndexed program.now }
    ensures { OnOk result
        (targets.new ≡ targets.old
        ++ filter_map (λ i. definition_of (modules_of program.now) i.name) names.now) }
{
    for ident in names {
        add_link(program, &ident.name, targets)?;
    }
    Ok(())
}

/// Adds the definitions that an import names.
fn add_import(
    program: &Program<'_>,
    import: &Import,
    targets: &mut Items<usize>,
) -> Result<(), AllocError>
    requires { IsIndexed program.now }
    ensures { OnOk result
        (targets.new ≡ targets.old
        ++ filter_map (λ i. definition_of (modules_of program.now) i.name)
        (named_by import.now.from import.now.names)) }
{
    match &import.from {
        Some(from) => add_link(program, &from.name, targets),
        None => add_links(program, import.names.as_slice(), targets),
    }
}

/// Adds the definitions that a module imports, in the order in which it imports them.
pub fn add_imports(
    program: &Program<'_>,
    tree: &Module,
    targets: &mut Items<usize>,
) -> Result<(), AllocError>
    requires { IsIndexed program.now }
    ensures { OnOk result
        (targets.new ≡ targets.old ++ links_of (modules_of program.now) tree.now) }
{
    let imports = tree.imports.as_slice();
    for import in imports {
        add_import(program, import, targets)?;
    }
    Ok(())
}

/// The definitions that a module imports, in the order in which it imports them.
fn links_of(alloc: Global, program: &Program<'_>, tree: &Module) -> Result<Items<usize>, AllocError>
    requires { IsIndexed program.now }
    ensures { IfOk result (λ targets. targets ≡ links_of (modules_of program.now) tree.now) }
{
    let mut targets = Items::new(alloc);
    add_imports(program, tree, &mut targets)?;
    Ok(targets)
}

/// For each module the numbers of the definitions that it imports, in the order in which it imports them. A name
/// without definition, as the name of a built in module, gives none; if there are several definitions of a name, the
/// first stands for all.
pub fn links(alloc: Global, program: &Program<'_>) -> Result<Vec<Items<usize>>, AllocError>
    requires { IsIndexed program.now }
    ensures value { IfOk result (λ all. all.items ≡ links (modules_of program.now)) }
    ensures nodes { IfOk result (λ all. AreNodes all.items) }
    ensures len { IfOk result (λ all. length all.items ≡ length (modules_of program.now)) }
{
    let mut all = Vec::new(alloc);
    let modules = program.modules;
    for module in modules {
        all.push(links_of(alloc, program, module)?)?;
    }
    Ok(all)
}
