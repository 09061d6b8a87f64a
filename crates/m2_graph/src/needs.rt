//! What jobs need, and what the walk goes through.

ghost use Rattle.std.specs.Prelude.{◌≡◌, ◌++◌, map, IfOk, OnOk};
ghost use Rattle.m2_graph.specs.Imports.{own_definition, needs_of, body_links, walk_of, walks};
ghost use Rattle.graph_walk.specs.Links.{AreNodes};
ghost use Rattle.m2_graph.specs.Program.{modules_of, IsIndexed};

use crate::imports::{add_imports, add_link, is_definition};
use crate::program::{Program, implementation_of};
use m2_tree::Module;
use std::alloc::{AllocError, Global};
use tree_parts::Items;

fn add_own(program: &Program<'_>, tree: &Module, needs: &mut Items<usize>) -> Result<(), AllocError>
    requires { IsIndexed program.now }
    ensures { OnOk result
        (needs.new ≡ needs.old ++ own_definition (modules_of program.now) tree.now) }
{
    if is_definition(tree) {
        return Ok(());
    }
    add_link(program, &tree.name.name, needs)
}

/// The definitions that the job of a module needs: those that it imports, and before them its own if it is a body.
pub fn needs_of(
    alloc: Global,
    program: &Program<'_>,
    tree: &Module,
) -> Result<Items<usize>, AllocError>
    requires { IsIndexed program.now }
    ensures { IfOk result (λ needs. needs ≡ needs_of (modules_of program.now) tree.now) }
{
    let mut needs = Items::new(alloc);
    add_own(program, tree, &mut needs)?;
    add_imports(program, tree, &mut needs)?;
    Ok(needs)
}

fn add_body(
    program: &Program<'_>,
    tree: &Module,
    walked: &mut Items<usize>,
) -> Result<(), AllocError>
    requires { IsIndexed program.now }
    ensures { OnOk result
        (walked.new ≡ walked.old ++ body_links (modules_of program.now) tree.now) }
{
    if !is_definition(tree) {
        return Ok(());
    }
    match implementation_of(program, &tree.name.name) {
        None => Ok(()),
        Some(number) => add_imports(program, program.modules[number], walked),
    }
}

/// The definitions that a walk goes through from a module: those that it imports, and then, if it is a definition,
/// those that its implementation imports.
fn walk_of(alloc: Global, program: &Program<'_>, tree: &Module) -> Result<Items<usize>, AllocError>
    requires { IsIndexed program.now }
    ensures { IfOk result (λ walked. walked ≡ walk_of (modules_of program.now) tree.now) }
{
    let mut walked = Items::new(alloc);
    add_imports(program, tree, &mut walked)?;
    add_body(program, tree, &mut walked)?;
    Ok(walked)
}

/// For each module the definitions that a walk goes through from it.
pub fn walks(alloc: Global, program: &Program<'_>) -> Result<Vec<Items<usize>>, AllocError>
    requires { IsIndexed program.now }
    ensures value { IfOk result (λ all. all.items ≡ walks (modules_of program.now)) }
    ensures nodes { IfOk result (λ all. AreNodes all.items) }
{
    let mut all = Vec::new(alloc);
    let modules = program.modules;
    for module in modules {
        all.push(walk_of(alloc, program, module)?)?;
    }
    Ok(all)
}
