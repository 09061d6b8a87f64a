//! What stands for the bodies of a program that are not there.

ghost use Rattle.std.specs.Prelude.{◌≡◌, ◌++◌, [], IfOk, OnOk, map};
ghost use Rattle.std.specs.List.{flat_map, list_any};
ghost use Rattle.build_jobs.specs.Borrowed.{borrow_trees, modules_borrowed};
ghost use Rattle.compile_module.specs.Stands.{lacks_body, body_for, program_for, stands_for, with_stands, stand_file, is_told, without_stands};

use empty_modules::{empty_body, empty_program, import_of};
use m2_tree::{Contents, Module, Name, Refusal};
use std::alloc::{AllocError, Global};
use tree_parts::Items;

/// How the file of a stand-in is told.
const FILE: &str = "(what stands for modules that are not there)";

/// Whether a body is wanted for this module: it is a definition, but not that of the body that is there.
fn lacks_body(first: &Module, tree: &Module) -> bool
    ensures { result ≡ lacks_body first.now tree.now }
{
    let is_own = tree.name.name.as_bytes() == first.name.name.as_bytes();
    match (&tree.contents, &first.contents) {
        (Contents::Definition(_), Contents::Definition(_)) => true,
        (Contents::Definition(_), Contents::Implementation(_) | Contents::Program(_)) => !is_own,
        (Contents::Implementation(_) | Contents::Program(_), _) => false,
    }
}

/// Adds the body that is wanted for a module.
fn add_body(
    alloc: Global,
    first: &Module,
    tree: &Module,
    stands: &mut Vec<Module>,
) -> Result<(), AllocError>
    ensures { OnOk result (stands.new.items ≡ stands.old.items ++ body_for first.now tree.now) }
{
    if lacks_body(first, tree) {
        let name = tree.name.name.clone()?;
        stands.push(empty_body(alloc, name, Items::new(alloc)))?;
    }
    Ok(())
}

/// Adds a program module that imports the first module, if that is none. It has no name, as no module of a text.
fn add_program(alloc: Global, first: &Module, stands: &mut Vec<Module>) -> Result<(), AllocError>
    ensures { OnOk result (stands.new.items ≡ stands.old.items ++ program_for first.now) }
{
    match &first.contents {
        Contents::Program(_) => Ok(()),
        Contents::Definition(_) | Contents::Implementation(_) => {
            let mut imports = Items::new(alloc);
            imports.push(import_of(alloc, first.name.name.clone()?)?)?;
            stands.push(empty_program(alloc, Name::new(alloc, &[])?, imports))?;
            Ok(())
        }
    }
}

/// The bodies that are wanted for modules.
fn bodies_for(
    alloc: Global,
    first: &Module,
    trees: &[(&str, &Module)],
) -> Result<Vec<Module>, AllocError>
    ensures { IfOk result (λ stands.
        stands.items ≡ flat_map (body_for first.now) (modules_borrowed trees.now)) }
{
    let mut stands = Vec::new(alloc);
    for tree in trees {
        add_body(alloc, first, tree.1, &mut stands)?;
    }
    Ok(stands)
}

/// The modules that make a program of these: an empty body for each definition that has none, and a program module if the first is
/// none.
pub fn stands_for(alloc: Global, trees: &[(&str, &Module)]) -> Result<Vec<Module>, AllocError>
    ensures { IfOk result (λ stands. stands.items ≡ stands_for (modules_borrowed trees.now)) }
{
    match trees {
        [] => Ok(Vec::new(alloc)),
        [first, ..] => {
            let mut stands = bodies_for(alloc, first.1, trees)?;
            add_program(alloc, first.1, &mut stands)?;
            Ok(stands)
        }
    }
}

/// Adds modules under the names of their files.
fn add_files<'a>(
    all: &mut Vec<(&'a str, &'a Module)>,
    trees: &'a [(&str, &Module)],
) -> Result<(), AllocError>
    ensures { OnOk result
        (borrow_trees all.new.items ≡ borrow_trees all.old.items ++ borrow_trees trees.now) }
{
    for tree in trees {
        all.push((tree.0, tree.1))?;
    }
    Ok(())
}

/// Adds stand-ins, under the name that their file has.
fn add_stands<'a>(
    all: &mut Vec<(&'a str, &'a Module)>,
    stands: &'a [Module],
) -> Result<(), AllocError>
    ensures { OnOk result (borrow_trees all.new.items
        ≡ borrow_trees all.old.items ++ map (λ m. (stand_file, m)) stands.now) }
{
    for stand in stands {
        all.push((FILE, stand))?;
    }
    Ok(())
}

/// Modules under the names of their files, and behind them those that stand in.
pub fn with_stands<'a>(
    alloc: Global,
    trees: &'a [(&str, &Module)],
    stands: &'a [Module],
) -> Result<Vec<(&'a str, &'a Module)>, AllocError>
    ensures { IfOk result (λ all. borrow_trees all.items
        ≡ borrow_trees trees.now ++ map (λ m. (stand_file, m)) stands.now) }
{
    let mut all = Vec::new(alloc);
    add_files(&mut all, trees)?;
    add_stands(&mut all, stands)?;
    Ok(all)
}

/// Whether a file that is there breaks the rule.
fn is_told(refusal: &Refusal) -> bool
    ensures { result ≡ is_told refusal.now }
{
    refusal.file.as_bytes() != FILE.as_bytes()
}

/// Whether a file that is there breaks one of the rules.
fn has_told(refusals: &[Refusal]) -> bool
    ensures { result ≡ list_any is_told refusals.now }
{
    for refusal in refusals {
        if is_told(refusal) {
            return true;
        }
    }
    false
}

/// Refusals without those of stand-ins, which follow from others. If there are no others, all.
pub fn without_stands(found: Vec<Refusal>) -> Vec<Refusal>
    ensures { result.items ≡ without_stands found.items }
{
    let mut refusals = found;
    if has_told(&refusals) {
        refusals.retain(is_told);
    }
    refusals
}
