//! The modules of a program, and where each name stands among them.

ghost use Rattle.std.specs.Prelude.{◌≡◌, ◌&&◌, ◌<◌, List, ℕ, length, cond, map, IfOk, OnOk, IfSome, Some, None};
ghost use Rattle.m2_tree.specs.Names.{same_name};
ghost use Rattle.m2_graph.specs.Imports.{definition_of, implements, first_that};
ghost use Rattle.m2_graph.specs.Parts.{is_part, bears, number_at, or_first};
ghost use Rattle.m2_graph.specs.Refused.{are_one_part};
ghost use Rattle.m2_graph.specs.Program.{modules_of, IsIndexed};

use crate::imports::{is_definition, is_implementation, program_of};
use indexmap::IndexMap;
use m2_tree::{Module, Name};
use std::alloc::{AllocError, Global};

/// A sort of modules.
#[derive(Clone, Copy)]
pub enum Part {
    Definition,
    Implementation,
    /// An implementation or a program.
    Body,
}

/// Modules in the order of their files, and for each name the first definition, implementation and body that have it.
#[derive(Drop)]
pub struct Program<'a> {
    pub modules: &'a [&'a Module],
    definitions: IndexMap<&'a [u8], usize>,
    implementations: IndexMap<&'a [u8], usize>,
    bodies: IndexMap<&'a [u8], usize>,
    /// The first program module.
    pub program: Option<usize>,
}

fn is_part(part: Part, tree: &Module) -> bool
    ensures { result ≡ is_part part tree.now }
{
    match part {
        Part::Definition => is_definition(tree),
        Part::Implementation => is_implementation(tree),
        Part::Body => !is_definition(tree),
    }
}

/// Gives a name its number, unless it has one.
fn add_first<'a>(
    table: &mut IndexMap<&'a [u8], usize>,
    name: &'a [u8],
    number: usize,
) -> Result<(), AllocError>
    ensures { OnOk result
        ((other : List ℕ)
        → number_at table.new other ≡ or_first (number_at table.old other)
        (cond (same_name other name.now) (Some number) None)) }
{
    if table.contains_key(name) {
        return Ok(());
    }
    table.insert(name, number)?;
    Ok(())
}

fn add_module<'a>(
    table: &mut IndexMap<&'a [u8], usize>,
    part: Part,
    tree: &'a Module,
    number: usize,
) -> Result<(), AllocError>
    ensures { OnOk result
        ((name : List ℕ)
        → number_at table.new name ≡ or_first (number_at table.old name)
        (cond (bears part name tree.now) (Some number) None)) }
{
    if !is_part(part, tree) {
        return Ok(());
    }
    add_first(table, tree.name.name.as_bytes(), number)
}

/// For each name the first module of this sort that bears it.
fn table_of<'a>(
    alloc: Global,
    modules: &[&'a Module],
    part: Part,
) -> Result<IndexMap<&'a [u8], usize>, AllocError>
    ensures { IfOk result (λ table.
        (name : List ℕ)
        → number_at table name ≡ first_that (bears part name) (map (λ m. m.now) modules.now)) }
{
    let mut table = IndexMap::new(alloc);
    for (number, module) in modules.iter().enumerate() {
        add_module(&mut table, part, module, number)?;
    }
    Ok(table)
}

/// A program of these modules, which are in the order of their files.
pub fn program_with<'a>(alloc: Global, modules: &'a [&'a Module]) -> Result<Program<'a>, AllocError>
    ensures modules { IfOk result (λ p. modules_of p ≡ map (λ m. m.now) modules.now) }
    ensures indexed { IfOk result IsIndexed }
{
    let definitions = table_of(alloc, modules, Part::Definition)?;
    let implementations = table_of(alloc, modules, Part::Implementation)?;
    let bodies = table_of(alloc, modules, Part::Body)?;
    let program = program_of(modules);
    Ok(Program {
        modules,
        definitions,
        implementations,
        bodies,
        program,
    })
}

fn find(table: &IndexMap<&[u8], usize>, name: &Name) -> Option<usize>
    ensures { result ≡ number_at table.now name.now }
{
    table.get(name.as_bytes()).copied()
}

/// The definition that a name means: the first of this name.
pub fn definition_of(program: &Program<'_>, name: &Name) -> Option<usize>
    requires { IsIndexed program.now }
    ensures { result ≡ definition_of (modules_of program.now) name.now }
{
    find(&program.definitions, name)
}

/// The implementation of the module of this name: the first.
pub fn implementation_of(program: &Program<'_>, name: &Name) -> Option<usize>
    requires { IsIndexed program.now }
    ensures value { result ≡ first_that (implements name.now) (modules_of program.now) }
    ensures within { IfSome result (λ number. number < length (modules_of program.now)) }
{
    find(&program.implementations, name)
}

/// The first file of the same definition, or of the same body.
pub fn first_file_of(program: &Program<'_>, tree: &Module) -> Option<usize>
    requires { IsIndexed program.now }
    ensures { result ≡ first_that (are_one_part tree.now) (modules_of program.now) }
{
    if is_definition(tree) {
        find(&program.definitions, &tree.name.name)
    } else {
        find(&program.bodies, &tree.name.name)
    }
}
