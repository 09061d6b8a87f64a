//! What is refused in a file, beside cycles.

ghost use Rattle.std.specs.Prelude.{◌≡◌, ◌<◌, ◌++◌, ◌||◌, length, take, fold};
ghost use Rattle.m2_graph.specs.Imports.{imports_of, named_by, is_program};
ghost use Rattle.m2_graph.specs.Refused.{breach_where, least_with, least_of, is_built_in, is_bad_import, import_breaches, any_that, is_second, is_repeated, is_without_program, is_second_program, is_lone, breaches_of};
ghost use Rattle.m2_graph.specs.Program.{modules_of, IsIndexed};
ghost use Rattle.m2_graph.specs.Parts.{is_earlier};
ghost use Rattle.m2_graph.specs.Reported.{cycle_breaches};

use crate::imports::{is_definition, is_implementation, is_program};
use crate::program::{Program, definition_of, first_file_of, implementation_of};
use m2_rule::{Breach, Rule, lesser};
use m2_tree::{Ident, Import, Module, Name, Pos, is_console};

/// The most files of a program.
pub const MAX_FILES: usize = 1024;

/// The place of a text's first byte.
pub const FIRST_PLACE: Pos = Pos { line: 1, col: 1 };

fn least_with(least: Option<Breach>, other: Breach) -> Option<Breach>
    ensures { result ≡ least_with least other }
{
    match least {
        None => Some(other),
        Some(breach) => Some(lesser(breach, other)),
    }
}

/// The least, if this breach is added if `holds`.
fn with_breach(least: Option<Breach>, holds: bool, pos: Pos, broken: Rule) -> Option<Breach>
    ensures { result ≡ fold least_with least (breach_where holds pos broken) }
{
    if holds {
        least_with(least, Breach::at(pos, broken))
    } else {
        least
    }
}

fn is_built_in(name: &Name) -> bool
    ensures { result ≡ is_built_in name.now }
{
    is_console(name.as_bytes()) || name.as_bytes() == b"link".as_slice()
}

fn is_bad_import(program: &Program<'_>, tree: &Module, name: &Name) -> bool
    requires { IsIndexed program.now }
    ensures { result ≡ is_bad_import (modules_of program.now) tree.now name.now }
{
    (!is_console(name.as_bytes()) && definition_of(program, name).is_none())
        || (!is_definition(tree) && *name == tree.name.name)
}

/// The least, if the breaches of these imports are added.
fn with_names(
    program: &Program<'_>,
    tree: &Module,
    names: &[Ident],
    least: Option<Breach>,
) -> Option<Breach>
    requires { IsIndexed program.now }
    ensures { result
        ≡ fold least_with least (import_breaches (modules_of program.now) tree.now names.now) }
{
    let mut found = least;
    for ident in names {
        let is_bad = is_bad_import(program, tree, &ident.name);
        found = with_breach(found, is_bad, ident.pos, Rule::MissingModule);
    }
    found
}

/// Whether the first of some modules stands before this number.
fn is_earlier(first: Option<usize>, number: usize) -> bool
    ensures { result ≡ is_earlier first number }
{
    match first {
        None => false,
        Some(earlier) => earlier < number,
    }
}

/// Whether the definition or the body stands before this number.
fn is_second(program: &Program<'_>, number: usize, tree: &Module) -> bool
    requires { IsIndexed program.now }
    ensures { result ≡ is_second (take number (modules_of program.now)) tree.now }
{
    let first = first_file_of(program, tree);
    is_earlier(first, number)
}

fn is_repeated(program: &Program<'_>, number: usize, tree: &Module) -> bool
    requires { IsIndexed program.now }
    ensures { result ≡ is_repeated (take number (modules_of program.now)) tree.now }
{
    is_second(program, number, tree) || is_built_in(&tree.name.name)
}

fn is_without_program(program: &Program<'_>, number: usize) -> bool
    requires indexed { IsIndexed program.now }
    requires within { number < length (modules_of program.now) }
    ensures { result
        ≡ is_without_program (modules_of program.now) (take number (modules_of program.now)) }
{
    number == 0 && program.program.is_none()
}

/// Whether a program module stands before this number.
fn has_program_before(program: &Program<'_>, number: usize) -> bool
    requires { IsIndexed program.now }
    ensures { result ≡ any_that is_program (take number (modules_of program.now)) }
{
    is_earlier(program.program, number)
}

fn is_second_program(program: &Program<'_>, number: usize, tree: &Module) -> bool
    requires { IsIndexed program.now }
    ensures { result ≡ is_second_program (take number (modules_of program.now)) tree.now }
{
    is_program(tree) && has_program_before(program, number)
}

fn is_lone(program: &Program<'_>, tree: &Module) -> bool
    requires { IsIndexed program.now }
    ensures { result ≡ is_lone (modules_of program.now) tree.now }
{
    (is_implementation(tree) && definition_of(program, &tree.name.name).is_none())
        || (is_definition(tree) && implementation_of(program, &tree.name.name).is_none())
}

/// The least breach of an import.
fn import_breach(program: &Program<'_>, tree: &Module) -> Option<Breach>
    requires { IsIndexed program.now }
    ensures { result
        ≡ least_of (import_breaches (modules_of program.now) tree.now (imports_of tree.now)) }
{
    let mut found = None;
    let imports = tree.imports.as_slice();
    for import in imports {
        found = with_import(program, tree, import, found);
    }
    found
}

fn with_import(
    program: &Program<'_>,
    tree: &Module,
    import: &Import,
    least: Option<Breach>,
) -> Option<Breach>
    requires { IsIndexed program.now }
    ensures { result ≡ fold least_with least
        (import_breaches (modules_of program.now) tree.now
        (named_by import.now.from import.now.names)) }
{
    match &import.from {
        Some(from) => {
            let is_bad = is_bad_import(program, tree, &from.name);
            with_breach(least, is_bad, from.pos, Rule::MissingModule)
        }
        None => with_names(program, tree, import.names.as_slice(), least),
    }
}

/// The least (place, number) at which the module with this number breaks a rule of imports, cycles left aside: 20 an
/// import of a module without definition, or by a body of its own module; 21 a second file for a definition or a body, or
/// a module named Console or link; 23 a second program module, or none; 24 an implementation without definition, or the
/// reverse; 25 over 1024 files. `given` says how many files were given before its file.
fn file_breach(program: &Program<'_>, number: usize, given: usize, tree: &Module) -> Option<Breach>
    requires indexed { IsIndexed program.now }
    requires within { number < length (modules_of program.now) }
    ensures { result ≡ least_of
        (breaches_of (modules_of program.now) (take number (modules_of program.now)) given
        tree.now) }
{
    let pos = tree.name.pos;
    let repeated = is_repeated(program, number, tree);
    let second = is_second_program(program, number, tree);
    let without = is_without_program(program, number);
    let lone = is_lone(program, tree);
    let imports = import_breach(program, tree);
    let repeats = with_breach(imports, repeated, pos, Rule::SecondFile);
    let programs = with_breach(repeats, second, pos, Rule::ProgramCount);
    let without_program = with_breach(programs, without, FIRST_PLACE, Rule::ProgramCount);
    let lonely = with_breach(without_program, lone, pos, Rule::LonelyModule);
    with_breach(lonely, given == MAX_FILES, FIRST_PLACE, Rule::FileCount)
}

/// The least, if what is reported of cycles is added.
fn with_cycle(least: Option<Breach>, cycle: Option<(usize, Pos)>, number: usize) -> Option<Breach>
    ensures { result ≡ fold least_with least (cycle_breaches cycle number) }
{
    match cycle {
        None => least,
        Some((node, pos)) => with_breach(least, node == number, pos, Rule::Cycle),
    }
}

/// The least (place, number) at which the module with this number breaks a rule. `cycle` is what is reported of cycles.
pub fn breach_of(
    program: &Program<'_>,
    cycle: Option<(usize, Pos)>,
    number: usize,
    given: usize,
    tree: &Module,
) -> Option<Breach>
    requires indexed { IsIndexed program.now }
    requires within { number < length (modules_of program.now) }
    ensures { result ≡ least_of
        (breaches_of (modules_of program.now) (take number (modules_of program.now)) given
        tree.now ++ cycle_breaches cycle number) }
{
    let breach = file_breach(program, number, given, tree);
    with_cycle(breach, cycle, number)
}
