//! Imports.

ghost use Rattle.std.specs.Prelude.{◌≡◌, ◌+◌, ◌<◌, ◌^◌, [], Ok, IfOk, length, take, drop, slice_get};
ghost use Rattle.std.specs.List.{fold};
ghost use Rattle.std.specs.Option.{option_copied, option_map};
ghost use Rattle.check_scope.specs.Elaborated.{least};
ghost use Rattle.check_definition.specs.Steps.{if_some};
ghost use Rattle.check_definition.specs.Importing.{numbered_modules, module_named, with_module_name, with_entry, brings_in, reported_of_taken, from_place, with_from, exports_of, with_import};

use check_scope::{Elaborated, Known, Origin, Scope, beside, import, report};
use m2_rule::{Breach, Rule};
use m2_tree::{Ident, Import, Pos};
use std::alloc::{AllocError, Global};
use tree_parts::Shared;
use typed_tree::{Dictionary, Meaning, Table};

/// The places of the tables by their names. The first of a name counts.
pub fn modules_of(alloc: Global, tables: &[Shared<Table>]) -> Result<Dictionary<usize>, AllocError>
    ensures { IfOk result (λ m. (m, length tables.now) ≡ numbered_modules tables.now) }
{
    let mut modules = Dictionary::new(alloc);
    for (place, table) in tables.iter().enumerate() {
        let name = table.get().name.as_bytes();
        if modules.find(name).is_none() {
            modules.enter(alloc, name, place)?;
        }
    }
    Ok(modules)
}

fn module_named(modules: &Dictionary<usize>, name: &Ident) -> Elaborated<usize>
    ensures { result ≡ module_named least modules.now name.now }
{
    match modules.find(name.name.as_bytes()) {
        None => report(name.pos, Rule::MissingModule),
        Some(place) => Ok(*place),
    }
}

fn import_modules(
    alloc: Global,
    scope: &mut Scope<Breach>,
    modules: &Dictionary<usize>,
    before: Elaborated<()>,
    names: &[Ident],
) -> Result<Elaborated<()>, AllocError>
    ensures { IfOk result (λ j.
        (scope.new, j) ≡ fold (with_module_name least modules.now) (scope.old, before) names.now) }
{
    let mut elaborated = before;
    for name in names {
        let one = match module_named(modules, name) {
            Err(breach) => Err(breach),
            Ok(place) => import(
                alloc,
                scope,
                name.pos,
                name.name.as_bytes(),
                Origin::Module(place),
                Ok(Meaning::Module(place)),
            )?,
        };
        elaborated = beside(elaborated, one);
    }
    Ok(elaborated)
}

fn with_entry_if(
    alloc: Global,
    scope: &mut Scope<Breach>,
    at: Pos,
    place: usize,
    before: Elaborated<()>,
    entry: Option<(&[u8], &Meaning)>,
) -> Result<Elaborated<()>, AllocError>
    ensures { IfOk result (λ j.
        (scope.new, j)
        ≡ if_some (with_entry least at place) (scope.old, before)
        (option_map (λ e. (e.0.now, e.1.now)) entry.entry)) }
{
    match entry {
        None => Ok(before),
        Some((name, meaning)) => {
            let copy = meaning.copy()?;
            let one = import(alloc, scope, at, name, Origin::Export(place), Ok(copy))?;
            Ok(beside(before, one))
        }
    }
}

/// Imports this many names of a table from a place on.
fn bring_all(
    alloc: Global,
    scope: &mut Scope<Breach>,
    at: Pos,
    place: usize,
    exported: &Dictionary<Meaning>,
    first: usize,
    count: usize,
) -> Result<Elaborated<()>, AllocError>
    requires { first + count < 2 ^ 64 }
    ensures { IfOk result (λ j.
        (scope.new, j)
        ≡ fold (with_entry least at place) (scope.old, Ok tt)
        (take count (drop first exported.now))) }
{
    let mut elaborated = Ok(());
    for k in 0..count {
        let entry = exported.get(first + k);
        elaborated = with_entry_if(alloc, scope, at, place, elaborated, entry)?;
    }
    Ok(elaborated)
}

/// How many names come with a name.
fn brings_in(entry: Option<(&[u8], &Meaning)>) -> usize
    ensures { result ≡ brings_in (option_map (λ e. (e.0.now, e.1.now)) entry.entry) }
{
    match entry {
        None => 0,
        Some((_, meaning)) => match meaning {
            Meaning::Type(_, names) => *names,
            Meaning::Constant(_)
            | Meaning::Variable(_)
            | Meaning::Local(_)
            | Meaning::Field(_)
            | Meaning::Procedure(_)
            | Meaning::LocalProcedure(_)
            | Meaning::Ahead
            | Meaning::Standard(_)
            | Meaning::Module(_) => 1,
        },
    }
}

/// What is reported of an import whose name is taken, if it is.
fn reported_of_taken(known: Option<&Known<Breach>>, at: Pos, place: usize) -> Option<Elaborated<()>>
    ensures { result ≡ reported_of_taken least at place (option_copied known.entry) }
{
    match known {
        None => None,
        Some(known) => match known {
            Known::Later | Known::Ahead => None,
            Known::Begun => Some(report(at, Rule::DeclaredTwice)),
            Known::Headed(_) => Some(report(at, Rule::DeclaredTwice)),
            Known::Declared(origin, _) => match origin {
                Origin::Here | Origin::Module(_) => Some(report(at, Rule::DeclaredTwice)),
                Origin::Export(first) => {
                    if *first == place {
                        return Some(Ok(()));
                    }
                    Some(report(at, Rule::DeclaredTwice))
                }
            },
        },
    }
}

/// Imports a name of a table, with those that come with it. One that is taken brings nothing.
fn from_place(
    alloc: Global,
    scope: &mut Scope<Breach>,
    name: &Ident,
    place: usize,
    exported: &Dictionary<Meaning>,
    found: Option<usize>,
) -> Result<Elaborated<()>, AllocError>
    ensures { IfOk result (λ j.
        (scope.new, j) ≡ from_place least scope.old name.now place exported.now found) }
{
    let Some(first) = found else {
        return Ok(report(name.pos, Rule::NotExported));
    };
    let known = scope.own.find(name.name.as_bytes());
    match reported_of_taken(known, name.pos, place) {
        Some(elaborated) => Ok(elaborated),
        None => {
            let count = brings_in(exported.get(first));
            let left = exported.len().saturating_sub(first);
            if left < count {
                return bring_all(alloc, scope, name.pos, place, exported, first, left);
            }
            bring_all(alloc, scope, name.pos, place, exported, first, count)
        }
    }
}

fn import_names(
    alloc: Global,
    scope: &mut Scope<Breach>,
    place: usize,
    exported: &Dictionary<Meaning>,
    before: Elaborated<()>,
    names: &[Ident],
) -> Result<Elaborated<()>, AllocError>
    ensures { IfOk result (λ j.
        (scope.new, j) ≡ fold (with_from least place exported.now) (scope.old, before) names.now) }
{
    let mut elaborated = before;
    for name in names {
        let found = exported.place(name.name.as_bytes());
        let one = from_place(alloc, scope, name, place, exported, found)?;
        elaborated = beside(elaborated, one);
    }
    Ok(elaborated)
}

fn import_from(
    alloc: Global,
    scope: &mut Scope<Breach>,
    place: usize,
    before: Elaborated<()>,
    names: &[Ident],
) -> Result<Elaborated<()>, AllocError>
    ensures { IfOk result (λ j.
        (scope.new, j)
        ≡ fold (with_from least place (exports_of (slice_get scope.old.tables place)))
        (scope.old, before) names.now) }
{
    match scope.tables.get(place) {
        None => {
            let nothing = Dictionary::new(alloc);
            import_names(alloc, scope, place, &nothing, before, names)
        }
        Some(table) => {
            let table = table.share()?;
            import_names(alloc, scope, place, &table.get().exported, before, names)
        }
    }
}

fn with_import(
    alloc: Global,
    scope: &mut Scope<Breach>,
    modules: &Dictionary<usize>,
    before: Elaborated<()>,
    one: &Import,
) -> Result<Elaborated<()>, AllocError>
    ensures { IfOk result (λ j.
        (scope.new, j) ≡ with_import least modules.now (scope.old, before) one.now) }
{
    let names = one.names.as_slice();
    match &one.from {
        None => import_modules(alloc, scope, modules, before, names),
        Some(from) => match module_named(modules, from) {
            Err(breach) => Ok(beside(before, Err(breach))),
            Ok(place) => import_from(alloc, scope, place, before, names),
        },
    }
}

/// Imports what a module imports.
pub fn import_all(
    alloc: Global,
    scope: &mut Scope<Breach>,
    modules: &Dictionary<usize>,
    imports: &[Import],
) -> Result<Elaborated<()>, AllocError>
    ensures { IfOk result (λ j.
        (scope.new, j) ≡ fold (with_import least modules.now) (scope.old, Ok tt) imports.now) }
{
    let mut elaborated = Ok(());
    for one in imports {
        elaborated = with_import(alloc, scope, modules, elaborated, one)?;
    }
    Ok(elaborated)
}
