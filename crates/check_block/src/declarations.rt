//! The declarations of a block.

ghost use Rattle.std.specs.Prelude.{◌≡◌, Ok, IfOk, OnOk, Some};
ghost use Rattle.std.specs.List.{fold};
ghost use Rattle.std.specs.Option.{option_map};
ghost use Rattle.check_scope.specs.Elaborated.{least};
ghost use Rattle.check_definition.specs.Steps.{if_some};
ghost use Rattle.check_definition.specs.Declare.{with_constant, with_type};
ghost use Rattle.check_block.specs.Declarations.{with_procedure, with_decl, again_decl, declared_block, or_awaited, lacks, declared_module};

use crate::heading::{Standing, standing_known, with_heading};
use crate::naming::mark_decls;
use check_definition::{
    Owner, again_constants, again_types, again_variables, declare_constants, declare_types,
    declare_variables, import_all, pass,
};
use check_scope::{Elaborated, Known, Scope, beside, report};
use m2_rule::{Breach, Rule};
use m2_tree::{Decl, Heading, Module};
use std::alloc::{AllocError, Global};
use tree_parts::Items;
use typed_tree::Dictionary;

// ---- declarations, in order

fn with_procedure(
    alloc: Global,
    scope: &mut Scope<Breach>,
    ends: &[usize],
    next: &mut usize,
    before: Elaborated<()>,
    heading: &Heading,
) -> Result<Elaborated<()>, AllocError>
    ensures { IfOk result (λ j.
        (scope.new, j, next.new)
        ≡ with_procedure least ends.now (scope.old, before, next.old) heading.now) }
{
    let one = with_heading(alloc, scope, *next, heading)?;
    *next = match ends.get(*next) {
        None => *next,
        Some(end) => *end,
    };
    Ok(beside(before, one))
}

fn with_decl(
    alloc: Global,
    scope: &mut Scope<Breach>,
    ends: &[usize],
    next: &mut usize,
    before: Elaborated<()>,
    decl: &Decl,
) -> Result<Elaborated<()>, AllocError>
    ensures { IfOk result (λ j.
        (scope.new, j, next.new)
        ≡ with_decl least ends.now (scope.old, before, next.old) decl.now) }
{
    match decl {
        Decl::Constants(list) => declare_constants(alloc, scope, before, list.as_slice()),
        Decl::Types(list) => declare_types(alloc, scope, before, list.as_slice()),
        Decl::Variables(list) => {
            if scope.level == 0 {
                return declare_variables(alloc, scope, Owner::Module, before, list.as_slice());
            }
            declare_variables(alloc, scope, Owner::Procedure, before, list.as_slice())
        }
        Decl::Procedure(heading, _) => with_procedure(alloc, scope, ends, next, before, heading),
    }
}

fn again_decl(
    alloc: Global,
    scope: &mut Scope<Breach>,
    seen: &mut usize,
    before: Elaborated<()>,
    decl: &Decl,
) -> Result<Elaborated<()>, AllocError>
    ensures here { OnOk result (scope.new ≡ scope.old) }
    ensures again { IfOk result (λ j.
        (j, seen.new) ≡ again_decl least scope.old (before, seen.old) decl.now) }
{
    match decl {
        Decl::Constants(list) => again_constants(alloc, scope, seen, before, list.as_slice()),
        Decl::Types(list) => again_types(alloc, scope, seen, before, list.as_slice()),
        Decl::Variables(list) => again_variables(alloc, scope, seen, before, list.as_slice()),
        Decl::Procedure(heading, _) => {
            pass(scope, seen, &heading.name);
            Ok(before)
        }
    }
}

/// Reads the constant expressions of declarations again, the first of which stands behind this many names.
fn again_all(
    alloc: Global,
    scope: &mut Scope<Breach>,
    first: usize,
    before: Elaborated<()>,
    decls: &[Decl],
) -> Result<Elaborated<()>, AllocError>
    ensures here { OnOk result (scope.new ≡ scope.old) }
    ensures again { IfOk result (λ j.
        j ≡ (fold (again_decl least scope.old) (before, first) decls.now).0) }
{
    let mut seen = first;
    let mut elaborated = before;
    for decl in decls {
        elaborated = again_decl(alloc, scope, &mut seen, elaborated, decl)?;
    }
    Ok(elaborated)
}

/// Declares what a block declares, in order, and answers what is reported, and how many names of the block stand before
/// each declaration. The names that the block declares are known to be declared wherever they stand, and all its
/// procedures are known behind it. Behind all headings constant expressions are read again. Its procedures are numbered
/// from the first number on, if the block is a procedure's.
pub fn declare_block(
    alloc: Global,
    scope: &mut Scope<Breach>,
    ends: &[usize],
    before: Elaborated<()>,
    first: usize,
    decls: &[Decl],
) -> Result<(Elaborated<()>, Items<usize>), AllocError>
    ensures { IfOk result (λ r.
        (scope.new, r.0, r.1) ≡ declared_block least ends.now (scope.old, before) first decls.now) }
{
    let names = scope.own.len();
    let seen = mark_decls(alloc, scope, decls)?;
    let mut next = first;
    let mut elaborated = before;
    for decl in decls {
        elaborated = with_decl(alloc, scope, ends, &mut next, elaborated, decl)?;
    }
    Ok((again_all(alloc, scope, names, elaborated, decls)?, seen))
}

// ---- modules

fn or_awaited_if(so_far: bool, entry: Option<(&[u8], &Known<Breach>)>) -> bool
    ensures { result
        ≡ if_some or_awaited so_far (option_map (λ e. (e.0.now, e.1.now)) entry.entry) }
{
    match entry {
        None => so_far,
        Some((_, known)) => match standing_known(known) {
            Standing::Awaited(_) => true,
            Standing::Free | Standing::Taken => so_far,
        },
    }
}

/// Whether a procedure of the definition still awaits its heading.
fn lacks(own: &Dictionary<Known<Breach>>) -> bool
    ensures { result ≡ lacks own.now }
{
    let mut found = false;
    for place in 0..own.len() {
        found = or_awaited_if(found, own.get(place));
    }
    found
}

/// Declares what a module imports and what its block declares, and answers what is reported, and how many names stand
/// before each declaration. An exported procedure that the block lacks is 51 at the module's name.
pub fn declare_module(
    alloc: Global,
    scope: &mut Scope<Breach>,
    modules: &Dictionary<usize>,
    ends: &[usize],
    tree: &Module,
    decls: &[Decl],
) -> Result<(Elaborated<()>, Items<usize>), AllocError>
    ensures { IfOk result (λ r.
        (scope.new, r.0, r.1)
        ≡ declared_module least modules.now ends.now scope.old tree.now decls.now) }
{
    let imported = import_all(alloc, scope, modules, tree.imports.as_slice())?;
    let (elaborated, seen) = declare_block(alloc, scope, ends, imported, 0, decls)?;
    let lack = if lacks(&scope.own) {
        report(tree.name.pos, Rule::MissingProcedure)
    } else {
        Ok(())
    };
    Ok((beside(elaborated, lack), seen))
}
