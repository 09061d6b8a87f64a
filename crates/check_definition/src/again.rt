//! Constant expressions of declarations, read again behind the headings of the block. A procedure means the same in front
//! of its heading as behind it.

ghost use Rattle.std.specs.Prelude.{◌≡◌, IfOk, OnOk};
ghost use Rattle.std.specs.List.{fold};
ghost use Rattle.check_scope.specs.Elaborated.{least};
ghost use Rattle.check_definition.specs.Again.{passed, all_passed, reported_at, again_value, again_simple, again_type, with_field, again_field, again_constant, again_declared, again_variables, again_def};

use check_expr::constant_of;
use check_scope::{Elaborated, Scope, beside, step_in, step_out};
use m2_rule::Breach;
use m2_tree::{Constant, Def, Expr, Field, Ident, Simple, TypeDecl, TypeExpr, Variables};
use std::alloc::{AllocError, Global};

// ---- names

/// One more name of the block stands in front, unless it did already.
pub fn pass(scope: &Scope<Breach>, seen: &mut usize, name: &Ident)
    ensures { seen.new ≡ passed scope.now seen.old name.now }
{
    let names = scope.own.len();
    if let Some(place) = scope.own.place(name.name.as_bytes()) {
        if place == *seen && place < names {
            *seen += 1;
        }
    }
}

fn pass_all(scope: &Scope<Breach>, seen: &mut usize, names: &[Ident])
    ensures { seen.new ≡ all_passed scope.now seen.old names.now }
{
    for name in names {
        pass(scope, seen, name);
    }
}

// ---- constant expressions

fn reported_at(alloc: Global, scope: &Scope<Breach>, e: &Expr) -> Result<Elaborated<()>, AllocError>
    ensures { IfOk result (λ j. j ≡ reported_at least scope.now e.now) }
{
    match constant_of(alloc, scope, e)? {
        Err(breach) => Ok(Err(breach)),
        Ok(value) => {
            drop(value);
            Ok(Ok(()))
        }
    }
}

/// Reads a constant expression as in the body of a procedure that stands behind this many names of the block.
fn again_value(
    alloc: Global,
    scope: &mut Scope<Breach>,
    seen: usize,
    before: Elaborated<()>,
    e: &Expr,
) -> Result<Elaborated<()>, AllocError>
    ensures here { OnOk result (scope.new ≡ scope.old) }
    ensures again { IfOk result (λ j.
        (j, seen) ≡ again_value least scope.old e.now (before, seen)) }
{
    let outside = step_in(alloc, scope, seen)?;
    let reported = reported_at(alloc, scope, e)?;
    step_out(alloc, scope, outside);
    Ok(beside(before, reported))
}

// ---- types

fn again_simple(
    alloc: Global,
    scope: &mut Scope<Breach>,
    seen: &mut usize,
    before: Elaborated<()>,
    t: &Simple,
) -> Result<Elaborated<()>, AllocError>
    ensures here { OnOk result (scope.new ≡ scope.old) }
    ensures again { IfOk result (λ j.
        (j, seen.new) ≡ again_simple least t.now scope.old (before, seen.old)) }
{
    match t {
        Simple::Named(_) => Ok(before),
        Simple::Enumeration(_, names) => {
            pass_all(scope, seen, names.as_slice());
            Ok(before)
        }
        Simple::Subrange(_, _, low, high) => {
            let elaborated = again_value(alloc, scope, *seen, before, low.get())?;
            again_value(alloc, scope, *seen, elaborated, high.get())
        }
    }
}

/// Reads the bounds in a type.
#[cycle(again)]
#[tactic(auto, using(crate::proofs::Reading::reads))]
fn again_type(
    alloc: Global,
    scope: &mut Scope<Breach>,
    seen: &mut usize,
    before: Elaborated<()>,
    t: &TypeExpr,
) -> Result<Elaborated<()>, AllocError>
    ensures here { OnOk result (scope.new ≡ scope.old) }
    ensures again { IfOk result (λ j.
        (j, seen.new) ≡ again_type least t.now scope.old (before, seen.old)) }
{
    match t {
        TypeExpr::Simple(simple) => again_simple(alloc, scope, seen, before, simple),
        TypeExpr::Array(_, index, of) => {
            let elaborated = again_simple(alloc, scope, seen, before, index)?;
            again_type(alloc, scope, seen, elaborated, of.get())
        }
        TypeExpr::Record(_, fields) => again_fields(alloc, scope, seen, before, fields.as_slice()),
        TypeExpr::Procedure(_, _, _) => Ok(before),
    }
}

#[cycle(again)]
fn again_fields(
    alloc: Global,
    scope: &mut Scope<Breach>,
    seen: &mut usize,
    before: Elaborated<()>,
    fields: &[Field],
) -> Result<Elaborated<()>, AllocError>
    ensures here { OnOk result (scope.new ≡ scope.old) }
    ensures again { IfOk result (λ j.
        (j, seen.new) ≡ fold (with_field least scope.old) (before, seen.old) fields.now) }
{
    let mut elaborated = before;
    for field in fields {
        elaborated = again_field(alloc, scope, seen, elaborated, field)?;
    }
    Ok(elaborated)
}

#[cycle(again)]
#[tactic(auto, using(crate::proofs::Reading::reads))]
fn again_field(
    alloc: Global,
    scope: &mut Scope<Breach>,
    seen: &mut usize,
    before: Elaborated<()>,
    field: &Field,
) -> Result<Elaborated<()>, AllocError>
    ensures here { OnOk result (scope.new ≡ scope.old) }
    ensures again { IfOk result (λ j.
        (j, seen.new) ≡ again_field least field.now scope.old (before, seen.old)) }
{
    again_type(alloc, scope, seen, before, &field.of)
}

// ---- declarations

fn again_constant(
    alloc: Global,
    scope: &mut Scope<Breach>,
    seen: &mut usize,
    before: Elaborated<()>,
    constant: &Constant,
) -> Result<Elaborated<()>, AllocError>
    ensures here { OnOk result (scope.new ≡ scope.old) }
    ensures again { IfOk result (λ j.
        (j, seen.new) ≡ again_constant least scope.old (before, seen.old) constant.now) }
{
    let elaborated = again_value(alloc, scope, *seen, before, &constant.value)?;
    pass(scope, seen, &constant.name);
    Ok(elaborated)
}

/// Reads the values of constants again.
pub fn again_constants(
    alloc: Global,
    scope: &mut Scope<Breach>,
    seen: &mut usize,
    before: Elaborated<()>,
    list: &[Constant],
) -> Result<Elaborated<()>, AllocError>
    ensures here { OnOk result (scope.new ≡ scope.old) }
    ensures again { IfOk result (λ j.
        (j, seen.new) ≡ fold (again_constant least scope.old) (before, seen.old) list.now) }
{
    let mut elaborated = before;
    for constant in list {
        elaborated = again_constant(alloc, scope, seen, elaborated, constant)?;
    }
    Ok(elaborated)
}

fn again_declared(
    alloc: Global,
    scope: &mut Scope<Breach>,
    seen: &mut usize,
    before: Elaborated<()>,
    decl: &TypeDecl,
) -> Result<Elaborated<()>, AllocError>
    ensures here { OnOk result (scope.new ≡ scope.old) }
    ensures again { IfOk result (λ j.
        (j, seen.new) ≡ again_declared least scope.old (before, seen.old) decl.now) }
{
    pass(scope, seen, &decl.name);
    again_type(alloc, scope, seen, before, &decl.of)
}

/// Reads the bounds in types again.
pub fn again_types(
    alloc: Global,
    scope: &mut Scope<Breach>,
    seen: &mut usize,
    before: Elaborated<()>,
    list: &[TypeDecl],
) -> Result<Elaborated<()>, AllocError>
    ensures here { OnOk result (scope.new ≡ scope.old) }
    ensures again { IfOk result (λ j.
        (j, seen.new) ≡ fold (again_declared least scope.old) (before, seen.old) list.now) }
{
    let mut elaborated = before;
    for decl in list {
        elaborated = again_declared(alloc, scope, seen, elaborated, decl)?;
    }
    Ok(elaborated)
}

fn again_variable_list(
    alloc: Global,
    scope: &mut Scope<Breach>,
    seen: &mut usize,
    before: Elaborated<()>,
    variables: &Variables,
) -> Result<Elaborated<()>, AllocError>
    ensures here { OnOk result (scope.new ≡ scope.old) }
    ensures again { IfOk result (λ j.
        (j, seen.new) ≡ again_variables least scope.old (before, seen.old) variables.now) }
{
    pass_all(scope, seen, variables.names.as_slice());
    again_type(alloc, scope, seen, before, &variables.of)
}

/// Reads the bounds in the types of variables again.
pub fn again_variables(
    alloc: Global,
    scope: &mut Scope<Breach>,
    seen: &mut usize,
    before: Elaborated<()>,
    list: &[Variables],
) -> Result<Elaborated<()>, AllocError>
    ensures here { OnOk result (scope.new ≡ scope.old) }
    ensures again { IfOk result (λ j.
        (j, seen.new) ≡ fold (again_variables least scope.old) (before, seen.old) list.now) }
{
    let mut elaborated = before;
    for variables in list {
        elaborated = again_variable_list(alloc, scope, seen, elaborated, variables)?;
    }
    Ok(elaborated)
}

fn again_def(
    alloc: Global,
    scope: &mut Scope<Breach>,
    seen: &mut usize,
    before: Elaborated<()>,
    def: &Def,
) -> Result<Elaborated<()>, AllocError>
    ensures here { OnOk result (scope.new ≡ scope.old) }
    ensures again { IfOk result (λ j.
        (j, seen.new) ≡ again_def least scope.old (before, seen.old) def.now) }
{
    match def {
        Def::Constants(list) => again_constants(alloc, scope, seen, before, list.as_slice()),
        Def::Types(list) => again_types(alloc, scope, seen, before, list.as_slice()),
        Def::Variables(list) => again_variables(alloc, scope, seen, before, list.as_slice()),
        Def::Procedure(heading) => {
            pass(scope, seen, &heading.name);
            Ok(before)
        }
    }
}

/// Reads the constant expressions of a definition again, the first of which stands behind this many names.
pub fn again_defs(
    alloc: Global,
    scope: &mut Scope<Breach>,
    first: usize,
    before: Elaborated<()>,
    defs: &[Def],
) -> Result<Elaborated<()>, AllocError>
    ensures here { OnOk result (scope.new ≡ scope.old) }
    ensures again { IfOk result (λ j.
        j ≡ (fold (again_def least scope.old) (before, first) defs.now).0) }
{
    let mut seen = first;
    let mut elaborated = before;
    for def in defs {
        elaborated = again_def(alloc, scope, &mut seen, elaborated, def)?;
    }
    Ok(elaborated)
}
