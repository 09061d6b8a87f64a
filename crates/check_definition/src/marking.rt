//! The names that a definition declares, wherever they stand.

ghost use Rattle.std.specs.Prelude.{◌≡◌, OnOk};
ghost use Rattle.std.specs.List.{fold};
ghost use Rattle.check_definition.specs.Marking.{marked_later, marked_simple, marked_in, marked_field, marked_constant, marked_type, marked_variables, marked_def, marked_with_field};

use check_scope::{Known, Scope, mark};
use m2_rule::Breach;
use m2_tree::{Constant, Def, Field, Ident, Simple, TypeDecl, TypeExpr, Variables};
use std::alloc::{AllocError, Global};

fn mark_names(alloc: Global, scope: &mut Scope<Breach>, names: &[Ident]) -> Result<(), AllocError>
    ensures { OnOk result (scope.new ≡ fold marked_later scope.old names.now) }
{
    for name in names {
        mark(alloc, scope, name, Known::Later)?;
    }
    Ok(())
}

fn mark_simple(alloc: Global, scope: &mut Scope<Breach>, t: &Simple) -> Result<(), AllocError>
    ensures { OnOk result (scope.new ≡ marked_simple t.now scope.old) }
{
    match t {
        Simple::Enumeration(_, names) => mark_names(alloc, scope, names.as_slice()),
        Simple::Named(_) => Ok(()),
        Simple::Subrange(_, _, _, _) => Ok(()),
    }
}

/// Marks the constants of the enumerations in a type.
#[cycle(marks)]
#[tactic(auto, using(crate::proofs::Marks::marks))]
fn mark_in(alloc: Global, scope: &mut Scope<Breach>, t: &TypeExpr) -> Result<(), AllocError>
    ensures { OnOk result (scope.new ≡ marked_in t.now scope.old) }
{
    match t {
        TypeExpr::Simple(simple) => mark_simple(alloc, scope, simple),
        TypeExpr::Array(_, index, of) => {
            mark_simple(alloc, scope, index)?;
            mark_in(alloc, scope, of.get())
        }
        TypeExpr::Record(_, fields) => mark_fields(alloc, scope, fields.as_slice()),
        TypeExpr::Procedure(_, _, _) => Ok(()),
    }
}

#[cycle(marks)]
fn mark_fields(alloc: Global, scope: &mut Scope<Breach>, fields: &[Field]) -> Result<(), AllocError>
    ensures { OnOk result (scope.new ≡ fold marked_with_field scope.old fields.now) }
{
    for field in fields {
        mark_field(alloc, scope, field)?;
    }
    Ok(())
}

#[cycle(marks)]
#[tactic(auto, using(crate::proofs::Marks::marks))]
fn mark_field(alloc: Global, scope: &mut Scope<Breach>, field: &Field) -> Result<(), AllocError>
    ensures { OnOk result (scope.new ≡ marked_field field.now scope.old) }
{
    mark_in(alloc, scope, &field.of)
}

/// Marks the names of constants.
pub fn mark_constants(
    alloc: Global,
    scope: &mut Scope<Breach>,
    list: &[Constant],
) -> Result<(), AllocError>
    ensures { OnOk result (scope.new ≡ fold marked_constant scope.old list.now) }
{
    for constant in list {
        mark(alloc, scope, &constant.name, Known::Later)?;
    }
    Ok(())
}

/// Marks the names of types, and the constants in them.
pub fn mark_types(
    alloc: Global,
    scope: &mut Scope<Breach>,
    list: &[TypeDecl],
) -> Result<(), AllocError>
    ensures { OnOk result (scope.new ≡ fold marked_type scope.old list.now) }
{
    for decl in list {
        mark(alloc, scope, &decl.name, Known::Later)?;
        mark_in(alloc, scope, &decl.of)?;
    }
    Ok(())
}

/// Marks the names of variables, and the constants in their types.
pub fn mark_variables(
    alloc: Global,
    scope: &mut Scope<Breach>,
    list: &[Variables],
) -> Result<(), AllocError>
    ensures { OnOk result (scope.new ≡ fold marked_variables scope.old list.now) }
{
    for variables in list {
        mark_names(alloc, scope, variables.names.as_slice())?;
        mark_in(alloc, scope, &variables.of)?;
    }
    Ok(())
}

/// Marks the names that a definition declares.
pub fn mark_defs(alloc: Global, scope: &mut Scope<Breach>, defs: &[Def]) -> Result<(), AllocError>
    ensures { OnOk result (scope.new ≡ fold marked_def scope.old defs.now) }
{
    for def in defs {
        match def {
            Def::Constants(list) => mark_constants(alloc, scope, list.as_slice())?,
            Def::Types(list) => mark_types(alloc, scope, list.as_slice())?,
            Def::Variables(list) => mark_variables(alloc, scope, list.as_slice())?,
            Def::Procedure(heading) => mark(alloc, scope, &heading.name, Known::Ahead)?,
        }
    }
    Ok(())
}
