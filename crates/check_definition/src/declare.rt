//! Declarations.

ghost use Rattle.std.specs.Prelude.{◌≡◌, Ok, IfOk, OnOk};
ghost use Rattle.std.specs.List.{fold};
ghost use Rattle.check_scope.specs.Elaborated.{least};
ghost use Rattle.check_definition.specs.Declare.{with_constant, brings_with, with_type, begun_name, owned_meaning, with_variable_type, finished_owned, with_owned, procedure_meaning, with_procedure_type, declared_procedure, with_procedure, with_def};

use check_expr::constant_of;
use check_scope::{Elaborated, Scope, begin, beside, finish, head, heading_means};
use check_type_expr::{heading_of, names_of, nothing_of, type_of, with_made};
use m2_rule::Breach;
use m2_tree::{Constant, Def, Heading, Ident, Simple, TypeDecl, TypeExpr, Variables};
use std::alloc::{AllocError, Global};
use typed_tree::{LocalKind, LocalVariable, Meaning, Procedure, TypeNo, Variable};

// ---- constants

fn with_constant(
    alloc: Global,
    scope: &mut Scope<Breach>,
    before: Elaborated<()>,
    constant: &Constant,
) -> Result<Elaborated<()>, AllocError>
    ensures { IfOk result (λ j.
        (scope.new, j) ≡ with_constant least (scope.old, before) constant.now) }
{
    let first = begin(alloc, scope, &constant.name)?;
    let (means, reported) = match constant_of(alloc, scope, &constant.value)? {
        Err(breach) => (Err(breach), Err(breach)),
        Ok(value) => (Ok(Meaning::Constant(value)), Ok(())),
    };
    finish(alloc, scope, &constant.name, means)?;
    Ok(beside(before, beside(first, reported)))
}

/// Declares constants.
pub fn declare_constants(
    alloc: Global,
    scope: &mut Scope<Breach>,
    before: Elaborated<()>,
    list: &[Constant],
) -> Result<Elaborated<()>, AllocError>
    ensures { IfOk result (λ j.
        (scope.new, j) ≡ fold (with_constant least) (scope.old, before) list.now) }
{
    let mut elaborated = before;
    for constant in list {
        elaborated = with_constant(alloc, scope, elaborated, constant)?;
    }
    Ok(elaborated)
}

// ---- types

/// How many names come with a type: its own, and the constants of an enumeration that it is.
fn brings_with(t: &TypeExpr) -> usize
    ensures { result ≡ brings_with t.now }
{
    match t {
        TypeExpr::Simple(simple) => match simple {
            Simple::Enumeration(_, names) => names.as_slice().len() + 1,
            Simple::Named(_) | Simple::Subrange(_, _, _, _) => 1,
        },
        TypeExpr::Array(_, _, _) | TypeExpr::Record(_, _) | TypeExpr::Procedure(_, _, _) => 1,
    }
}

fn with_type(
    alloc: Global,
    scope: &mut Scope<Breach>,
    before: Elaborated<()>,
    decl: &TypeDecl,
) -> Result<Elaborated<()>, AllocError>
    ensures { IfOk result (λ j. (scope.new, j) ≡ with_type least (scope.old, before) decl.now) }
{
    let first = begin(alloc, scope, &decl.name)?;
    let t = type_of(alloc, scope, &decl.of)?;
    let means = match t {
        Err(breach) => Err(breach),
        Ok(t) => Ok(Meaning::Type(t, brings_with(&decl.of))),
    };
    finish(alloc, scope, &decl.name, means)?;
    Ok(beside(before, beside(first, nothing_of(t))))
}

/// Declares types.
pub fn declare_types(
    alloc: Global,
    scope: &mut Scope<Breach>,
    before: Elaborated<()>,
    list: &[TypeDecl],
) -> Result<Elaborated<()>, AllocError>
    ensures { IfOk result (λ j.
        (scope.new, j) ≡ fold (with_type least) (scope.old, before) list.now) }
{
    let mut elaborated = before;
    for decl in list {
        elaborated = with_type(alloc, scope, elaborated, decl)?;
    }
    Ok(elaborated)
}

// ---- variables

/// What declares variables.
#[derive(Clone, Copy)]
pub enum Owner {
    Module,
    Procedure,
}

/// Begins the declarations of names.
fn begin_all(
    alloc: Global,
    scope: &mut Scope<Breach>,
    before: Elaborated<()>,
    names: &[Ident],
) -> Result<Elaborated<()>, AllocError>
    ensures { IfOk result (λ j.
        (scope.new, j) ≡ fold (begun_name least) (scope.old, before) names.now) }
{
    let mut elaborated = before;
    for name in names {
        let one = begin(alloc, scope, name)?;
        elaborated = beside(elaborated, one);
    }
    Ok(elaborated)
}

fn owned_meaning(scope: &Scope<Breach>, owner: Owner, t: Elaborated<TypeNo>) -> Elaborated<Meaning>
    ensures { result ≡ owned_meaning owner scope.now t }
{
    let number = scope.variables.len();
    match t {
        Err(breach) => Err(breach),
        Ok(of) => Ok(match owner {
            Owner::Module => Meaning::Variable(Variable {
                home: scope.types.home,
                number,
                of,
            }),
            Owner::Procedure => Meaning::Local(LocalVariable {
                level: scope.level,
                number,
                kind: LocalKind::Variable,
                of,
            }),
        }),
    }
}

/// Numbers one more variable of this type.
fn with_variable_type(scope: &mut Scope<Breach>, t: Elaborated<TypeNo>) -> Result<(), AllocError>
    ensures { OnOk result (scope.new ≡ with_variable_type scope.old t) }
{
    match t {
        Err(_) => Ok(()),
        Ok(t) => {
            scope.variables.push(t)?;
            Ok(())
        }
    }
}

fn finish_variable(
    alloc: Global,
    scope: &mut Scope<Breach>,
    owner: Owner,
    t: Elaborated<TypeNo>,
    name: &Ident,
) -> Result<(), AllocError>
    ensures { OnOk result (scope.new ≡ finished_owned owner t scope.old name.now) }
{
    let means = owned_meaning(scope, owner, t);
    with_variable_type(scope, t)?;
    finish(alloc, scope, name, means)
}

fn finish_all(
    alloc: Global,
    scope: &mut Scope<Breach>,
    owner: Owner,
    t: Elaborated<TypeNo>,
    names: &[Ident],
) -> Result<(), AllocError>
    ensures { OnOk result (scope.new ≡ fold (finished_owned owner t) scope.old names.now) }
{
    for name in names {
        finish_variable(alloc, scope, owner, t, name)?;
    }
    Ok(())
}

fn with_variables(
    alloc: Global,
    scope: &mut Scope<Breach>,
    owner: Owner,
    before: Elaborated<()>,
    variables: &Variables,
) -> Result<Elaborated<()>, AllocError>
    ensures { IfOk result (λ j.
        (scope.new, j) ≡ with_owned least owner (scope.old, before) variables.now) }
{
    let elaborated = begin_all(alloc, scope, before, variables.names.as_slice())?;
    let t = type_of(alloc, scope, &variables.of)?;
    finish_all(alloc, scope, owner, t, variables.names.as_slice())?;
    Ok(beside(elaborated, nothing_of(t)))
}

/// Declares variables of a module or of a procedure.
pub fn declare_variables(
    alloc: Global,
    scope: &mut Scope<Breach>,
    owner: Owner,
    before: Elaborated<()>,
    list: &[Variables],
) -> Result<Elaborated<()>, AllocError>
    ensures { IfOk result (λ j.
        (scope.new, j) ≡ fold (with_owned least owner) (scope.old, before) list.now) }
{
    let mut elaborated = before;
    for variables in list {
        elaborated = with_variables(alloc, scope, owner, elaborated, variables)?;
    }
    Ok(elaborated)
}

// ---- procedures

/// What a procedure of a module means, from its number and its heading.
pub fn procedure_meaning(home: u32, number: usize, t: Elaborated<TypeNo>) -> Elaborated<Meaning>
    ensures { result ≡ procedure_meaning home number t }
{
    match t {
        Err(breach) => Err(breach),
        Ok(heading) => Ok(Meaning::Procedure(Procedure {
            home,
            number,
            heading,
        })),
    }
}

/// Numbers one more procedure with this heading.
pub fn with_procedure_type(
    scope: &mut Scope<Breach>,
    t: Elaborated<TypeNo>,
) -> Result<(), AllocError>
    ensures { OnOk result (scope.new ≡ with_procedure_type scope.old t) }
{
    match t {
        Err(_) => Ok(()),
        Ok(t) => {
            scope.procedures.push(t)?;
            Ok(())
        }
    }
}

fn declare_procedure(
    alloc: Global,
    scope: &mut Scope<Breach>,
    name: &Ident,
    t: Elaborated<TypeNo>,
) -> Result<Elaborated<()>, AllocError>
    ensures { IfOk result (λ j. (scope.new, j) ≡ declared_procedure least scope.old name.now t) }
{
    let means = procedure_meaning(scope.types.home, scope.procedures.len(), t);
    with_procedure_type(scope, t)?;
    head(alloc, scope, name, heading_means(false, means))
}

fn with_procedure(
    alloc: Global,
    scope: &mut Scope<Breach>,
    before: Elaborated<()>,
    heading: &Heading,
) -> Result<Elaborated<()>, AllocError>
    ensures { IfOk result (λ j.
        (scope.new, j) ≡ with_procedure least (scope.old, before) heading.now) }
{
    let names = names_of(alloc, heading)?;
    let made = heading_of(alloc, scope, heading)?;
    let t = with_made(scope, made)?;
    let one = declare_procedure(alloc, scope, &heading.name, t)?;
    Ok(beside(before, beside(names, beside(nothing_of(t), one))))
}

// ---- all of them

/// Declares what a definition declares.
pub fn declare_all(
    alloc: Global,
    scope: &mut Scope<Breach>,
    before: Elaborated<()>,
    defs: &[Def],
) -> Result<Elaborated<()>, AllocError>
    ensures { IfOk result (λ j.
        (scope.new, j) ≡ fold (with_def least) (scope.old, before) defs.now) }
{
    let mut elaborated = before;
    for def in defs {
        elaborated = match def {
            Def::Constants(list) => declare_constants(alloc, scope, elaborated, list.as_slice())?,
            Def::Types(list) => declare_types(alloc, scope, elaborated, list.as_slice())?,
            Def::Variables(list) => {
                declare_variables(alloc, scope, Owner::Module, elaborated, list.as_slice())?
            }
            Def::Procedure(heading) => with_procedure(alloc, scope, elaborated, heading)?,
        };
    }
    Ok(elaborated)
}
