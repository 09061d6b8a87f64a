//! Into the body of a procedure, and out of it.

ghost use Rattle.std.specs.Prelude.{◌≡◌, IfOk, OnOk};
ghost use Rattle.check_scope.specs.Elaborated.{least};
ghost use Rattle.check_body.specs.Inside.{which_of, begun_procedure, with_routine, ended_procedure};

use crate::{Bodies, Numbered, begin_at, fill, procedure_named, routine_of};
use check_block::enter;
use check_scope::{Elaborated, Outside, Scope, beside, step_out};
use m2_rule::Breach;
use m2_tree::{Heading, Ident};
use std::alloc::{AllocError, Global};
use tree_parts::Items;
use typed_tree::{TypeNo, TypedStmt, Which};

/// How far the bodies of a module are checked.
#[derive(Drop)]
pub struct Walk<T> {
    pub scope: Scope<T>,
    /// What is reported so far.
    pub so_far: Result<(), T>,
    pub bodies: Bodies,
}

/// What is kept of a procedure up to its end.
#[derive(Drop)]
pub struct Begun<T> {
    /// What is put back behind it.
    pub outside: Outside,
    /// Which procedure it is, if its heading means something.
    pub procedure: Option<Numbered>,
    /// How many of the types of its variables are types of its formals.
    pub formals: usize,
    /// The type of what it returns, if it returns something.
    pub returns: Option<Result<TypeNo, T>>,
}

// ---- inwards

/// The procedure of a number, if there is one.
pub fn which_of(procedure: Option<Numbered>) -> Option<Which>
    ensures { result ≡ which_of procedure }
{
    match procedure {
        None => None,
        Some(procedure) => Some(procedure.which),
    }
}

/// Begins the body of a procedure of a block. `seen` names of the block stand before it. The only error is that memory
/// ran out.
pub fn begin_procedure(
    alloc: Global,
    walk: &mut Walk<Breach>,
    seen: usize,
    heading: &Heading,
) -> Result<Begun<Breach>, AllocError>
    ensures { IfOk result (λ b. (walk.new, b) ≡ begun_procedure least walk.old seen heading.now) }
{
    let procedure = procedure_named(&walk.scope, &heading.name);
    begin_at(alloc, &mut walk.bodies, walk.scope.level)?;
    let entered = enter(alloc, &mut walk.scope, seen, heading)?;
    let returns = match entered.result {
        Err(breach) => Some(Err(breach)),
        Ok(None) => None,
        Ok(Some(t)) => Some(Ok(t)),
    };
    Ok(Begun {
        outside: entered.outside,
        procedure,
        formals: walk.scope.variables.len(),
        returns,
    })
}

// ---- outwards

fn fill_with(
    alloc: Global,
    walk: &mut Walk<Breach>,
    name: &Ident,
    around: Option<Which>,
    formals: usize,
    procedure: Option<Numbered>,
    body: Elaborated<Items<TypedStmt>>,
) -> Result<(), AllocError>
    ensures { OnOk result (walk.new ≡ record walk.old {
      bodies =
          with_routine walk.old.scope name.now around formals procedure body walk.old.bodies;
    }) }
{
    let Some(procedure) = procedure else {
        return Ok(());
    };
    let Ok(body) = body else {
        return Ok(());
    };
    let scope = &walk.scope;
    let routine = routine_of(alloc, scope, name, procedure, around, formals, body)?;
    fill(&mut walk.bodies, procedure.which, routine)
}

/// Ends the body of a procedure. The only error is that memory ran out.
pub fn end_procedure(
    alloc: Global,
    walk: &mut Walk<Breach>,
    name: &Ident,
    around: Option<Which>,
    begun: Begun<Breach>,
    body: Elaborated<Items<TypedStmt>>,
) -> Result<(), AllocError>
    ensures { OnOk result
        (walk.new ≡ ended_procedure least name.now around begun (walk.old, body)) }
{
    let reported = match &body {
        Err(breach) => Err(*breach),
        Ok(_) => Ok(()),
    };
    walk.so_far = beside(walk.so_far, reported);
    fill_with(
        alloc,
        walk,
        name,
        around,
        begun.formals,
        begun.procedure,
        body,
    )?;
    step_out(alloc, &mut walk.scope, begun.outside);
    Ok(())
}
