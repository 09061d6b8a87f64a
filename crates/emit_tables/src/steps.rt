//! The types of functions that bodies need.

ghost use Rattle.std.specs.Prelude.{◌≡◌, OnOk};
ghost use Rattle.std.specs.List.{fold};
ghost use Rattle.def_scheme.specs.Signatures.{of_step, of_routine, signatures_needed};
ghost use Rattle.emit_tables.specs.Marked.{with_all};
ghost use Rattle.emit_tables.specs.Needed.{of_arm, with_step, with_arm, with_routine};

use crate::exprs::{call_marks, expr_marks, place_marks};
use crate::heading::{has_result, numbers_of};
use crate::marks::{Mark, mark_signature};
use std::alloc::AllocError;
use typed_tree::{Routine, TypedArm, TypedModule, TypedStmt};

/// Marks what a statement needs.
#[cycle(marked)]
#[tactic(auto, using(crate::proofs::Bodies::stmt_variants))]
fn stmt_marks(
    module_body: &TypedModule,
    marks: &mut Vec<Mark>,
    stmt: &TypedStmt,
) -> Result<(), AllocError>
    ensures { let ss = of_step module_body.now stmt.now in
        OnOk result (marks.new.items ≡ with_all ss marks.old.items) }
{
    match stmt {
        TypedStmt::Assign(place, _, e) => {
            place_marks(module_body, marks, place)?;
            expr_marks(module_body, marks, e)
        }
        TypedStmt::Copy(to, from, _) => {
            place_marks(module_body, marks, to)?;
            place_marks(module_body, marks, from)
        }
        TypedStmt::CopyText(place, _, _) => place_marks(module_body, marks, place),
        TypedStmt::Call(call) => call_marks(module_body, marks, call),
        TypedStmt::Put(e) => expr_marks(module_body, marks, e),
        TypedStmt::Change(_, place, _, e) => {
            place_marks(module_body, marks, place)?;
            expr_marks(module_body, marks, e)
        }
        TypedStmt::Membership(_, place, e) => {
            place_marks(module_body, marks, place)?;
            expr_marks(module_body, marks, e)
        }
        TypedStmt::Halt => Ok(()),
        TypedStmt::If(e, body, others) => match others {
            None => {
                expr_marks(module_body, marks, e)?;
                stmts_marks(module_body, marks, body.as_slice())
            }
            Some(others) => {
                expr_marks(module_body, marks, e)?;
                stmts_marks(module_body, marks, body.as_slice())?;
                stmts_marks(module_body, marks, others.as_slice())
            }
        },
        TypedStmt::Case(e, arms, others) => match others {
            None => {
                expr_marks(module_body, marks, e)?;
                arms_marks(module_body, marks, arms.as_slice())
            }
            Some(others) => {
                expr_marks(module_body, marks, e)?;
                arms_marks(module_body, marks, arms.as_slice())?;
                stmts_marks(module_body, marks, others.as_slice())
            }
        },
        TypedStmt::While(e, body) => {
            expr_marks(module_body, marks, e)?;
            stmts_marks(module_body, marks, body.as_slice())
        }
        TypedStmt::Repeat(body, e) => {
            stmts_marks(module_body, marks, body.as_slice())?;
            expr_marks(module_body, marks, e)
        }
        TypedStmt::Loop(body) => stmts_marks(module_body, marks, body.as_slice()),
        TypedStmt::Exit => Ok(()),
        TypedStmt::Return => Ok(()),
        TypedStmt::Give(_, e) => expr_marks(module_body, marks, e),
        TypedStmt::For(place, _, start, limit, _, body) => {
            place_marks(module_body, marks, place)?;
            expr_marks(module_body, marks, start)?;
            expr_marks(module_body, marks, limit)?;
            stmts_marks(module_body, marks, body.as_slice())
        }
        TypedStmt::With(place, body) => {
            place_marks(module_body, marks, place)?;
            stmts_marks(module_body, marks, body.as_slice())
        }
    }
}

/// Marks what statements need.
#[cycle(marked)]
fn stmts_marks(
    module_body: &TypedModule,
    marks: &mut Vec<Mark>,
    stmts: &[TypedStmt],
) -> Result<(), AllocError>
    ensures { let with = with_step module_body.now in
        OnOk result (marks.new.items ≡ fold with marks.old.items stmts.now) }
{
    for stmt in stmts {
        stmt_marks(module_body, marks, stmt)?;
    }
    Ok(())
}

/// Marks what an arm of a CASE needs.
#[cycle(marked)]
#[tactic(auto, using(crate::proofs::Bodies::stmt_variants))]
fn arm_marks(
    module_body: &TypedModule,
    marks: &mut Vec<Mark>,
    arm: &TypedArm,
) -> Result<(), AllocError>
    ensures { let ss = of_arm module_body.now arm.now in
        OnOk result (marks.new.items ≡ with_all ss marks.old.items) }
{
    stmts_marks(module_body, marks, arm.body.as_slice())
}

/// Marks what the arms of a CASE need.
#[cycle(marked)]
fn arms_marks(
    module_body: &TypedModule,
    marks: &mut Vec<Mark>,
    arms: &[TypedArm],
) -> Result<(), AllocError>
    ensures { let with = with_arm module_body.now in
        OnOk result (marks.new.items ≡ fold with marks.old.items arms.now) }
{
    for arm in arms {
        arm_marks(module_body, marks, arm)?;
    }
    Ok(())
}

/// Marks the type of a procedure, and what its body needs.
#[tactic(auto, using(crate::proofs::Bodies::routine_is))]
fn routine_marks(
    module_body: &TypedModule,
    marks: &mut Vec<Mark>,
    routine: &Routine,
) -> Result<(), AllocError>
    ensures { let ss = of_routine module_body.now routine.now in
        OnOk result (marks.new.items ≡ with_all ss marks.old.items) }
{
    let types = &module_body.types;
    mark_signature(
        marks,
        numbers_of(types, routine),
        has_result(types, routine.heading),
    )?;
    stmts_marks(module_body, marks, routine.body.as_slice())
}

fn routines_marks(
    module_body: &TypedModule,
    marks: &mut Vec<Mark>,
    routines: &[Routine],
) -> Result<(), AllocError>
    ensures { let with = with_routine module_body.now in
        OnOk result (marks.new.items ≡ fold with marks.old.items routines.now) }
{
    for routine in routines {
        routine_marks(module_body, marks, routine)?;
    }
    Ok(())
}

/// Marks all that a module needs.
#[tactic(auto, using(crate::proofs::Bodies::module_is))]
pub fn module_marks(module_body: &TypedModule, marks: &mut Vec<Mark>) -> Result<(), AllocError>
    ensures { let ss = signatures_needed module_body.now in
        OnOk result (marks.new.items ≡ with_all ss marks.old.items) }
{
    routines_marks(module_body, marks, module_body.procedures.as_slice())?;
    routines_marks(module_body, marks, module_body.locals.as_slice())?;
    stmts_marks(module_body, marks, module_body.body.as_slice())
}
