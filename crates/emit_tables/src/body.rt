//! The characters of the strings that bodies keep.

ghost use Rattle.std.specs.Prelude.{◌≡◌, ◌++◌, slice_get, OnOk};
ghost use Rattle.std.specs.List.{flat_map};
ghost use Rattle.std.specs.Option.{option_copied};
ghost use Rattle.layout_storage.specs.Texts.{texts_in, texts_armed, body_texts, routine_texts, which_texts};
ghost use Rattle.def_scheme.specs.Modules.{all_characters};
ghost use Rattle.emit_tables.specs.Written.{stmt_written, arm_written};

use crate::characters::Characters;
use crate::expr::{push_call, push_expr, push_place};
use std::alloc::AllocError;
use typed_tree::{Routine, TypedArm, TypedModule, TypedStmt, Which};

/// Appends the characters of a statement.
#[cycle(bodies)]
#[tactic(auto, using(crate::proofs::TextBodies::stmt_variants))]
fn push_stmt(characters: &mut Characters, stmt: &TypedStmt) -> Result<(), AllocError>
    ensures { OnOk result (characters.new ≡ characters.old ++ all_characters (texts_in stmt.now)) }
{
    match stmt {
        TypedStmt::Assign(place, _, e) => {
            push_place(characters, place)?;
            push_expr(characters, e)
        }
        TypedStmt::Copy(to, from, _) => {
            push_place(characters, to)?;
            push_place(characters, from)
        }
        TypedStmt::CopyText(place, _, text) => {
            push_place(characters, place)?;
            characters.push_text(text.get().as_bytes())
        }
        TypedStmt::Call(call) => push_call(characters, call),
        TypedStmt::Put(e) => push_expr(characters, e),
        TypedStmt::Change(_, place, _, e) => {
            push_place(characters, place)?;
            push_expr(characters, e)
        }
        TypedStmt::Membership(_, place, e) => {
            push_place(characters, place)?;
            push_expr(characters, e)
        }
        TypedStmt::Halt => Ok(()),
        TypedStmt::If(e, body, others) => match others {
            None => {
                push_expr(characters, e)?;
                push_stmts(characters, body.as_slice())
            }
            Some(others) => {
                push_expr(characters, e)?;
                push_stmts(characters, body.as_slice())?;
                push_stmts(characters, others.as_slice())
            }
        },
        TypedStmt::Case(e, arms, others) => match others {
            None => {
                push_expr(characters, e)?;
                push_arms(characters, arms.as_slice())
            }
            Some(others) => {
                push_expr(characters, e)?;
                push_arms(characters, arms.as_slice())?;
                push_stmts(characters, others.as_slice())
            }
        },
        TypedStmt::While(e, body) => {
            push_expr(characters, e)?;
            push_stmts(characters, body.as_slice())
        }
        TypedStmt::Repeat(body, e) => {
            push_stmts(characters, body.as_slice())?;
            push_expr(characters, e)
        }
        TypedStmt::Loop(body) => push_stmts(characters, body.as_slice()),
        TypedStmt::Exit => Ok(()),
        TypedStmt::Return => Ok(()),
        TypedStmt::Give(_, e) => push_expr(characters, e),
        TypedStmt::For(place, _, start, limit, _, body) => {
            push_place(characters, place)?;
            push_expr(characters, start)?;
            push_expr(characters, limit)?;
            push_stmts(characters, body.as_slice())
        }
        TypedStmt::With(place, body) => {
            push_place(characters, place)?;
            push_stmts(characters, body.as_slice())
        }
    }
}

/// Appends the characters of statements.
#[cycle(bodies)]
fn push_stmts(characters: &mut Characters, stmts: &[TypedStmt]) -> Result<(), AllocError>
    ensures { OnOk result (characters.new ≡ characters.old ++ flat_map stmt_written stmts.now) }
{
    for stmt in stmts {
        push_stmt(characters, stmt)?;
    }
    Ok(())
}

/// Appends the characters of an arm.
#[cycle(bodies)]
#[tactic(auto, using(crate::proofs::TextBodies::stmt_variants))]
fn push_arm(characters: &mut Characters, arm: &TypedArm) -> Result<(), AllocError>
    ensures { OnOk result
        (characters.new ≡ characters.old ++ all_characters (texts_armed arm.now)) }
{
    push_stmts(characters, arm.body.as_slice())
}

/// Appends the characters of the arms of a CASE.
#[cycle(bodies)]
fn push_arms(characters: &mut Characters, arms: &[TypedArm]) -> Result<(), AllocError>
    ensures { OnOk result (characters.new ≡ characters.old ++ flat_map arm_written arms.now) }
{
    for arm in arms {
        push_arm(characters, arm)?;
    }
    Ok(())
}

/// Appends the characters of a body.
#[tactic(auto, using(crate::proofs::TextBodies::body_is))]
pub fn push_body(characters: &mut Characters, body: &[TypedStmt]) -> Result<(), AllocError>
    ensures { OnOk result
        (characters.new ≡ characters.old ++ all_characters (body_texts body.now)) }
{
    push_stmts(characters, body)
}

/// Appends the characters of the body of a procedure, if it is there.
fn push_routine(characters: &mut Characters, routine: Option<&Routine>) -> Result<(), AllocError>
    ensures { OnOk result
        (characters.new
        ≡ characters.old ++ all_characters (routine_texts (option_copied routine.entry))) }
{
    match routine {
        None => Ok(()),
        Some(routine) => push_body(characters, routine.body.as_slice()),
    }
}

/// Appends the characters of the body of a procedure of a module.
pub fn push_which(
    characters: &mut Characters,
    module_body: &TypedModule,
    which: Which,
) -> Result<(), AllocError>
    ensures { OnOk result
        (characters.new ≡ characters.old ++ all_characters (which_texts module_body.now which)) }
{
    match which {
        Which::Module(number) => push_routine(characters, module_body.procedures.get(number)),
        Which::Local(number) => push_routine(characters, module_body.locals.get(number)),
    }
}
