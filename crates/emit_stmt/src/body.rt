//! The code of statements in statements.

ghost use Rattle.std.specs.Prelude.{◌≡◌, ◌∷◌, ◌++◌, [], IfOk, OnOk, length};
ghost use Rattle.emit_buffer.specs.Frames.{setting_of};
ghost use Rattle.emit_buffer.specs.Drafts.{place_of};
ghost use Rattle.emit_stmt.specs.Written.{with_step, with_steps, with_arm, with_arms, with_jump, with_jumps, by_cases};

use crate::cases::{arm_begun, arm_ended, jump_begun, keep_selector, table_begun};
use crate::control::{
    condition, for_begun, for_ended, for_opened, open_turns, record_kept, turn_again, unless,
};
use crate::plan::plan_of;
use crate::simple::{
    assign, call, change, copy, copy_text, exit, give, halt, leave, membership, print,
};
use emit_buffer::{Amount, Draft, Setting, fault};
use m2_rule::Fault;
use std::alloc::{AllocError, Global};
use typed_tree::{TypedArm, TypedStmt};

/// The code of a statement.
#[cycle(body)]
#[tactic(auto, using(crate::proofs::Stepped::step_If_None, crate::proofs::Stepped::step_If_Some, crate::proofs::Stepped::step_While, crate::proofs::Stepped::step_Repeat, crate::proofs::Stepped::step_Loop, crate::proofs::Stepped::step_For, crate::proofs::Stepped::step_With, crate::proofs::Cased::step_Case_None, crate::proofs::Cased::step_Case_Some))]
fn stmt_code(
    alloc: Global,
    setting: &Setting<'_>,
    stmt: &TypedStmt,
    draft: &mut Draft,
) -> Result<(), AllocError>
    ensures { OnOk result (draft.new ≡ with_step (setting_of setting.now) draft.old stmt.now) }
{
    match stmt {
        TypedStmt::Assign(place, t, e) => assign(setting, place, *t, e, draft),
        TypedStmt::Copy(to, from, t) => copy(setting, to, from, *t, draft),
        TypedStmt::CopyText(place, t, text) => {
            copy_text(setting, place, *t, text.get().as_bytes(), draft)
        }
        TypedStmt::Call(called) => call(setting, called, draft),
        TypedStmt::Put(e) => print(setting, e, draft),
        TypedStmt::Change(how, place, t, e) => change(setting, *how, place, *t, e, draft),
        TypedStmt::Membership(how, place, e) => membership(setting, *how, place, e, draft),
        TypedStmt::Halt => halt(setting, draft),
        TypedStmt::If(e, body, others) => {
            condition(setting, e, draft)?;
            let place = draft.open()?;
            let inner = setting.within(1)?;
            body_code(alloc, &inner, body.as_slice(), draft)?;
            match others {
                None => draft.close_if(place, None),
                Some(others) => {
                    let middle = draft.place();
                    body_code(alloc, &inner, others.as_slice(), draft)?;
                    draft.close_if_else(place, middle, None);
                }
            }
            Ok(())
        }
        TypedStmt::Case(e, arms, others) => {
            let t = keep_selector(setting, e, draft)?;
            let place = draft.place();
            cases_code(alloc, setting, &t, arms.as_slice(), draft)?;
            match others {
                None => {
                    fault(Fault::NoLabel, draft)?;
                }
                Some(others) => {
                    let inner = setting.within(1)?;
                    body_code(alloc, &inner, others.as_slice(), draft)?;
                }
            }
            draft.close_block(place, None);
            Ok(())
        }
        TypedStmt::While(e, body) => {
            let turns = open_turns(draft)?;
            let inner = setting.within(2)?;
            unless(&inner, e, 1, draft)?;
            body_code(alloc, &inner, body.as_slice(), draft)?;
            turn_again(turns, draft)
        }
        TypedStmt::Repeat(body, e) => {
            let place = draft.open()?;
            let inner = setting.within(1)?;
            body_code(alloc, &inner, body.as_slice(), draft)?;
            unless(&inner, e, 0, draft)?;
            draft.close_loop(place, None);
            Ok(())
        }
        TypedStmt::Loop(body) => {
            let turns = open_turns(draft)?;
            let inner = setting.leaving(1)?;
            body_code(alloc, &inner, body.as_slice(), draft)?;
            turn_again(turns, draft)
        }
        TypedStmt::Exit => exit(setting, draft),
        TypedStmt::Return => leave(setting, draft),
        TypedStmt::Give(t, e) => give(setting, *t, e, draft),
        TypedStmt::For(place, t, start, limit, by, body) => {
            let n = for_begun(setting, place, *t, start, limit, draft)?;
            let outer = setting.within(1)?;
            let turns = for_opened(&outer, place, *t, *by, &n, draft)?;
            let inner = outer.within(1)?;
            body_code(alloc, &inner, body.as_slice(), draft)?;
            for_ended(&inner, place, *t, *by, &n, turns, draft)
        }
        TypedStmt::With(place, body) => {
            let w = record_kept(setting, place, draft)?;
            let inner = setting.under(&w)?;
            body_code(alloc, &inner, body.as_slice(), draft)
        }
    }
}

/// The code of statements.
#[cycle(body)]
pub fn body_code(
    alloc: Global,
    setting: &Setting<'_>,
    stmts: &[TypedStmt],
    draft: &mut Draft,
) -> Result<(), AllocError>
    ensures { OnOk result (draft.new ≡ with_steps (setting_of setting.now) draft.old stmts.now) }
{
    for stmt in stmts {
        stmt_code(alloc, setting, stmt, draft)?;
    }
    Ok(())
}

/// The code of an arm of a CASE, with the tests of its labels.
#[cycle(body)]
#[tactic(auto, unfolding(crate::specs::Written::with_arm))]
fn arm_code(
    alloc: Global,
    setting: &Setting<'_>,
    t: &Amount,
    arm: &TypedArm,
    draft: &mut Draft,
) -> Result<(), AllocError>
    ensures { OnOk result (draft.new ≡ with_arm t.now (setting_of setting.now) draft.old arm.now) }
{
    let place = arm_begun(t, arm, draft)?;
    let inner = setting.within(1)?;
    body_code(alloc, &inner, arm.body.as_slice(), draft)?;
    arm_ended(place, draft)
}

/// The code of the arms of a CASE, with the tests of their labels.
#[cycle(body)]
fn arms_code(
    alloc: Global,
    setting: &Setting<'_>,
    t: &Amount,
    arms: &[TypedArm],
    draft: &mut Draft,
) -> Result<(), AllocError>
    ensures { OnOk result
        (draft.new ≡ with_arms t.now (setting_of setting.now) draft.old arms.now) }
{
    for arm in arms {
        arm_code(alloc, setting, t, arm, draft)?;
    }
    Ok(())
}

/// The code of an arm of a CASE by a table, with this many arms behind it.
#[cycle(body)]
#[tactic(auto, using(crate::proofs::Cased::deeper_twice), unfolding(crate::specs::Written::with_jump))]
fn jump_code(
    alloc: Global,
    setting: &Setting<'_>,
    place: usize,
    left: usize,
    arm: &TypedArm,
    draft: &mut Draft,
) -> Result<(), AllocError>
    ensures { let s = setting_of setting.now in
        OnOk result (draft.new ≡ with_jump place left s draft.old arm.now) }
{
    jump_begun(place, left, draft);
    let inner = setting.within(left)?.within(2)?;
    body_code(alloc, &inner, arm.body.as_slice(), draft)?;
    draft.branch(&Amount::of(left).plus(&Amount::of(1)))
}

/// The code of the arms of a CASE by a table, whose blocks begin at a place.
#[cycle(body)]
#[tactic(auto, using(crate::proofs::Cased::jump_next))]
fn jumps_code(
    alloc: Global,
    setting: &Setting<'_>,
    place: usize,
    arms: &[TypedArm],
    draft: &mut Draft,
) -> Result<(), AllocError>
    ensures { let s = setting_of setting.now in
        OnOk result (draft.new ≡ with_jumps place s draft.old arms.now) }
{
    let mut left = arms.len();
    for arm in arms {
        left = left.saturating_sub(1);
        jump_code(alloc, setting, place, left, arm, draft)?;
    }
    Ok(())
}

/// The code of the arms of a CASE, up to what is done else.
#[cycle(body)]
#[tactic(auto, unfolding(crate::specs::Written::by_cases))]
fn cases_code(
    alloc: Global,
    setting: &Setting<'_>,
    t: &Amount,
    arms: &[TypedArm],
    draft: &mut Draft,
) -> Result<(), AllocError>
    ensures { OnOk result (draft.new ≡ by_cases t.now (setting_of setting.now) draft.old arms.now) }
{
    match plan_of(arms) {
        None => {
            draft.open()?;
            let inner = setting.within(1)?;
            arms_code(alloc, &inner, t, arms, draft)
        }
        Some(plan) => {
            let begun = table_begun(alloc, t, arms, plan, draft)?;
            jumps_code(alloc, setting, begun.first, arms, draft)?;
            draft.close_block(begun.rest, None);
            Ok(())
        }
    }
}
