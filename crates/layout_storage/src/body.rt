//! How many characters the strings have that a module keeps.

ghost use Rattle.std.specs.Prelude.{◌≡◌, slice_get};
ghost use Rattle.std.specs.List.{fold};
ghost use Rattle.std.specs.Option.{option_copied};
ghost use Rattle.layout_storage.specs.Texts.{texts_in, texts_armed, body_texts, routine_texts, routines_texts, module_texts};
ghost use Rattle.layout_storage.specs.Counted.{character_count, with_stmt, with_arm, with_which};

use crate::capped::{cap_size, sum};
use crate::counted::{call_count, expr_count, place_count};
use typed_tree::{Routine, TypedArm, TypedModule, TypedStmt, Which};

/// The characters of a statement.
#[cycle(bodies)]
#[tactic(auto, using(crate::proofs::Bodies::stmt_variants))]
fn stmt_count(stmt: &TypedStmt) -> u32
    ensures { result ≡ character_count (texts_in stmt.now) }
{
    match stmt {
        TypedStmt::Assign(place, _, e) => sum(place_count(place), expr_count(e)),
        TypedStmt::Copy(to, from, _) => sum(place_count(to), place_count(from)),
        TypedStmt::CopyText(place, _, text) => {
            sum(
                place_count(place),
                cap_size(text.get().as_bytes().len() as u64),
            )
        }
        TypedStmt::Call(call) => call_count(call),
        TypedStmt::Put(e) => expr_count(e),
        TypedStmt::Change(_, place, _, e) => sum(place_count(place), expr_count(e)),
        TypedStmt::Membership(_, place, e) => sum(place_count(place), expr_count(e)),
        TypedStmt::Halt => 0,
        TypedStmt::If(e, body, others) => match others {
            None => sum(expr_count(e), stmts_count(body.as_slice())),
            Some(others) => sum(
                expr_count(e),
                sum(stmts_count(body.as_slice()), stmts_count(others.as_slice())),
            ),
        },
        TypedStmt::Case(e, arms, others) => match others {
            None => sum(expr_count(e), arms_count(arms.as_slice())),
            Some(others) => sum(
                expr_count(e),
                sum(arms_count(arms.as_slice()), stmts_count(others.as_slice())),
            ),
        },
        TypedStmt::While(e, body) => sum(expr_count(e), stmts_count(body.as_slice())),
        TypedStmt::Repeat(body, e) => sum(stmts_count(body.as_slice()), expr_count(e)),
        TypedStmt::Loop(body) => stmts_count(body.as_slice()),
        TypedStmt::Exit => 0,
        TypedStmt::Return => 0,
        TypedStmt::Give(_, e) => expr_count(e),
        TypedStmt::For(place, _, start, limit, _, body) => sum(
            place_count(place),
            sum(
                expr_count(start),
                sum(expr_count(limit), stmts_count(body.as_slice())),
            ),
        ),
        TypedStmt::With(place, body) => sum(place_count(place), stmts_count(body.as_slice())),
    }
}

/// The characters of statements.
#[cycle(bodies)]
fn stmts_count(stmts: &[TypedStmt]) -> u32
    ensures { result ≡ fold with_stmt 0 stmts.now }
{
    let mut all = 0;
    for stmt in stmts {
        all = sum(all, stmt_count(stmt));
    }
    all
}

/// The characters of an arm.
#[cycle(bodies)]
#[tactic(auto, using(crate::proofs::Bodies::stmt_variants))]
fn arm_count(arm: &TypedArm) -> u32
    ensures { result ≡ character_count (texts_armed arm.now) }
{
    stmts_count(arm.body.as_slice())
}

/// The characters of the arms of a CASE.
#[cycle(bodies)]
fn arms_count(arms: &[TypedArm]) -> u32
    ensures { result ≡ fold with_arm 0 arms.now }
{
    let mut all = 0;
    for arm in arms {
        all = sum(all, arm_count(arm));
    }
    all
}

/// The characters of a body.
#[tactic(auto, using(crate::proofs::Bodies::body_is))]
fn body_count(body: &[TypedStmt]) -> u32
    ensures { result ≡ character_count (body_texts body.now) }
{
    stmts_count(body)
}

fn routine_count(routine: Option<&Routine>) -> u32
    ensures { result ≡ character_count (routine_texts (option_copied routine.entry)) }
{
    match routine {
        None => 0,
        Some(routine) => body_count(routine.body.as_slice()),
    }
}

fn routines_count(module_body: &TypedModule) -> u32
    ensures { result ≡ fold (with_which module_body.now) 0 module_body.now.order }
{
    let mut all = 0;
    for which in module_body.order.as_slice() {
        let routine = match which {
            Which::Module(number) => module_body.procedures.get(*number),
            Which::Local(number) => module_body.locals.get(*number),
        };
        all = sum(all, routine_count(routine));
    }
    all
}

/// The characters of all strings that a module keeps.
pub fn texts_count(module_body: &TypedModule) -> u32
    ensures { result ≡ character_count (module_texts module_body.now) }
{
    sum(
        routines_count(module_body),
        body_count(module_body.body.as_slice()),
    )
}
