//! How many locals for addresses a body needs.

ghost use Rattle.std.specs.Prelude.{◌≡◌, map};
ghost use Rattle.def_scheme.specs.Addresses.{total, addresses_of, addresses_armed, addresses_in};

use emit_buffer::Amount;
use typed_tree::{TypedArm, TypedStmt};

/// The addresses of a statement.
#[cycle(addresses)]
#[tactic(auto, using(crate::proofs::Addressed::variants))]
fn stmt_addresses(stmt: &TypedStmt) -> Amount
    ensures { result ≡ addresses_of stmt.now }
{
    match stmt {
        TypedStmt::Assign(_, _, _) => Amount::of(0),
        TypedStmt::Copy(_, _, _) => Amount::of(0),
        TypedStmt::CopyText(_, _, _) => Amount::of(1),
        TypedStmt::Call(_) => Amount::of(0),
        TypedStmt::Put(_) => Amount::of(0),
        TypedStmt::Change(_, _, _, _) => Amount::of(1),
        TypedStmt::Membership(_, _, _) => Amount::of(1),
        TypedStmt::Halt => Amount::of(0),
        TypedStmt::If(_, body, others) => match others {
            None => addresses_in(body.as_slice()),
            Some(others) => addresses_in(body.as_slice()).plus(&addresses_in(others.as_slice())),
        },
        TypedStmt::Case(_, arms, others) => match others {
            None => arms_addresses(arms.as_slice()),
            Some(others) => arms_addresses(arms.as_slice()).plus(&addresses_in(others.as_slice())),
        },
        TypedStmt::While(_, body) => addresses_in(body.as_slice()),
        TypedStmt::Repeat(body, _) => addresses_in(body.as_slice()),
        TypedStmt::Loop(body) => addresses_in(body.as_slice()),
        TypedStmt::Exit => Amount::of(0),
        TypedStmt::Return => Amount::of(0),
        TypedStmt::Give(_, _) => Amount::of(0),
        TypedStmt::For(_, _, _, _, _, body) => addresses_in(body.as_slice()),
        TypedStmt::With(_, body) => Amount::of(1).plus(&addresses_in(body.as_slice())),
    }
}

/// How many addresses the code of statements keeps in locals.
#[cycle(addresses)]
pub fn addresses_in(stmts: &[TypedStmt]) -> Amount
    ensures { result ≡ addresses_in stmts.now }
{
    let mut all = Amount::of(0);
    for stmt in stmts {
        all = all.plus(&stmt_addresses(stmt));
    }
    all
}

/// The addresses of an arm.
#[cycle(addresses)]
#[tactic(auto, using(crate::proofs::Addressed::variants))]
fn arm_addresses(arm: &TypedArm) -> Amount
    ensures { result ≡ addresses_armed arm.now }
{
    addresses_in(arm.body.as_slice())
}

/// The addresses of the arms of a CASE.
#[cycle(addresses)]
fn arms_addresses(arms: &[TypedArm]) -> Amount
    ensures { result ≡ total (map addresses_armed arms.now) }
{
    let mut all = Amount::of(0);
    for arm in arms {
        all = all.plus(&arm_addresses(arm));
    }
    all
}
