//! Typed statements.

use crate::exprs::{show_call, show_operand, show_place, show_value};
use crate::rows::typed_row;
use itoa::Buffer;
use show_code::Page;
use typed_tree::{
    Change, Label, Membership, Place, TypeNo, TypedArm, TypedExpr, TypedModule, TypedStmt,
};

/// How INC or DEC is written.
fn change_word(change: Change) -> &'static str {
    match change {
        Change::Increase => "INC",
        Change::Decrease => "DEC",
    }
}

/// How INCL or EXCL is written.
fn membership_word(membership: Membership) -> &'static str {
    match membership {
        Membership::Include => "INCL",
        Membership::Exclude => "EXCL",
    }
}

/// The word of a statement that changes a variable, with the variable's type, and the variable below.
fn show_changed(
    page: &mut Page,
    module: &TypedModule,
    level: usize,
    word: &str,
    t: TypeNo,
    place: &Place,
) {
    typed_row(page, module, level, &[word.as_bytes()], t);
    show_place(page, module, level.saturating_add(1), place);
}

/// A word, and below it an expression.
fn show_part(page: &mut Page, module: &TypedModule, level: usize, word: &str, e: &TypedExpr) {
    page.row(level, &[word.as_bytes()]);
    show_value(page, module, level.saturating_add(1), e);
}

/// A word, and below it a call.
fn show_called(page: &mut Page, module: &TypedModule, level: usize, stmt: &TypedStmt) {
    match stmt {
        TypedStmt::Call(call) => show_call(page, module, level, call),
        TypedStmt::Put(e) => show_part(page, module, level, "Put", e),
        TypedStmt::Give(t, e) => show_operand(page, module, level, "RETURN", *t, e),
        TypedStmt::Halt => page.row(level, &[b"HALT"]),
        TypedStmt::Exit => page.row(level, &[b"EXIT"]),
        TypedStmt::Return => page.row(level, &[b"RETURN"]),
        _ => {}
    }
}

/// A statement that changes a variable.
fn show_change(page: &mut Page, module: &TypedModule, level: usize, stmt: &TypedStmt) {
    let inner = level.saturating_add(1);
    match stmt {
        TypedStmt::Assign(to, t, e) => {
            show_changed(page, module, level, ":=", *t, to);
            show_value(page, module, inner, e);
        }
        TypedStmt::Copy(to, from, t) => {
            show_changed(page, module, level, ":=", *t, to);
            show_place(page, module, inner, from);
        }
        TypedStmt::CopyText(to, t, text) => {
            show_changed(page, module, level, ":=", *t, to);
            page.row(inner, &[b"string '", text.get().as_bytes(), b"'"]);
        }
        TypedStmt::Change(change, place, t, e) => {
            show_changed(page, module, level, change_word(*change), *t, place);
            show_value(page, module, inner, e);
        }
        TypedStmt::Membership(membership, place, e) => {
            page.row(level, &[membership_word(*membership).as_bytes()]);
            show_place(page, module, inner, place);
            show_value(page, module, inner, e);
        }
        _ => {}
    }
}

/// The labels of an arm of a CASE, each by its least and its greatest number.
fn show_labels(page: &mut Page, level: usize, labels: &[Label]) {
    for label in labels {
        let mut low = Buffer::new();
        let mut high = Buffer::new();
        page.row(
            level,
            &[
                b"label ",
                low.format(label.low).as_bytes(),
                b"..",
                high.format(label.high).as_bytes(),
            ],
        );
    }
}

/// What stands between FOR and DO.
fn show_course(
    page: &mut Page,
    module: &TypedModule,
    level: usize,
    t: TypeNo,
    control: &Place,
    start: &TypedExpr,
    limit: &TypedExpr,
    step: i64,
) {
    let inner = level.saturating_add(1);
    let mut digits = Buffer::new();
    typed_row(page, module, level, &[b"FOR"], t);
    show_place(page, module, inner, control);
    show_value(page, module, inner, start);
    show_part(page, module, inner, "TO", limit);
    page.row(inner, &[b"BY ", digits.format(step).as_bytes()]);
}

/// A typed statement.
#[cycle(statement)]
fn show_stmt(page: &mut Page, module: &TypedModule, level: usize, stmt: &TypedStmt) {
    match stmt {
        TypedStmt::Assign(_, _, _)
        | TypedStmt::Copy(_, _, _)
        | TypedStmt::CopyText(_, _, _)
        | TypedStmt::Change(_, _, _, _)
        | TypedStmt::Membership(_, _, _) => show_change(page, module, level, stmt),
        TypedStmt::Call(_)
        | TypedStmt::Put(_)
        | TypedStmt::Give(_, _)
        | TypedStmt::Halt
        | TypedStmt::Exit
        | TypedStmt::Return => show_called(page, module, level, stmt),
        TypedStmt::If(condition, body, others) => {
            show_part(page, module, level, "IF", condition);
            show_body(page, module, level, body.as_slice());
            match others {
                None => {}
                Some(stmts) => show_else(page, module, level, stmts.as_slice()),
            }
        }
        TypedStmt::Case(selector, arms, others) => {
            show_part(page, module, level, "CASE", selector);
            show_arms(page, module, level, arms.as_slice());
            match others {
                None => {}
                Some(stmts) => show_else(page, module, level, stmts.as_slice()),
            }
        }
        TypedStmt::While(condition, body) => {
            show_part(page, module, level, "WHILE", condition);
            show_body(page, module, level, body.as_slice());
        }
        TypedStmt::Repeat(body, condition) => {
            page.row(level, &[b"REPEAT"]);
            show_body(page, module, level, body.as_slice());
            show_part(page, module, level, "UNTIL", condition);
        }
        TypedStmt::Loop(body) => {
            page.row(level, &[b"LOOP"]);
            show_body(page, module, level, body.as_slice());
        }
        TypedStmt::For(control, t, start, limit, step, body) => {
            show_course(page, module, level, *t, control, start, limit, *step);
            show_body(page, module, level, body.as_slice());
        }
        TypedStmt::With(place, body) => {
            page.row(level, &[b"WITH"]);
            show_place(page, module, level.saturating_add(1), place);
            show_body(page, module, level, body.as_slice());
        }
    }
}

/// The body of a statement.
#[cycle(statement)]
fn show_body(page: &mut Page, module: &TypedModule, level: usize, body: &[TypedStmt]) {
    let inner = level.saturating_add(1);
    page.row(inner, &[b"body"]);
    show_stmts(page, module, inner.saturating_add(1), body);
}

/// What stands behind ELSE.
#[cycle(statement)]
fn show_else(page: &mut Page, module: &TypedModule, level: usize, body: &[TypedStmt]) {
    page.row(level, &[b"ELSE"]);
    show_stmts(page, module, level.saturating_add(1), body);
}

/// The arms of a CASE, each with its labels and its statements.
#[cycle(statement)]
fn show_arms(page: &mut Page, module: &TypedModule, level: usize, arms: &[TypedArm]) {
    for arm in arms {
        show_labels(page, level.saturating_add(1), arm.labels.as_slice());
        show_body(page, module, level, arm.body.as_slice());
    }
}

/// Typed statements, one behind another.
#[cycle(statement)]
pub fn show_stmts(page: &mut Page, module: &TypedModule, level: usize, stmts: &[TypedStmt]) {
    for stmt in stmts {
        show_stmt(page, module, level, stmt);
    }
}
