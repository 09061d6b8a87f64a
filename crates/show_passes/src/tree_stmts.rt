//! The trees of statements.

use crate::tree_exprs::{show_designator, show_expr, show_exprs, show_items};
use m2_tree::{Arm, Designator, Expr, Ident, Pos, Rest, Stmt};
use show_code::Page;
use tree_parts::Items;

/// An assignment, or a call with or without brackets.
fn show_call(page: &mut Page, level: usize, callee: &Designator, arguments: &Option<Items<Expr>>) {
    let inner = level.saturating_add(1);
    page.row(level, &[b"call"]);
    show_designator(page, inner, callee);
    match arguments {
        None => {}
        Some(arguments) => show_exprs(page, inner, arguments.as_slice()),
    }
}

fn show_assignment(page: &mut Page, level: usize, to: &Designator, value: &Expr) {
    let inner = level.saturating_add(1);
    page.row(level, &[b"assignment"]);
    show_designator(page, inner, to);
    show_expr(page, inner, value);
}

/// RETURN, and the value if there is one.
fn show_return(page: &mut Page, level: usize, pos: Pos, value: &Option<Expr>) {
    page.row_at(level, &[b"RETURN"], pos);
    match value {
        None => {}
        Some(value) => show_expr(page, level.saturating_add(1), value),
    }
}

/// A word, and below it an expression.
fn show_part(page: &mut Page, level: usize, word: &str, e: &Expr) {
    page.row(level, &[word.as_bytes()]);
    show_expr(page, level.saturating_add(1), e);
}

/// What stands between FOR and DO.
fn show_course(page: &mut Page, level: usize, control: &Ident, start: &Expr, limit: &Expr) {
    let inner = level.saturating_add(1);
    page.row_at(level, &[b"FOR ", control.name.as_bytes()], control.pos);
    show_expr(page, inner, start);
    show_part(page, inner, "TO", limit);
}

/// A statement.
#[cycle(stmt)]
fn show_stmt(page: &mut Page, level: usize, stmt: &Stmt) {
    let inner = level.saturating_add(1);
    match stmt {
        Stmt::Assign(to, value) => show_assignment(page, level, to, value),
        Stmt::Call(callee, arguments) => show_call(page, level, callee, arguments),
        Stmt::If(condition, body, rest) => {
            show_guarded(page, level, "IF", body.as_slice(), condition);
            show_rest(page, level, rest.get());
        }
        Stmt::Case(selector, arms, otherwise) => {
            show_part(page, level, "CASE", selector);
            show_arms(page, inner, arms.as_slice());
            match otherwise {
                None => {}
                Some(stmts) => show_else(page, level, stmts.as_slice()),
            }
        }
        Stmt::While(condition, body) => {
            show_guarded(page, level, "WHILE", body.as_slice(), condition);
        }
        Stmt::Repeat(body, condition) => {
            page.row(level, &[b"REPEAT"]);
            show_stmts(page, inner, body.as_slice());
            show_part(page, level, "UNTIL", condition);
        }
        Stmt::Loop(body) => {
            page.row(level, &[b"LOOP"]);
            show_stmts(page, inner, body.as_slice());
        }
        Stmt::Exit(pos) => page.row_at(level, &[b"EXIT"], *pos),
        Stmt::Return(pos, value) => show_return(page, level, *pos, value),
        Stmt::For(control, start, limit, step, body) => {
            show_course(page, level, control, start.get(), limit.get());
            if let Some(step) = step {
                show_part(page, inner, "BY", step.get());
            }
            page.row(inner, &[b"DO"]);
            show_stmts(page, inner.saturating_add(1), body.as_slice());
        }
        Stmt::With(record, body) => {
            page.row(level, &[b"WITH"]);
            show_designator(page, inner, record);
            show_stmts(page, inner, body.as_slice());
        }
    }
}

/// A condition behind a word, and what is done if it holds.
#[cycle(stmt)]
fn show_guarded(page: &mut Page, level: usize, word: &str, body: &[Stmt], condition: &Expr) {
    let inner = level.saturating_add(1);
    show_part(page, level, word, condition);
    page.row(inner, &[b"body"]);
    show_stmts(page, inner.saturating_add(1), body);
}

/// What stands behind ELSE.
#[cycle(stmt)]
fn show_else(page: &mut Page, level: usize, body: &[Stmt]) {
    page.row(level, &[b"ELSE"]);
    show_stmts(page, level.saturating_add(1), body);
}

/// What follows the first part of an IF.
#[cycle(stmt)]
fn show_rest(page: &mut Page, level: usize, rest: &Rest) {
    match rest {
        Rest::Elsif(condition, body, rest) => {
            show_guarded(page, level, "ELSIF", body.as_slice(), condition);
            show_rest(page, level, rest.get());
        }
        Rest::Else(None) => {}
        Rest::Else(Some(body)) => show_else(page, level, body.as_slice()),
    }
}

/// An arm of a CASE: its labels and its statements.
#[cycle(stmt)]
fn show_arm(page: &mut Page, level: usize, arm: &Arm) {
    let inner = level.saturating_add(1);
    page.row(level, &[b"labels"]);
    show_items(page, inner, arm.labels.as_slice());
    page.row(level, &[b"body"]);
    show_stmts(page, inner, arm.body.as_slice());
}

#[cycle(stmt)]
fn show_arms(page: &mut Page, level: usize, arms: &[Arm]) {
    for arm in arms {
        show_arm(page, level, arm);
    }
}

/// Statements, one behind another.
#[cycle(stmt)]
pub fn show_stmts(page: &mut Page, level: usize, stmts: &[Stmt]) {
    for stmt in stmts {
        show_stmt(page, level, stmt);
    }
}
