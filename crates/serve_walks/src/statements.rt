//! The names in statements.

use crate::exprs::{designator, expr, exprs, items, variable};
use crate::walk::Walk;
use m2_tree::{Arm, Designator, Expr, Ident, Rest, Stmt};
use std::alloc::AllocError;
use tree_parts::{Boxed, Items};

fn assignment(walk: &mut Walk, to: &Designator, value: &Expr) -> Result<(), AllocError> {
    variable(walk, to)?;
    expr(walk, value)
}

fn call(
    walk: &mut Walk,
    callee: &Designator,
    arguments: &Option<Items<Expr>>,
) -> Result<(), AllocError> {
    variable(walk, callee)?;
    match arguments {
        None => Ok(()),
        Some(arguments) => exprs(walk, arguments.as_slice()),
    }
}

fn optional(walk: &mut Walk, value: &Option<Expr>) -> Result<(), AllocError> {
    match value {
        None => Ok(()),
        Some(value) => expr(walk, value),
    }
}

/// What stands between FOR and DO.
fn course(
    walk: &mut Walk,
    control: &Ident,
    start: &Expr,
    limit: &Expr,
    step: &Option<Boxed<Expr>>,
) -> Result<(), AllocError> {
    walk.begin(control)?;
    expr(walk, start)?;
    expr(walk, limit)?;
    match step {
        None => Ok(()),
        Some(step) => expr(walk, step.get()),
    }
}

/// Begins the scope of a record's fields.
fn open_fields(walk: &mut Walk, record: &Designator) -> Result<(), AllocError> {
    let spot = designator(walk, record)?;
    let fields = match walk.program.fields_of(spot) {
        Some(fields) => fields,
        None => walk.program.new_scope()?,
    };
    let range = walk.marks().with_of(&record.name);
    walk.open(fields, range)
}

/// The names in a statement.
#[cycle(stmt)]
fn stmt(walk: &mut Walk, of: &Stmt) -> Result<(), AllocError> {
    match of {
        Stmt::Assign(to, value) => assignment(walk, to, value),
        Stmt::Call(callee, arguments) => call(walk, callee, arguments),
        Stmt::If(condition, body, others) => {
            guarded(walk, body.as_slice(), condition)?;
            rest(walk, others.get())
        }
        Stmt::Case(selector, all, otherwise) => {
            expr(walk, selector)?;
            arms(walk, all.as_slice())?;
            match otherwise {
                None => Ok(()),
                Some(body) => stmts(walk, body.as_slice()),
            }
        }
        Stmt::While(condition, body) => guarded(walk, body.as_slice(), condition),
        Stmt::Repeat(body, condition) => {
            stmts(walk, body.as_slice())?;
            expr(walk, condition)
        }
        Stmt::Loop(body) => stmts(walk, body.as_slice()),
        Stmt::Exit(_) => Ok(()),
        Stmt::Return(_, value) => optional(walk, value),
        Stmt::For(control, start, limit, step, body) => {
            course(walk, control, start.get(), limit.get(), step)?;
            stmts(walk, body.as_slice())
        }
        Stmt::With(record, body) => {
            open_fields(walk, record)?;
            stmts(walk, body.as_slice())?;
            walk.close();
            Ok(())
        }
    }
}

/// A condition, and what is done if it holds.
#[cycle(stmt)]
fn guarded(walk: &mut Walk, body: &[Stmt], condition: &Expr) -> Result<(), AllocError> {
    expr(walk, condition)?;
    stmts(walk, body)
}

/// What follows the first part of an IF.
#[cycle(stmt)]
fn rest(walk: &mut Walk, of: &Rest) -> Result<(), AllocError> {
    match of {
        Rest::Elsif(condition, body, others) => {
            guarded(walk, body.as_slice(), condition)?;
            rest(walk, others.get())
        }
        Rest::Else(None) => Ok(()),
        Rest::Else(Some(body)) => stmts(walk, body.as_slice()),
    }
}

#[cycle(stmt)]
fn arm(walk: &mut Walk, of: &Arm) -> Result<(), AllocError> {
    items(walk, of.labels.as_slice())?;
    stmts(walk, of.body.as_slice())
}

#[cycle(stmt)]
fn arms(walk: &mut Walk, all: &[Arm]) -> Result<(), AllocError> {
    for of in all {
        arm(walk, of)?;
    }
    Ok(())
}

/// The names in statements.
#[cycle(stmt)]
pub fn stmts(walk: &mut Walk, all: &[Stmt]) -> Result<(), AllocError> {
    for of in all {
        stmt(walk, of)?;
    }
    Ok(())
}
