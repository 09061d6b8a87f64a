//! Statements as they are written. An empty statement leaves no trace.

use crate::expr::{Designator, Expr, Item};
use crate::name::Ident;
use crate::pos::Pos;
use tree_parts::{Boxed, Items};

/// A statement.
#[cycle(stmt)]
#[derive(PartialEq, Eq)]
pub enum Stmt {
    /// What is assigned to, and the value.
    Assign(Designator, Expr),
    /// The procedure, and the arguments if there are brackets.
    Call(Designator, Option<Items<Expr>>),
    /// The first condition, what is done then, and what follows up to the END.
    If(Expr, Items<Stmt>, Boxed<Rest>),
    /// The selector, the arms, and what stands behind the ELSE.
    Case(Expr, Items<Arm>, Option<Items<Stmt>>),
    While(Expr, Items<Stmt>),
    Repeat(Items<Stmt>, Expr),
    Loop(Items<Stmt>),
    /// The place of the EXIT.
    Exit(Pos),
    /// The place of the RETURN, and the value.
    Return(Pos, Option<Expr>),
    /// The control variable, its start, its limit, the step, and what is repeated.
    For(Ident, Boxed<Expr>, Boxed<Expr>, Option<Boxed<Expr>>, Items<Stmt>),
    /// The record, and the statements in which its fields stand for themselves.
    With(Designator, Items<Stmt>),
}

impl Drop for Stmt {
    #[cycle(dropped_statement)]
    fn drop(self) {
        match self {
            Stmt::Assign(designator, value) => {
                drop(designator);
                drop(value);
            }
            Stmt::Call(designator, arguments) => {
                drop(designator);
                drop(arguments);
            }
            Stmt::If(condition, body, rest) => {
                drop(condition);
                drop(body);
                drop(rest);
            }
            Stmt::Case(selector, arms, otherwise) => {
                drop(selector);
                drop(arms);
                drop(otherwise);
            }
            Stmt::While(condition, body) => {
                drop(condition);
                drop(body);
            }
            Stmt::Repeat(body, condition) => {
                drop(body);
                drop(condition);
            }
            Stmt::Loop(body) => drop(body),
            Stmt::Exit(_) => {}
            Stmt::Return(_, value) => drop(value),
            Stmt::For(control, start, limit, step, body) => {
                drop(control);
                drop(start);
                drop(limit);
                drop(step);
                drop(body);
            }
            Stmt::With(designator, body) => {
                drop(designator);
                drop(body);
            }
        }
    }
}

/// What follows the first part of an IF.
#[cycle(stmt)]
#[derive(PartialEq, Eq, Drop)]
pub enum Rest {
    Elsif(Expr, Items<Stmt>, Boxed<Rest>),
    Else(Option<Items<Stmt>>),
}

/// The labels and the statements of an arm of a CASE.
#[cycle(stmt)]
#[derive(PartialEq, Eq, Drop)]
pub struct Arm {
    pub labels: Items<Item>,
    pub body: Items<Stmt>,
}
