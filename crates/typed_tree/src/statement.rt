//! Statements of bodies.

use crate::computed::{Call, Place, TypedExpr};
use crate::types::TypeNo;
use m2_tree::Quoted;
use tree_parts::{Items, Shared};

/// INC and DEC.
#[derive(Clone, Copy, PartialEq, Eq)]
pub enum Change {
    Increase,
    Decrease,
}

/// INCL and EXCL.
#[derive(Clone, Copy, PartialEq, Eq)]
pub enum Membership {
    Include,
    Exclude,
}

/// The values that a label of a CASE stands for, both bounds included.
#[derive(Clone, Copy, PartialEq, Eq)]
pub struct Label {
    pub low: i64,
    pub high: i64,
}

/// A statement.
#[cycle(statement)]
pub enum TypedStmt {
    /// A variable, its scalar type, and the value that it gets.
    Assign(Place, TypeNo, TypedExpr),
    /// A variable and another one of the same array or record type, whose components it gets.
    Copy(Place, Place, TypeNo),
    /// An array of CHAR, its type, and the string that it gets.
    CopyText(Place, TypeNo, Shared<Quoted>),
    Call(Call),
    /// `Console.Put`.
    Put(TypedExpr),
    /// The variable of INC or DEC, its type, and by how much it changes.
    Change(Change, Place, TypeNo, TypedExpr),
    /// The set of INCL or EXCL, and the element.
    Membership(Membership, Place, TypedExpr),
    Halt,
    /// The condition, what is done then, and what is done else, if ELSE or ELSIF stands. An ELSIF is an IF in the ELSE.
    If(TypedExpr, Items<TypedStmt>, Option<Items<TypedStmt>>),
    /// The selector, the arms, and what is done if no label has its value, if ELSE stands.
    Case(TypedExpr, Items<TypedArm>, Option<Items<TypedStmt>>),
    While(TypedExpr, Items<TypedStmt>),
    Repeat(Items<TypedStmt>, TypedExpr),
    Loop(Items<TypedStmt>),
    /// Leaves the innermost LOOP.
    Exit,
    /// RETURN of a module body or of a procedure that gives nothing.
    Return,
    /// RETURN of a function: the type of its result, and the value.
    Give(TypeNo, TypedExpr),
    /// The control variable, its type, the start, the limit, the step, and what is repeated.
    For(Place, TypeNo, TypedExpr, TypedExpr, i64, Items<TypedStmt>),
    /// The record, and the statements in which `Place::With` means it.
    With(Place, Items<TypedStmt>),
}

// Written by hand, so that proofs above take a drop as one call, and not as a case for each variant.
impl Drop for TypedStmt {
    #[cycle(dropped_statement)]
    fn drop(self) {
        match self {
            TypedStmt::Assign(place, _, e) => {
                drop(place);
                drop(e);
            }
            TypedStmt::Copy(place, from, _) => {
                drop(place);
                drop(from);
            }
            TypedStmt::CopyText(place, _, text) => {
                drop(place);
                drop(text);
            }
            TypedStmt::Call(call) => drop(call),
            TypedStmt::Put(e) => drop(e),
            TypedStmt::Change(_, place, _, e) => {
                drop(place);
                drop(e);
            }
            TypedStmt::Membership(_, place, e) => {
                drop(place);
                drop(e);
            }
            TypedStmt::Halt => {}
            TypedStmt::If(condition, body, otherwise) => {
                drop(condition);
                drop(body);
                drop(otherwise);
            }
            TypedStmt::Case(selector, arms, otherwise) => {
                drop(selector);
                drop(arms);
                drop(otherwise);
            }
            TypedStmt::While(condition, body) => {
                drop(condition);
                drop(body);
            }
            TypedStmt::Repeat(body, condition) => {
                drop(body);
                drop(condition);
            }
            TypedStmt::Loop(body) => drop(body),
            TypedStmt::Exit => {}
            TypedStmt::Return => {}
            TypedStmt::Give(_, e) => drop(e),
            TypedStmt::For(place, _, start, limit, _, body) => {
                drop(place);
                drop(start);
                drop(limit);
                drop(body);
            }
            TypedStmt::With(place, body) => {
                drop(place);
                drop(body);
            }
        }
    }
}

/// The labels and the statements of an arm of a CASE.
#[cycle(statement)]
#[derive(Drop)]
pub struct TypedArm {
    pub labels: Items<Label>,
    pub body: Items<TypedStmt>,
}
