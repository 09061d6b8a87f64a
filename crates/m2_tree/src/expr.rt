//! Expressions and designators as they are written.

use crate::name::Ident;
use crate::pos::Pos;
use crate::text::Quoted;
use tree_parts::{Boxed, Items};

/// A relation between two values.
#[derive(Clone, Copy, PartialEq, Eq)]
pub enum RelOp {
    Equal,
    Unequal,
    Less,
    AtMost,
    Greater,
    AtLeast,
    In,
}

/// The sign of a sum's first term.
#[derive(Clone, Copy, PartialEq, Eq)]
pub enum Sign {
    Plus,
    Minus,
}

/// An operator between the terms of a sum.
#[derive(Clone, Copy, PartialEq, Eq)]
pub enum AddOp {
    Plus,
    Minus,
    Or,
}

/// An operator between the factors of a term.
#[derive(Clone, Copy, PartialEq, Eq)]
pub enum MulOp {
    Times,
    Over,
    Div,
    Mod,
    And,
}

/// An operator where it is written.
#[derive(Clone, Copy, PartialEq, Eq)]
pub struct Operator<O> {
    pub op: O,
    pub pos: Pos,
}

/// A name, or a name of a module.
#[derive(Clone, PartialEq, Eq, Drop)]
pub struct Qualified {
    /// The module that is named before the point, if one is.
    pub module: Option<Ident>,
    pub name: Ident,
}

/// An expression. The place of an expression is the place of its first token.
#[cycle(expr)]
#[derive(PartialEq, Eq)]
pub enum Expr {
    Number(Pos, u32),
    /// A character by its code.
    Char(Pos, u8),
    /// A string, by the bytes between its quotes.
    Text(Pos, Quoted),
    /// The type's name, if it is written, the place of the brace, and the elements.
    Set(Option<Ident>, Pos, Items<Item>),
    /// The place of the NOT, and its operand.
    Not(Pos, Boxed<Expr>),
    /// The place of the bracket, and what stands inside.
    Bracketed(Pos, Boxed<Expr>),
    /// A variable, a constant, a procedure or, with arguments, a call.
    Use(Designator, Option<Boxed<Items<Expr>>>),
    /// The first of two or more factors, and the others.
    Term(Boxed<Expr>, Items<(Operator<MulOp>, Expr)>),
    /// A sign, the first term, and the others.
    Sum(Option<Operator<Sign>>, Boxed<Expr>, Items<(Operator<AddOp>, Expr)>),
    Relation(Boxed<Expr>, Operator<RelOp>, Boxed<Expr>),
}

impl Drop for Expr {
    #[cycle(dropped)]
    fn drop(self) {
        match self {
            Expr::Number(_, _) => {}
            Expr::Char(_, _) => {}
            Expr::Text(_, text) => drop(text),
            Expr::Set(of, _, items) => {
                drop(of);
                drop(items);
            }
            Expr::Not(_, operand) => drop(operand),
            Expr::Bracketed(_, inner) => drop(inner),
            Expr::Use(designator, arguments) => {
                drop(designator);
                drop(arguments);
            }
            Expr::Term(first, others) => {
                drop(first);
                drop(others);
            }
            Expr::Sum(_, first, others) => {
                drop(first);
                drop(others);
            }
            Expr::Relation(first, _, second) => {
                drop(first);
                drop(second);
            }
        }
    }
}

/// One value, or a range: an element of a set, or a label of a case.
#[cycle(expr)]
#[derive(PartialEq, Eq, Drop)]
pub struct Item {
    pub low: Expr,
    pub high: Option<Expr>,
}

/// A component of a variable.
#[cycle(expr)]
#[derive(PartialEq, Eq, Drop)]
pub enum Selector {
    /// The place of the point, and the field.
    Field(Pos, Ident),
    /// The place of the opening bracket, and the index. `x[i, j]` is `x[i][j]`, both with the place of the one bracket.
    Index(Pos, Expr),
}

/// A name and the components that are picked.
#[cycle(expr)]
#[derive(PartialEq, Eq, Drop)]
pub struct Designator {
    pub name: Ident,
    pub selectors: Items<Selector>,
}
