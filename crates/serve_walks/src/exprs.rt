//! The names in expressions.

use crate::walk::Walk;
use m2_tree::{AddOp, Designator, Expr, Ident, Item, MulOp, Operator, Selector};
use serve_scopes::Spot;
use std::alloc::AllocError;

/// The name of a type, if one is written.
fn optional_name(walk: &mut Walk, name: &Option<Ident>) -> Result<(), AllocError> {
    if let Some(name) = name {
        walk.begin(name)?;
    }
    Ok(())
}

/// The names in an expression.
#[cycle(expr)]
pub fn expr(walk: &mut Walk, e: &Expr) -> Result<(), AllocError> {
    match e {
        Expr::Number(_, _) | Expr::Char(_, _) | Expr::Text(_, _) => Ok(()),
        Expr::Set(of, _, elements) => {
            optional_name(walk, of)?;
            items(walk, elements.as_slice())
        }
        Expr::Not(_, operand) => expr(walk, operand.get()),
        Expr::Bracketed(_, inner) => expr(walk, inner.get()),
        Expr::Use(of, None) => variable(walk, of),
        Expr::Use(of, Some(arguments)) => {
            variable(walk, of)?;
            exprs(walk, arguments.get().as_slice())
        }
        Expr::Term(first, others) => {
            expr(walk, first.get())?;
            factors(walk, others.as_slice())
        }
        Expr::Sum(_, first, others) => {
            expr(walk, first.get())?;
            terms(walk, others.as_slice())
        }
        Expr::Relation(first, _, second) => {
            expr(walk, first.get())?;
            expr(walk, second.get())
        }
    }
}

/// The names in expressions.
#[cycle(expr)]
pub fn exprs(walk: &mut Walk, all: &[Expr]) -> Result<(), AllocError> {
    for e in all {
        expr(walk, e)?;
    }
    Ok(())
}

#[cycle(expr)]
fn factors(walk: &mut Walk, all: &[(Operator<MulOp>, Expr)]) -> Result<(), AllocError> {
    for factor in all {
        expr(walk, &factor.1)?;
    }
    Ok(())
}

#[cycle(expr)]
fn terms(walk: &mut Walk, all: &[(Operator<AddOp>, Expr)]) -> Result<(), AllocError> {
    for term in all {
        expr(walk, &term.1)?;
    }
    Ok(())
}

#[cycle(expr)]
fn item(walk: &mut Walk, of: &Item) -> Result<(), AllocError> {
    expr(walk, &of.low)?;
    match &of.high {
        None => Ok(()),
        Some(high) => expr(walk, high),
    }
}

/// The names in elements of a set or labels of a case.
#[cycle(expr)]
pub fn items(walk: &mut Walk, all: &[Item]) -> Result<(), AllocError> {
    for of in all {
        item(walk, of)?;
    }
    Ok(())
}

#[cycle(expr)]
fn selected(walk: &mut Walk, spot: Spot, selector: &Selector) -> Result<Spot, AllocError> {
    match selector {
        Selector::Field(_, name) => walk.pick(spot, name),
        Selector::Index(_, index) => {
            expr(walk, index)?;
            Ok(walk.program.element_of(spot))
        }
    }
}

/// The names in a designator, and what it stands for.
#[cycle(expr)]
pub fn designator(walk: &mut Walk, of: &Designator) -> Result<Spot, AllocError> {
    let mut spot = walk.begin(&of.name)?;
    for selector in of.selectors.as_slice() {
        spot = selected(walk, spot, selector)?;
    }
    Ok(spot)
}

/// The names in a designator.
#[cycle(expr)]
pub fn variable(walk: &mut Walk, of: &Designator) -> Result<(), AllocError> {
    designator(walk, of)?;
    Ok(())
}
