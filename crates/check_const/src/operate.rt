//! What operators make of constants.

ghost use Rattle.std.specs.Prelude.{◌≡◌, Ok};
ghost use Rattle.check_scope.specs.Elaborated.{least, ◌▷◌};
ghost use Rattle.check_const.specs.Common.{common};
ghost use Rattle.check_const.specs.Operate.{takes, holds_between, ordinal_result, divisor, fitting, on_scalars, binary, constant_operation, is_signed, with_sign, negation};

use crate::number::{evaluated_at, fits, number_at, quotient, remainder};
use crate::operand::{Operand, Ordinal, is_number, is_truth, number_value, operand_of, truth};
use crate::operator::{BinaryOp, is_division};
use crate::sets::{member, on_sets};
use check_scope::{Elaborated, beside, both, report};
use m2_rule::Rule;
use m2_tree::{Pos, RelOp, Sign};
use typed_tree::{TypeNo, Value, are_same, is_integer, is_numeric};

/// The type of two scalars, if they go together. A number without a type takes the type of the other.
pub fn common(first: Option<TypeNo>, second: Option<TypeNo>) -> Option<Option<TypeNo>>
    ensures { result ≡ common first second }
{
    match (first, second) {
        (None, None) => Some(None),
        (None, Some(t)) => { if is_numeric(t) { Some(Some(t)) } else { None } }
        (Some(t), None) => { if is_numeric(t) { Some(Some(t)) } else { None } }
        (Some(t), Some(u)) => { if are_same(t, u) { Some(Some(t)) } else { None } }
    }
}

/// Whether an operator takes scalars of this type.
pub fn takes(op: BinaryOp, sort: Option<TypeNo>) -> bool
    ensures { result ≡ takes op sort }
{
    match op {
        BinaryOp::Plus | BinaryOp::Minus | BinaryOp::Times | BinaryOp::Div | BinaryOp::Mod => {
            is_number(sort)
        }
        BinaryOp::Over => false,
        BinaryOp::And | BinaryOp::Or => is_truth(sort),
        BinaryOp::Relation(relation) => match relation {
            RelOp::In => false,
            RelOp::Equal
            | RelOp::Unequal
            | RelOp::Less
            | RelOp::AtMost
            | RelOp::Greater
            | RelOp::AtLeast => true,
        },
    }
}

fn holds_between(relation: RelOp, x: i64, y: i64) -> bool
    ensures { result ≡ holds_between relation x y }
{
    match relation {
        RelOp::Equal => x <= y && y <= x,
        RelOp::Unequal => !(x <= y && y <= x),
        RelOp::Less => x < y,
        RelOp::AtMost => x <= y,
        RelOp::Greater => y < x,
        RelOp::AtLeast => y <= x,
        RelOp::In => false,
    }
}

/// What an operator makes of ordinal numbers of this type, which takes it.
fn ordinal_result(
    op: BinaryOp,
    spot: Pos,
    sort: Option<TypeNo>,
    x: i64,
    y: i64,
) -> Elaborated<Value>
    ensures { result ≡ ordinal_result least op spot sort x y }
{
    match op {
        BinaryOp::Plus | BinaryOp::Minus | BinaryOp::Times => evaluated_at(spot, sort, op, x, y),
        BinaryOp::Over => report(spot, Rule::WrongType),
        BinaryOp::Div => number_at(spot, sort, quotient(x, y)),
        BinaryOp::Mod => number_at(spot, sort, remainder(x, y)),
        BinaryOp::And => Ok(truth(x > 0 && y > 0)),
        BinaryOp::Or => Ok(truth(x > 0 || y > 0)),
        BinaryOp::Relation(relation) => Ok(truth(holds_between(relation, x, y))),
    }
}

/// The rule that a constant divisor is positive.
pub fn divisor(op: BinaryOp, spot: Pos, y: i64) -> Elaborated<()>
    ensures { result ≡ divisor least op spot y }
{
    if is_division(op) && y < 1 {
        return report(spot, Rule::OutOfRange);
    }
    Ok(())
}

/// The rule that a number without a type is one of the other operand's type.
pub fn fitting(wanted: Option<TypeNo>, at: Pos, a: Ordinal) -> Elaborated<()>
    ensures { result ≡ fitting least wanted at a }
{
    if wanted.is_some() && a.sort.is_none() && !fits(wanted, a.number) {
        return report(at, Rule::OutOfRange);
    }
    Ok(())
}

fn on_scalars(
    op: BinaryOp,
    spot: Pos,
    at: Pos,
    a: Ordinal,
    other_at: Pos,
    b: Ordinal,
) -> Elaborated<Value>
    ensures { result ≡ on_scalars least op spot at a other_at b (common a.sort b.sort) }
{
    let Some(sort) = common(a.sort, b.sort) else {
        return report(spot, Rule::WrongType);
    };
    if !takes(op, sort) {
        return report(spot, Rule::WrongType);
    }
    let fit = beside(fitting(sort, at, a), fitting(sort, other_at, b));
    match beside(divisor(op, spot, b.number), fit) {
        Err(breach) => Err(breach),
        Ok(()) => ordinal_result(op, spot, sort, a.number, b.number),
    }
}

/// An operator at a place, between two operands at theirs. What is none is refused.
pub fn binary(
    op: BinaryOp,
    spot: Pos,
    at: Pos,
    x: Option<Operand>,
    other_at: Pos,
    y: Option<Operand>,
) -> Elaborated<Value>
    ensures { result ≡ binary least op spot at x other_at y }
{
    match (x, y) {
        (Some(Operand::Scalar(a)), Some(Operand::Scalar(b))) => {
            on_scalars(op, spot, at, a, other_at, b)
        }
        (Some(Operand::Scalar(a)), Some(Operand::Set(b))) => member(op, spot, at, a, b),
        (Some(Operand::Set(_)), Some(Operand::Scalar(_))) => report(spot, Rule::WrongType),
        (Some(Operand::Set(a)), Some(Operand::Set(b))) => on_sets(op, spot, a, b),
        (Some(Operand::Scalar(_)), None) => report(spot, Rule::WrongType),
        (Some(Operand::Set(_)), None) => report(spot, Rule::WrongType),
        (None, _) => report(spot, Rule::WrongType),
    }
}

/// An operator at a place, between two parts at theirs.
pub fn constant_operation(
    op: BinaryOp,
    spot: Pos,
    at: Pos,
    x: Elaborated<Value>,
    other_at: Pos,
    y: Elaborated<Value>,
) -> Elaborated<Value>
    ensures { result ≡ constant_operation least op spot at x other_at y }
{
    match both(x, y) {
        Err(breach) => Err(breach),
        Ok((a, b)) => binary(op, spot, at, operand_of(&a), other_at, operand_of(&b)),
    }
}

fn is_signed(sort: Option<TypeNo>) -> bool
    ensures { result ≡ is_signed sort }
{
    match sort {
        None => true,
        Some(t) => is_integer(t),
    }
}

/// A sign at a place, before a term.
pub fn with_sign(sign: Sign, spot: Pos, x: Elaborated<Value>) -> Elaborated<Value>
    ensures { result ≡ with_sign least sign spot x }
{
    let Some(Operand::Scalar(a)) = operand_of(&x?) else {
        return report(spot, Rule::WrongType);
    };
    match sign {
        Sign::Plus => {
            if !is_number(a.sort) {
                return report(spot, Rule::WrongType);
            }
            Ok(number_value(a.sort, a.number))
        }
        Sign::Minus => {
            if !is_signed(a.sort) {
                return report(spot, Rule::WrongType);
            }
            evaluated_at(spot, a.sort, BinaryOp::Minus, 0, a.number)
        }
    }
}

/// NOT at a place.
pub fn negation(spot: Pos, x: Elaborated<Value>) -> Elaborated<Value>
    ensures { result ≡ negation least spot x }
{
    let Some(Operand::Scalar(a)) = operand_of(&x?) else {
        return report(spot, Rule::WrongType);
    };
    if !is_truth(a.sort) {
        return report(spot, Rule::WrongType);
    }
    Ok(truth(!(a.number > 0)))
}
