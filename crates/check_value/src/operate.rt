//! What operators make of values.

ghost use Rattle.std.specs.Prelude.{◌≡◌, Ok, IfOk};
ghost use Rattle.check_scope.specs.Elaborated.{least, ◌▷◌};
ghost use Rattle.check_const.specs.Common.{common};
ghost use Rattle.check_value.specs.Sides.{sort_of};
ghost use Rattle.check_value.specs.Operations.{step_of, set_step_of, equality_of, step_result, fitting_of, fitting_both, on_amounts, element_fits, member, set_built, set_in, with_set, partner_of, routine_of, with_partner, between, operation_between};

use crate::agree::headings_agree;
use crate::computed::Computed;
use crate::pieces::{boxes_of, of_value, truth_of};
use crate::side::{Amount, Side, known_of, or_cardinal, run_of, side_of, sort_of};
use check_const::{BinaryOp, binary, common, divisor, fitting, is_number, takes};
use check_scope::{Elaborated, beside, both, report};
use m2_rule::Rule;
use m2_tree::{Pos, RelOp};
use std::alloc::{AllocError, Global};
use typed_tree::{
    Arithmetic, Comparison, Inclusion, Link, Procedure, SetOperator, TypeNo, TypedExpr, Types,
    are_same, link_operand,
};

/// What an operator does with scalars.
#[derive(Clone, Copy)]
pub enum Step {
    Arithmetic(Arithmetic),
    And,
    Or,
    Compare(Comparison),
}

/// What an operator does with sets.
#[derive(Clone, Copy)]
pub enum SetStep {
    Combine(SetOperator),
    Compare(Comparison),
    Include(Inclusion),
}

fn step_of(op: BinaryOp) -> Option<Step>
    ensures { result ≡ step_of op }
{
    match op {
        BinaryOp::Plus => Some(Step::Arithmetic(Arithmetic::Add)),
        BinaryOp::Minus => Some(Step::Arithmetic(Arithmetic::Subtract)),
        BinaryOp::Times => Some(Step::Arithmetic(Arithmetic::Multiply)),
        BinaryOp::Div => Some(Step::Arithmetic(Arithmetic::Divide)),
        BinaryOp::Mod => Some(Step::Arithmetic(Arithmetic::Remainder)),
        BinaryOp::And => Some(Step::And),
        BinaryOp::Or => Some(Step::Or),
        BinaryOp::Relation(RelOp::Equal) => Some(Step::Compare(Comparison::Equal)),
        BinaryOp::Relation(RelOp::Unequal) => Some(Step::Compare(Comparison::Unequal)),
        BinaryOp::Relation(RelOp::Less) => Some(Step::Compare(Comparison::Less)),
        BinaryOp::Relation(RelOp::AtMost) => Some(Step::Compare(Comparison::AtMost)),
        BinaryOp::Relation(RelOp::Greater) => Some(Step::Compare(Comparison::Greater)),
        BinaryOp::Relation(RelOp::AtLeast) => Some(Step::Compare(Comparison::AtLeast)),
        BinaryOp::Over | BinaryOp::Relation(RelOp::In) => None,
    }
}

fn set_step_of(op: BinaryOp) -> Option<SetStep>
    ensures { result ≡ set_step_of op }
{
    match op {
        BinaryOp::Plus => Some(SetStep::Combine(SetOperator::Union)),
        BinaryOp::Minus => Some(SetStep::Combine(SetOperator::Difference)),
        BinaryOp::Times => Some(SetStep::Combine(SetOperator::Intersection)),
        BinaryOp::Over => Some(SetStep::Combine(SetOperator::SymmetricDifference)),
        BinaryOp::Relation(RelOp::Equal) => Some(SetStep::Compare(Comparison::Equal)),
        BinaryOp::Relation(RelOp::Unequal) => Some(SetStep::Compare(Comparison::Unequal)),
        BinaryOp::Relation(RelOp::AtMost) => Some(SetStep::Include(Inclusion::Within)),
        BinaryOp::Relation(RelOp::AtLeast) => Some(SetStep::Include(Inclusion::Around)),
        BinaryOp::Relation(RelOp::Less | RelOp::Greater | RelOp::In)
        | BinaryOp::Div
        | BinaryOp::Mod
        | BinaryOp::And
        | BinaryOp::Or => None,
    }
}

/// The relation that an operator is, if procedures have it.
fn equality_of(op: BinaryOp) -> Option<Comparison>
    ensures { result ≡ equality_of op }
{
    match op {
        BinaryOp::Relation(RelOp::Equal) => Some(Comparison::Equal),
        BinaryOp::Relation(RelOp::Unequal) => Some(Comparison::Unequal),
        BinaryOp::Relation(_)
        | BinaryOp::Plus
        | BinaryOp::Minus
        | BinaryOp::Times
        | BinaryOp::Over
        | BinaryOp::Div
        | BinaryOp::Mod
        | BinaryOp::And
        | BinaryOp::Or => None,
    }
}

/// The result of a step on two scalars of this base type.
fn step_result(
    alloc: Global,
    step: Step,
    t: TypeNo,
    x: TypedExpr,
    y: TypedExpr,
) -> Result<Computed, AllocError>
    ensures { IfOk result (λ v. v ≡ step_result t x y step) }
{
    match step {
        Step::Arithmetic(arithmetic) => {
            let e = link_operand(alloc, x, Link::Arithmetic(arithmetic, t, y))?;
            Ok(Computed::Scalar(t, t, e))
        }
        Step::And => Ok(truth_of(link_operand(alloc, x, Link::And(y))?)),
        Step::Or => Ok(truth_of(link_operand(alloc, x, Link::Or(y))?)),
        Step::Compare(comparison) => {
            let (first, second) = boxes_of(alloc, x, y)?;
            Ok(truth_of(TypedExpr::Compare(comparison, first, second)))
        }
    }
}

fn fitting_of(sort: Option<TypeNo>, at: Pos, a: &Amount) -> Elaborated<()>
    ensures { result ≡ fitting_of least sort at a.now }
{
    match a {
        Amount::Known(a) => fitting(sort, at, *a),
        Amount::Run(_, _) => Ok(()),
    }
}

fn fitting_both(
    op: BinaryOp,
    spot: Pos,
    sort: Option<TypeNo>,
    at: Pos,
    a: &Amount,
    other_at: Pos,
    b: &Amount,
) -> Elaborated<()>
    ensures { result ≡ fitting_both least op spot sort at a.now other_at b.now }
{
    if !takes(op, sort) {
        return report(spot, Rule::WrongType);
    }
    let fit = beside(fitting_of(sort, at, a), fitting_of(sort, other_at, b));
    match b {
        Amount::Known(b) => beside(divisor(op, spot, b.number), fit),
        Amount::Run(_, _) => fit,
    }
}

/// An operator between two scalars.
fn on_amounts(
    alloc: Global,
    op: BinaryOp,
    spot: Pos,
    at: Pos,
    a: Amount,
    other_at: Pos,
    b: Amount,
) -> Result<Elaborated<Computed>, AllocError>
    ensures { IfOk result
        (λ v. v ≡ on_amounts least op spot at a other_at b (common (sort_of a) (sort_of b))) }
{
    match common(sort_of(&a), sort_of(&b)) {
        None => Ok(report(spot, Rule::WrongType)),
        Some(sort) => match fitting_both(op, spot, sort, at, &a, other_at, &b) {
            Err(breach) => Ok(Err(breach)),
            Ok(()) => match step_of(op) {
                None => Ok(report(spot, Rule::WrongType)),
                Some(step) => {
                    let t = or_cardinal(sort);
                    Ok(Ok(step_result(alloc, step, t, run_of(t, a), run_of(t, b))?))
                }
            },
        },
    }
}

/// The rule that a constant element is from 0 to 31.
pub fn element_fits(at: Pos, a: &Amount) -> Elaborated<()>
    ensures { result ≡ element_fits least at a.now }
{
    match a {
        Amount::Known(a) => {
            if !(0 <= a.number && a.number <= 31) {
                return report(at, Rule::OutOfRange);
            }
            Ok(())
        }
        Amount::Run(_, _) => Ok(()),
    }
}

/// IN between a scalar and a set.
fn member(
    alloc: Global,
    op: BinaryOp,
    spot: Pos,
    at: Pos,
    a: Amount,
    set: TypedExpr,
) -> Result<Elaborated<Computed>, AllocError>
    ensures { IfOk result (λ v. v ≡ member least op spot at a set) }
{
    let sort = sort_of(&a);
    if !(matches!(op, BinaryOp::Relation(RelOp::In)) && is_number(sort)) {
        return Ok(report(spot, Rule::WrongType));
    }
    match element_fits(at, &a) {
        Err(breach) => Ok(Err(breach)),
        Ok(()) => {
            let (element, whole) = boxes_of(alloc, run_of(or_cardinal(sort), a), set)?;
            Ok(Ok(truth_of(TypedExpr::In(element, whole))))
        }
    }
}

fn set_built(
    alloc: Global,
    step: SetStep,
    x: TypedExpr,
    y: TypedExpr,
) -> Result<Computed, AllocError>
    ensures { IfOk result (λ v. v ≡ set_built x y step) }
{
    match step {
        SetStep::Combine(operator) => {
            Ok(Computed::Set(link_operand(alloc, x, Link::Combine(operator, y))?))
        }
        SetStep::Compare(comparison) => {
            let (first, second) = boxes_of(alloc, x, y)?;
            Ok(truth_of(TypedExpr::Compare(comparison, first, second)))
        }
        SetStep::Include(inclusion) => {
            let (first, second) = boxes_of(alloc, x, y)?;
            Ok(truth_of(TypedExpr::Include(inclusion, first, second)))
        }
    }
}

fn with_set(
    alloc: Global,
    op: BinaryOp,
    spot: Pos,
    x: TypedExpr,
    y: Option<Side>,
) -> Result<Elaborated<Computed>, AllocError>
    ensures { IfOk result (λ v. v ≡ with_set least op spot x (set_in y)) }
{
    match y {
        Some(Side::Set(set)) => match set_step_of(op) {
            None => Ok(report(spot, Rule::WrongType)),
            Some(step) => Ok(Ok(set_built(alloc, step, x, set)?)),
        },
        _ => Ok(report(spot, Rule::WrongType)),
    }
}

/// What stands beside a value of this procedure type, and whether the two go together.
fn partner_of(types: &Types, t: TypeNo, y: Option<Side>) -> Option<(bool, TypedExpr)>
    ensures { result ≡ partner_of types.now t y }
{
    match y {
        Some(Side::Routine(u, e)) => Some((are_same(t, u), e)),
        Some(Side::Procedure(procedure)) => Some((
            headings_agree(types, t, procedure.heading),
            TypedExpr::Procedure(procedure),
        )),
        _ => None,
    }
}

/// What stands beside a procedure that is named, and whether the two go together.
fn routine_of(types: &Types, procedure: Procedure, y: Option<Side>) -> Option<(bool, TypedExpr)>
    ensures { result ≡ routine_of types.now procedure y }
{
    match y {
        Some(Side::Routine(t, e)) => Some((headings_agree(types, t, procedure.heading), e)),
        _ => None,
    }
}

fn with_partner(
    alloc: Global,
    spot: Pos,
    x: TypedExpr,
    comparison: Option<Comparison>,
    partner: Option<(bool, TypedExpr)>,
) -> Result<Elaborated<Computed>, AllocError>
    ensures { IfOk result (λ v. v ≡ with_partner least spot x comparison partner) }
{
    match partner {
        None => Ok(report(spot, Rule::WrongType)),
        Some((fit, y)) => match comparison {
            None => Ok(report(spot, Rule::WrongType)),
            Some(comparison) => {
                if !fit {
                    return Ok(report(spot, Rule::WrongType));
                }
                let (first, second) = boxes_of(alloc, x, y)?;
                Ok(Ok(truth_of(TypedExpr::Compare(comparison, first, second))))
            }
        },
    }
}

/// An operator between two values, of which one is no constant.
fn between(
    alloc: Global,
    types: &Types,
    op: BinaryOp,
    spot: Pos,
    at: Pos,
    x: Option<Side>,
    other_at: Pos,
    y: Option<Side>,
) -> Result<Elaborated<Computed>, AllocError>
    ensures { IfOk result (λ v. v ≡ between least types.now op spot at x other_at y) }
{
    match x {
        None => Ok(report(spot, Rule::WrongType)),
        Some(Side::Scalar(a)) => match y {
            Some(Side::Scalar(b)) => on_amounts(alloc, op, spot, at, a, other_at, b),
            Some(Side::Set(set)) => member(alloc, op, spot, at, a, set),
            _ => Ok(report(spot, Rule::WrongType)),
        },
        Some(Side::Set(e)) => with_set(alloc, op, spot, e, y),
        Some(Side::Routine(t, e)) => {
            with_partner(alloc, spot, e, equality_of(op), partner_of(types, t, y))
        }
        Some(Side::Procedure(procedure)) => {
            let e = TypedExpr::Procedure(procedure);
            with_partner(
                alloc,
                spot,
                e,
                equality_of(op),
                routine_of(types, procedure, y),
            )
        }
    }
}

/// An operator at a place, between two parts at theirs. What the operator does not take is 40 at the operator. A divisor
/// that is a constant below 1, and a result of constants that is out of range, are 52 there, and a number that the other
/// operand's type does not have is 52 at the number.
pub fn operation_between(
    alloc: Global,
    types: &Types,
    op: BinaryOp,
    spot: Pos,
    at: Pos,
    x: Elaborated<Computed>,
    other_at: Pos,
    y: Elaborated<Computed>,
) -> Result<Elaborated<Computed>, AllocError>
    ensures { IfOk result (λ v. v ≡ operation_between least types.now op spot at x other_at y) }
{
    match both(x, y) {
        Err(breach) => Ok(Err(breach)),
        Ok((x, y)) => match (known_of(&x), known_of(&y)) {
            (Some(a), Some(b)) => Ok(of_value(binary(op, spot, at, Some(a), other_at, Some(b)))),
            (Some(_), None) | (None, _) => {
                between(alloc, types, op, spot, at, side_of(x), other_at, side_of(y))
            }
        },
    }
}
