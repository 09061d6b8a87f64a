//! Signs and NOT.

ghost use Rattle.std.specs.Prelude.{◌≡◌, Ok, IfOk};
ghost use Rattle.check_scope.specs.Elaborated.{least, ◌▷◌};
ghost use Rattle.check_value.specs.Signs.{signed_scalar, with_sign, negation};

use crate::computed::Computed;
use crate::pieces::{of_value, truth_of};
use check_scope::{Elaborated, report};
use m2_rule::Rule;
use m2_tree::{Pos, Sign};
use std::alloc::{AllocError, Global};
use tree_parts::Boxed;
use typed_tree::{BOOLEAN, TypeNo, TypedExpr, are_same, is_integer, is_numeric};

fn signed_scalar(
    alloc: Global,
    sign: Sign,
    spot: Pos,
    base: TypeNo,
    e: TypedExpr,
) -> Result<Elaborated<Computed>, AllocError>
    ensures { IfOk result (λ v. v ≡ signed_scalar least sign spot base e) }
{
    match sign {
        Sign::Plus => {
            if !is_numeric(base) {
                return Ok(report(spot, Rule::WrongType));
            }
            let operand = Boxed::new(alloc, e)?;
            Ok(Ok(Computed::Scalar(base, base, TypedExpr::Plus(base, operand))))
        }
        Sign::Minus => {
            if !is_integer(base) {
                return Ok(report(spot, Rule::WrongType));
            }
            let operand = Boxed::new(alloc, e)?;
            Ok(Ok(Computed::Scalar(base, base, TypedExpr::Negate(operand))))
        }
    }
}

/// A sign at a place, before a term: 40 if it does not take the term.
pub fn with_sign(
    alloc: Global,
    sign: Sign,
    spot: Pos,
    x: Elaborated<Computed>,
) -> Result<Elaborated<Computed>, AllocError>
    ensures { IfOk result (λ v. v ≡ with_sign least sign spot x) }
{
    match x {
        Err(breach) => Ok(Err(breach)),
        Ok(Computed::Constant(value)) => Ok(of_value(check_const::with_sign(
            sign,
            spot,
            Ok(value),
        ))),
        Ok(Computed::Scalar(_, base, e)) => signed_scalar(alloc, sign, spot, base, e),
        Ok(_) => Ok(report(spot, Rule::WrongType)),
    }
}

/// NOT at a place: 40 if its operand is no BOOLEAN.
pub fn negation(
    alloc: Global,
    spot: Pos,
    x: Elaborated<Computed>,
) -> Result<Elaborated<Computed>, AllocError>
    ensures { IfOk result (λ v. v ≡ negation least spot x) }
{
    match x {
        Err(breach) => Ok(Err(breach)),
        Ok(Computed::Constant(value)) => { Ok(of_value(check_const::negation(spot, Ok(value)))) }
        Ok(Computed::Scalar(_, base, e)) => {
            if !are_same(base, BOOLEAN) {
                return Ok(report(spot, Rule::WrongType));
            }
            let operand = Boxed::new(alloc, e)?;
            Ok(Ok(truth_of(TypedExpr::Not(operand))))
        }
        Ok(_) => Ok(report(spot, Rule::WrongType)),
    }
}
