//! Numbers and their ranges.

ghost use Rattle.std.specs.Prelude.{◌≡◌, FitsSigned, SomeIff};
ghost use Rattle.std.specs.Int.{w64};
ghost use Rattle.check_scope.specs.Elaborated.{least};
ghost use Rattle.check_const.specs.Numbers.{fits, number_at, whole_arithmetic, evaluated_at, quotient, remainder};

use crate::operand::number_value;
use crate::operator::BinaryOp;
use check_scope::{Elaborated, report};
use m2_rule::Rule;
use m2_tree::Pos;
use typed_tree::{TypeNo, Value, is_integer};

/// Whether a base type has a number, INTEGER or else CARDINAL, or whether a number without a type may be as great.
pub fn fits(sort: Option<TypeNo>, n: i64) -> bool
    ensures { result ≡ fits sort n }
{
    match sort {
        None => -2_147_483_648 <= n && n <= 4_294_967_295,
        Some(t) => {
            if is_integer(t) {
                -2_147_483_648 <= n && n <= 2_147_483_647
            } else {
                0 <= n && n <= 4_294_967_295
            }
        }
    }
}

/// A number of this type, if the type has it; else the rule of ranges is broken.
pub fn number_at(at: Pos, sort: Option<TypeNo>, n: i64) -> Elaborated<Value>
    ensures { result ≡ number_at least at sort n }
{
    if !fits(sort, n) {
        return report(at, Rule::OutOfRange);
    }
    Ok(number_value(sort, n))
}

/// The sum, the difference or the product, if it is not too great for any type.
fn whole_arithmetic(op: BinaryOp, x: i64, y: i64) -> Option<i64>
    ensures { SomeIff result (FitsSigned w64 (whole_arithmetic op x y)) (whole_arithmetic op x y) }
{
    match op {
        BinaryOp::Plus => x.checked_add(y),
        BinaryOp::Minus => x.checked_sub(y),
        BinaryOp::Times => x.checked_mul(y),
        BinaryOp::Over
        | BinaryOp::Div
        | BinaryOp::Mod
        | BinaryOp::And
        | BinaryOp::Or
        | BinaryOp::Relation(_) => Some(0),
    }
}

/// The sum, the difference or the product as a number of this type.
pub fn evaluated_at(
    at: Pos,
    sort: Option<TypeNo>,
    op: BinaryOp,
    x: i64,
    y: i64,
) -> Elaborated<Value>
    ensures { result ≡ evaluated_at least at sort op x y }
{
    match whole_arithmetic(op, x, y) {
        None => report(at, Rule::OutOfRange),
        Some(n) => number_at(at, sort, n),
    }
}

/// The quotient by a positive divisor, rounded down.
pub fn quotient(x: i64, y: i64) -> i64
    ensures { result ≡ quotient x y }
{
    if y < 1 { 0 } else { x.div_euclid(y) }
}

/// The remainder by a positive divisor, which is not negative.
pub fn remainder(x: i64, y: i64) -> i64
    ensures { result ≡ remainder x y }
{
    if y < 1 { 0 } else { x.rem_euclid(y) }
}
