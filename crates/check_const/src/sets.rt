//! Operators on sets.

ghost use Rattle.std.specs.Prelude.{◌≡◌, ◌<◌};
ghost use Rattle.check_scope.specs.Elaborated.{least};
ghost use Rattle.check_const.specs.Sets.{without, on_sets, place, has, up_to, with_span, member};

use crate::operand::{Ordinal, is_number, truth};
use crate::operator::BinaryOp;
use check_scope::{Elaborated, report};
use m2_rule::Rule;
use m2_tree::{Pos, RelOp};
use typed_tree::Value;

/// The elements of the first that the second does not have.
fn without(a: u32, b: u32) -> u32
    ensures { result ≡ without a b }
{
    a & (b ^ 4_294_967_295)
}

/// An operator between two sets.
pub fn on_sets(op: BinaryOp, spot: Pos, a: u32, b: u32) -> Elaborated<Value>
    ensures { result ≡ on_sets least op spot a b }
{
    match op {
        BinaryOp::Plus => Ok(Value::Set(a | b)),
        BinaryOp::Minus => Ok(Value::Set(without(a, b))),
        BinaryOp::Times => Ok(Value::Set(a & b)),
        BinaryOp::Over => Ok(Value::Set(a ^ b)),
        BinaryOp::Relation(RelOp::Equal) => Ok(truth(a == b)),
        BinaryOp::Relation(RelOp::Unequal) => Ok(truth(!(a == b))),
        BinaryOp::Relation(RelOp::AtMost) => Ok(truth(without(a, b) == 0)),
        BinaryOp::Relation(RelOp::AtLeast) => Ok(truth(without(b, a) == 0)),
        BinaryOp::Relation(RelOp::Less | RelOp::Greater | RelOp::In)
        | BinaryOp::Div
        | BinaryOp::Mod
        | BinaryOp::And
        | BinaryOp::Or => report(spot, Rule::WrongType),
    }
}

/// The element of this number, 0 if there is none.
fn place(n: i64) -> u32
    ensures value { result ≡ place n }
    ensures bound { result < 32 }
{
    match u32::try_from(n) {
        Err(_) => 0,
        Ok(k) => { if k < 32 { k } else { 0 } }
    }
}

/// Whether a set has an element.
fn has(bits: u32, n: i64) -> bool
    ensures { result ≡ has bits n }
{
    (bits >> place(n)) % 2 == 1
}

/// The elements 0 to n.
fn up_to(n: u32) -> u32
    ensures { result ≡ up_to n }
{
    4_294_967_295 >> 31u32.saturating_sub(n)
}

/// A set with the elements from one number to another.
pub fn with_span(bits: u32, low: i64, high: i64) -> u32
    ensures { result ≡ with_span bits low high }
{
    bits | without(up_to(place(high)), up_to(place(low)) / 2)
}

/// IN between a scalar and a set.
pub fn member(op: BinaryOp, spot: Pos, at: Pos, x: Ordinal, bits: u32) -> Elaborated<Value>
    ensures { result ≡ member least op spot at x bits }
{
    match op {
        BinaryOp::Relation(RelOp::In) => {
            if !is_number(x.sort) {
                return report(spot, Rule::WrongType);
            }
            if !(0 <= x.number && x.number <= 31) {
                return report(at, Rule::OutOfRange);
            }
            Ok(truth(has(bits, x.number)))
        }
        BinaryOp::Relation(_)
        | BinaryOp::Plus
        | BinaryOp::Minus
        | BinaryOp::Times
        | BinaryOp::Over
        | BinaryOp::Div
        | BinaryOp::Mod
        | BinaryOp::And
        | BinaryOp::Or => report(spot, Rule::WrongType),
    }
}
