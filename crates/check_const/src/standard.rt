//! Standard procedures of constants.

ghost use Rattle.std.specs.Prelude.{◌≡◌};
ghost use Rattle.check_scope.specs.Elaborated.{least};
ghost use Rattle.check_const.specs.Standards.{scalar_part, whole_number, absolute, upper, is_char, capital, character, is_odd, ordinal_of, conversion_of, bound_of};

use crate::number::{evaluated_at, number_at};
use crate::operand::{Operand, Ordinal, is_number, number_value, operand_of, truth};
use crate::operator::BinaryOp;
use check_scope::{Elaborated, report};
use m2_rule::Rule;
use m2_tree::Pos;
use typed_tree::{CARDINAL, CHAR, Scalar, ScalarValue, TypeNo, Value, are_same};

fn scalar_part(x: Option<Operand>) -> Option<Ordinal>
    ensures { result ≡ scalar_part x }
{
    match x {
        None => None,
        Some(Operand::Set(_)) => None,
        Some(Operand::Scalar(a)) => Some(a),
    }
}

/// An INTEGER, a CARDINAL or a number without a type.
pub fn whole_number(value: &Value) -> Option<Ordinal>
    ensures { result ≡ whole_number value.now }
{
    match scalar_part(operand_of(value)) {
        None => None,
        Some(a) => { if is_number(a.sort) { Some(a) } else { None } }
    }
}

/// ABS of a constant at a place.
pub fn absolute(at: Pos, value: &Value) -> Elaborated<Value>
    ensures { result ≡ absolute least at value.now }
{
    match whole_number(value) {
        None => report(at, Rule::WrongArgument),
        Some(a) => {
            if a.number < 0 {
                evaluated_at(at, a.sort, BinaryOp::Minus, 0, a.number)
            } else {
                number_at(at, a.sort, a.number)
            }
        }
    }
}

fn upper(code: i64) -> i64
    ensures { result ≡ upper code }
{
    if 97 <= code && code <= 122 {
        code - 32
    } else {
        code
    }
}

/// Whether it is CHAR.
pub fn is_char(sort: Option<TypeNo>) -> bool
    ensures { result ≡ is_char sort }
{
    match sort {
        None => false,
        Some(t) => are_same(t, CHAR),
    }
}

/// CAP of a constant at a place.
pub fn capital(at: Pos, value: &Value) -> Elaborated<Value>
    ensures { result ≡ capital least at value.now }
{
    match scalar_part(operand_of(value)) {
        None => report(at, Rule::WrongArgument),
        Some(a) => {
            if !is_char(a.sort) {
                return report(at, Rule::WrongArgument);
            }
            Ok(number_value(Some(CHAR), upper(a.number)))
        }
    }
}

/// CHR of a constant at a place.
pub fn character(at: Pos, value: &Value) -> Elaborated<Value>
    ensures { result ≡ character least at value.now }
{
    match whole_number(value) {
        None => report(at, Rule::WrongArgument),
        Some(a) => {
            if !(0 <= a.number && a.number <= 255) {
                return report(at, Rule::OutOfRange);
            }
            Ok(number_value(Some(CHAR), a.number))
        }
    }
}

/// ODD of a constant at a place.
pub fn is_odd(at: Pos, value: &Value) -> Elaborated<Value>
    ensures { result ≡ is_odd least at value.now }
{
    match whole_number(value) {
        None => report(at, Rule::WrongArgument),
        Some(a) => Ok(truth(0 < a.number.rem_euclid(2))),
    }
}

/// ORD of a constant at a place.
pub fn ordinal_of(at: Pos, value: &Value) -> Elaborated<Value>
    ensures { result ≡ ordinal_of least at value.now }
{
    match scalar_part(operand_of(value)) {
        None => report(at, Rule::WrongArgument),
        Some(a) => number_at(at, Some(CARDINAL), a.number),
    }
}

/// VAL of a constant at a place, to a scalar type.
pub fn conversion_of(t: TypeNo, to: Scalar, at: Pos, value: &Value) -> Elaborated<Value>
    ensures { result ≡ conversion_of least t to at value.now }
{
    match whole_number(value) {
        None => report(at, Rule::WrongArgument),
        Some(a) => {
            if !(to.low <= a.number && a.number <= to.high) {
                return report(at, Rule::OutOfRange);
            }
            Ok(bound_of(t, to, a.number))
        }
    }
}

/// A constant of a scalar type by its ordinal number.
pub fn bound_of(t: TypeNo, scalar: Scalar, number: i64) -> Value
    ensures { result ≡ bound_of t scalar number }
{
    Value::Scalar(ScalarValue {
        of: t,
        base: scalar.base,
        number,
    })
}
