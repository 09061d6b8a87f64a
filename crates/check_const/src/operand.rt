//! Constants as operators see them.

ghost use Rattle.std.specs.Prelude.{◌≡◌};
ghost use Rattle.check_const.specs.Operands.{operand_of, number_value, truth, is_number, is_truth};

use typed_tree::{BOOLEAN, CHAR, ScalarValue, TypeNo, Value, are_same, is_numeric};

/// A scalar constant in its base type.
#[derive(Clone, Copy, PartialEq, Eq)]
pub struct Ordinal {
    /// Its base type, if it is no number without a type.
    pub sort: Option<TypeNo>,
    pub number: i64,
}

/// A constant that operators take.
#[derive(Clone, Copy, PartialEq, Eq)]
pub enum Operand {
    Scalar(Ordinal),
    Set(u32),
}

/// A constant as operators see it. A string of length 1 is a character, and no other string is an operand.
pub fn operand_of(value: &Value) -> Option<Operand>
    ensures { result ≡ operand_of value.now }
{
    match value {
        Value::Number(n) => Some(Operand::Scalar(Ordinal {
            sort: None,
            number: *n,
        })),
        Value::Scalar(scalar) => Some(Operand::Scalar(Ordinal {
            sort: Some(scalar.base),
            number: scalar.number,
        })),
        Value::Set(bits) => Some(Operand::Set(*bits)),
        Value::Text(text) => match text.get().as_bytes() {
            [code] => Some(Operand::Scalar(Ordinal {
                sort: Some(CHAR),
                number: i64::from(*code),
            })),
            [] | [_, _, ..] => None,
        },
    }
}

/// A number without a type, or a constant of this base type.
pub fn number_value(sort: Option<TypeNo>, n: i64) -> Value
    ensures { result ≡ number_value sort n }
{
    match sort {
        None => Value::Number(n),
        Some(t) => Value::Scalar(ScalarValue {
            of: t,
            base: t,
            number: n,
        }),
    }
}

/// FALSE or TRUE.
pub fn truth(holds: bool) -> Value
    ensures { result ≡ truth holds }
{
    let number = if holds { 1 } else { 0 };
    Value::Scalar(ScalarValue {
        of: BOOLEAN,
        base: BOOLEAN,
        number,
    })
}

/// Whether it is INTEGER, CARDINAL or a number without a type.
pub fn is_number(sort: Option<TypeNo>) -> bool
    ensures { result ≡ is_number sort }
{
    match sort {
        None => true,
        Some(t) => is_numeric(t),
    }
}

/// Whether it is BOOLEAN.
pub fn is_truth(sort: Option<TypeNo>) -> bool
    ensures { result ≡ is_truth sort }
{
    match sort {
        None => false,
        Some(t) => are_same(t, BOOLEAN),
    }
}
