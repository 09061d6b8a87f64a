//! Values as operators see them.

ghost use Rattle.std.specs.Prelude.{◌≡◌};
ghost use Rattle.check_value.specs.Sides.{known_of, side_of, sort_of, or_cardinal, run_of};

use crate::computed::Computed;
use check_const::{Operand, Ordinal, operand_of};
use typed_tree::{BITSET, CARDINAL, Procedure, TypeNo, TypedExpr};

/// A scalar.
#[derive(Drop)]
pub enum Amount {
    /// A constant.
    Known(Ordinal),
    /// A value of this base type.
    Run(TypeNo, TypedExpr),
}

/// A value that operators may take.
#[derive(Drop)]
pub enum Side {
    Scalar(Amount),
    Set(TypedExpr),
    /// A value of this procedure type.
    Routine(TypeNo, TypedExpr),
    /// A procedure that is named.
    Procedure(Procedure),
}

/// A constant that operators take.
pub fn known_of(value: &Computed) -> Option<Operand>
    ensures { result ≡ known_of value.now }
{
    match value {
        Computed::Constant(value) => operand_of(value),
        Computed::Scalar(_, _, _)
        | Computed::Set(_)
        | Computed::Routine(_, _)
        | Computed::Procedure(_)
        | Computed::Whole(_, _)
        | Computed::Untaken => None,
    }
}

/// A value as operators see it. Arrays, records and strings whose length is not 1 are no operands.
pub fn side_of(value: Computed) -> Option<Side>
    ensures { result ≡ side_of value }
{
    match value {
        Computed::Constant(value) => match operand_of(&value) {
            None => None,
            Some(Operand::Scalar(a)) => Some(Side::Scalar(Amount::Known(a))),
            Some(Operand::Set(bits)) => {
                Some(Side::Set(TypedExpr::Constant(BITSET, i64::from(bits))))
            }
        },
        Computed::Scalar(_, base, e) => Some(Side::Scalar(Amount::Run(base, e))),
        Computed::Set(e) => Some(Side::Set(e)),
        Computed::Routine(t, e) => Some(Side::Routine(t, e)),
        Computed::Procedure(procedure) => Some(Side::Procedure(procedure)),
        Computed::Whole(_, _) => None,
        Computed::Untaken => None,
    }
}

/// The base type of a scalar, if it is no number without a type.
pub fn sort_of(a: &Amount) -> Option<TypeNo>
    ensures { result ≡ sort_of a.now }
{
    match a {
        Amount::Known(a) => a.sort,
        Amount::Run(base, _) => Some(*base),
    }
}

/// This type, or else CARDINAL.
pub fn or_cardinal(sort: Option<TypeNo>) -> TypeNo
    ensures { result ≡ or_cardinal sort }
{
    match sort {
        None => CARDINAL,
        Some(t) => t,
    }
}

/// A scalar as an expression. A constant gets this type.
pub fn run_of(t: TypeNo, a: Amount) -> TypedExpr
    ensures { result ≡ run_of t a }
{
    match a {
        Amount::Known(a) => TypedExpr::Constant(t, a.number),
        Amount::Run(_, e) => e,
    }
}
