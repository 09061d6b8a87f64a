//! Calls of standard procedures.

ghost use Rattle.std.specs.Prelude.{◌≡◌};
ghost use Rattle.check_scope.specs.Elaborated.{least, ◌▷◌};
ghost use Rattle.check_const.specs.Calls.{sort_of, scalar_type, type_in, type_argument, unary_of, unary, bound_by, bound, conversion_call};

use crate::denoted::Denoted;
use crate::standard::{absolute, bound_of, capital, character, conversion_of, is_odd, ordinal_of};
use check_scope::{Elaborated, both, report};
use m2_rule::Rule;
use m2_tree::Pos;
use typed_tree::{Scalar, Standard, TypeNo, Types, Value, scalar_of};

/// What a standard procedure asks for in a constant expression.
#[derive(Clone, Copy, PartialEq, Eq)]
pub enum Sort {
    /// One constant.
    Unary,
    /// One type.
    Bound,
    /// A type and a constant.
    Conversion,
    /// It gives no constant.
    Never,
}

/// What a standard procedure asks for.
pub fn sort_of(standard: Standard) -> Sort
    ensures { result ≡ sort_of standard }
{
    match standard {
        Standard::Abs | Standard::Cap | Standard::Chr | Standard::Odd | Standard::Ord => {
            Sort::Unary
        }
        Standard::Max | Standard::Min => Sort::Bound,
        Standard::Val => Sort::Conversion,
        Standard::High
        | Standard::Inc
        | Standard::Dec
        | Standard::Incl
        | Standard::Excl
        | Standard::Halt
        | Standard::Put => Sort::Never,
    }
}

/// A type that has to be scalar.
pub fn scalar_type(at: Pos, t: TypeNo, scalar: Option<Scalar>) -> Elaborated<(TypeNo, Scalar)>
    ensures { result ≡ scalar_type least at t scalar }
{
    match scalar {
        None => report(at, Rule::NoType),
        Some(scalar) => Ok((t, scalar)),
    }
}

/// The type that stands there, if it is one.
pub fn type_in(denoted: Denoted) -> Option<TypeNo>
    ensures { result ≡ type_in denoted }
{
    match denoted {
        Denoted::Type(t) => Some(t),
        Denoted::Value(_) => None,
        Denoted::Variable => None,
        Denoted::Procedure => None,
        Denoted::Standard(_) => None,
        Denoted::Module(_) => None,
    }
}

/// An argument that names a scalar type: 33 at it if it does not.
pub fn type_argument(
    types: &Types,
    at: Pos,
    named: Elaborated<Option<TypeNo>>,
) -> Elaborated<(TypeNo, Scalar)>
    ensures { result ≡ type_argument least types.now at named }
{
    match named {
        Err(breach) => Err(breach),
        Ok(None) => report(at, Rule::NoType),
        Ok(Some(t)) => scalar_type(at, t, scalar_of(types, t)),
    }
}

/// What a standard procedure of one constant gives.
pub fn unary_of(standard: Standard, at: Pos, value: &Value) -> Elaborated<Value>
    ensures { result ≡ unary_of least standard at value.now }
{
    match standard {
        Standard::Abs => absolute(at, value),
        Standard::Cap => capital(at, value),
        Standard::Chr => character(at, value),
        Standard::Odd => is_odd(at, value),
        Standard::Ord => ordinal_of(at, value),
        Standard::High
        | Standard::Max
        | Standard::Min
        | Standard::Val
        | Standard::Inc
        | Standard::Dec
        | Standard::Incl
        | Standard::Excl
        | Standard::Halt
        | Standard::Put => report(at, Rule::NoConstant),
    }
}

/// A standard procedure of one constant.
pub fn unary(standard: Standard, argument: Elaborated<(Pos, Value)>) -> Elaborated<Value>
    ensures { result ≡ unary least standard argument }
{
    match argument {
        Err(breach) => Err(breach),
        Ok((at, value)) => unary_of(standard, at, &value),
    }
}

/// MIN, or else MAX, of a scalar type.
pub fn bound_by(standard: Standard, t: TypeNo, scalar: Scalar) -> Value
    ensures { result ≡ bound_by standard t scalar }
{
    match standard {
        Standard::Min => bound_of(t, scalar, scalar.low),
        Standard::Max
        | Standard::Abs
        | Standard::Cap
        | Standard::Chr
        | Standard::Odd
        | Standard::Ord
        | Standard::High
        | Standard::Val
        | Standard::Inc
        | Standard::Dec
        | Standard::Incl
        | Standard::Excl
        | Standard::Halt
        | Standard::Put => bound_of(t, scalar, scalar.high),
    }
}

/// MIN, or else MAX, of a type.
pub fn bound(standard: Standard, argument: Elaborated<(TypeNo, Scalar)>) -> Elaborated<Value>
    ensures { result ≡ bound standard argument }
{
    match argument {
        Err(breach) => Err(breach),
        Ok((t, scalar)) => Ok(bound_by(standard, t, scalar)),
    }
}

/// VAL of a type and of what stands at a place.
pub fn conversion_call(
    to: Elaborated<(TypeNo, Scalar)>,
    at: Pos,
    value: Elaborated<Value>,
) -> Elaborated<Value>
    ensures { result ≡ conversion_call least to at value }
{
    match both(to, value) {
        Err(breach) => Err(breach),
        Ok(((t, scalar), value)) => conversion_of(t, scalar, at, &value),
    }
}
