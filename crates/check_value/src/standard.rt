//! Standard functions.

ghost use Rattle.std.specs.Prelude.{◌≡◌, IfOk};
ghost use Rattle.check_scope.specs.Elaborated.{least};
ghost use Rattle.check_value.specs.Functions.{form_of, unary_takes, unary_built, unary_at, type_named, bound_at, conversion_at, high_of};

use crate::computed::{Computed, Designated};
use crate::pieces::of_value;
use check_const::{bound_by, conversion_of, scalar_type, unary_of};
use check_scope::{Elaborated, both, report};
use m2_rule::Rule;
use m2_tree::Pos;
use std::alloc::{AllocError, Global};
use tree_parts::Boxed;
use typed_tree::{
    BOOLEAN, CARDINAL, CHAR, Scalar, Standard, TypeNo, TypedExpr, Types, are_same, is_numeric,
    scalar_of,
};

/// A standard function of one value.
#[derive(Clone, Copy)]
pub enum Unary {
    Abs,
    Cap,
    Chr,
    Odd,
    Ord,
}

/// What a standard procedure asks for in an expression.
#[derive(Clone, Copy)]
pub enum Form {
    /// One value.
    Unary(Unary),
    /// One type.
    Bound,
    /// A type and a value.
    Conversion,
    /// An open array.
    High,
    /// It gives nothing.
    Proper,
}

/// What a standard procedure asks for in an expression.
pub fn form_of(standard: Standard) -> Form
    ensures { result ≡ form_of standard }
{
    match standard {
        Standard::Abs => Form::Unary(Unary::Abs),
        Standard::Cap => Form::Unary(Unary::Cap),
        Standard::Chr => Form::Unary(Unary::Chr),
        Standard::Odd => Form::Unary(Unary::Odd),
        Standard::Ord => Form::Unary(Unary::Ord),
        Standard::Max | Standard::Min => Form::Bound,
        Standard::Val => Form::Conversion,
        Standard::High => Form::High,
        Standard::Inc
        | Standard::Dec
        | Standard::Incl
        | Standard::Excl
        | Standard::Halt
        | Standard::Put => Form::Proper,
    }
}

fn unary_takes(function: Unary, base: TypeNo) -> bool
    ensures { result ≡ unary_takes function base }
{
    match function {
        Unary::Abs | Unary::Chr | Unary::Odd => is_numeric(base),
        Unary::Cap => are_same(base, CHAR),
        Unary::Ord => true,
    }
}

fn unary_built(function: Unary, base: TypeNo, e: Boxed<TypedExpr>) -> Computed
    ensures { result ≡ unary_built function base e }
{
    match function {
        Unary::Abs => Computed::Scalar(base, base, TypedExpr::Abs(base, e)),
        Unary::Cap => Computed::Scalar(CHAR, CHAR, TypedExpr::Cap(e)),
        Unary::Chr => Computed::Scalar(CHAR, CHAR, TypedExpr::Chr(e)),
        Unary::Odd => Computed::Scalar(BOOLEAN, BOOLEAN, TypedExpr::Odd(e)),
        Unary::Ord => Computed::Scalar(CARDINAL, CARDINAL, TypedExpr::Ord(e)),
    }
}

/// A standard function of one value at a place: 43 if it does not take the value, and 52 if a constant is out of range.
pub fn unary_at(
    alloc: Global,
    standard: Standard,
    function: Unary,
    at: Pos,
    value: Computed,
) -> Result<Elaborated<Computed>, AllocError>
    ensures { IfOk result (λ v. v ≡ unary_at least standard function at value) }
{
    match value {
        Computed::Constant(value) => Ok(of_value(unary_of(standard, at, &value))),
        Computed::Scalar(_, base, e) => {
            if !unary_takes(function, base) {
                return Ok(report(at, Rule::WrongArgument));
            }
            Ok(Ok(unary_built(function, base, Boxed::new(alloc, e)?)))
        }
        _ => Ok(report(at, Rule::WrongArgument)),
    }
}

/// An argument that names a scalar type: 33 if it does not.
pub fn type_named(types: &Types, at: Pos, designated: Designated) -> Elaborated<(TypeNo, Scalar)>
    ensures { result ≡ type_named least types.now at designated }
{
    match designated {
        Designated::Type(t) => scalar_type(at, t, scalar_of(types, t)),
        Designated::Value(value) => {
            drop(value);
            report(at, Rule::NoType)
        }
        Designated::Variable(_, _) => report(at, Rule::NoType),
        Designated::Open(_, _) => report(at, Rule::NoType),
        Designated::Procedure(_) => report(at, Rule::NoType),
        Designated::Nested(_) => report(at, Rule::NoType),
        Designated::Standard(_) => report(at, Rule::NoType),
        Designated::Module(_) => report(at, Rule::NoType),
    }
}

/// MIN, or else MAX, of a type.
pub fn bound_at(standard: Standard, argument: Elaborated<(TypeNo, Scalar)>) -> Elaborated<Computed>
    ensures { result ≡ bound_at standard argument }
{
    match argument {
        Err(breach) => Err(breach),
        Ok((t, scalar)) => Ok(Computed::Constant(bound_by(standard, t, scalar))),
    }
}

/// VAL of a type and of a value at a place: 43 if the value is no number, and 52 if the type does not have a constant.
pub fn conversion_at(
    alloc: Global,
    to: Elaborated<(TypeNo, Scalar)>,
    at: Pos,
    value: Elaborated<Computed>,
) -> Result<Elaborated<Computed>, AllocError>
    ensures { IfOk result (λ v. v ≡ conversion_at least to at value) }
{
    match both(to, value) {
        Err(breach) => Ok(Err(breach)),
        Ok(((t, scalar), Computed::Constant(value))) => {
            Ok(of_value(conversion_of(t, scalar, at, &value)))
        }
        Ok(((t, scalar), Computed::Scalar(_, base, e))) => {
            if !is_numeric(base) {
                return Ok(report(at, Rule::WrongArgument));
            }
            let operand = Boxed::new(alloc, e)?;
            Ok(Ok(Computed::Scalar(t, scalar.base, TypedExpr::Val(t, operand))))
        }
        Ok(_) => Ok(report(at, Rule::WrongArgument)),
    }
}

/// HIGH of what stands at a place: 43 if that is no open array, or 40 or 53 if it is no value.
pub fn high_of(at: Pos, designated: Designated) -> Elaborated<Computed>
    ensures { result ≡ high_of least at designated }
{
    match designated {
        Designated::Open(_, slot) => {
            Ok(Computed::Scalar(CARDINAL, CARDINAL, TypedExpr::High(slot)))
        }
        Designated::Value(value) => {
            drop(value);
            report(at, Rule::WrongArgument)
        }
        Designated::Variable(_, _) => report(at, Rule::WrongArgument),
        Designated::Type(_) => report(at, Rule::WrongType),
        Designated::Procedure(_) => report(at, Rule::WrongArgument),
        Designated::Nested(_) => report(at, Rule::NoProcedureValue),
        Designated::Standard(_) => report(at, Rule::NoProcedureValue),
        Designated::Module(_) => report(at, Rule::WrongType),
    }
}
