//! Small pieces of values.

ghost use Rattle.std.specs.Prelude.{◌≡◌, IfOk};
ghost use Rattle.check_value.specs.Operations.{of_value, truth_of};

use crate::computed::Computed;
use check_scope::Elaborated;
use std::alloc::{AllocError, Global};
use tree_parts::Boxed;
use typed_tree::{BOOLEAN, TypedExpr, Value};

/// A constant as a value.
pub fn of_value(value: Elaborated<Value>) -> Elaborated<Computed>
    ensures { result ≡ of_value value }
{
    match value {
        Err(breach) => Err(breach),
        Ok(value) => Ok(Computed::Constant(value)),
    }
}

/// A BOOLEAN.
pub fn truth_of(e: TypedExpr) -> Computed
    ensures { result ≡ truth_of e }
{
    Computed::Scalar(BOOLEAN, BOOLEAN, e)
}

/// Two operands in boxes.
pub fn boxes_of(
    alloc: Global,
    x: TypedExpr,
    y: TypedExpr,
) -> Result<(Boxed<TypedExpr>, Boxed<TypedExpr>), AllocError>
    ensures { IfOk result (λ p. p ≡ (x, y)) }
{
    let first = Boxed::new(alloc, x)?;
    let second = Boxed::new(alloc, y)?;
    Ok((first, second))
}
