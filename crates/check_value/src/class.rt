//! What types are, as the checker of bodies sees them.

ghost use Rattle.std.specs.Prelude.{◌≡◌};
ghost use Rattle.std.specs.Option.{option_copied};
ghost use Rattle.check_value.specs.Classes.{class_at, signature_at, array_at};

use typed_tree::{Home, Scalar, Shape, Signature, TypeNo, Types, made_of, scalar_of};

/// What a type is.
#[derive(Clone, Copy)]
pub enum Class {
    Scalar(Scalar),
    /// BITSET.
    Set,
    /// A procedure type.
    Procedure,
    /// An array or a record.
    Whole,
}

/// What a type is.
pub fn class_of(types: &Types, t: TypeNo) -> Class
    ensures { result ≡ class_at types.now t }
{
    match t.home {
        Home::Predeclared => match scalar_of(types, t) {
            None => Class::Set,
            Some(scalar) => Class::Scalar(scalar),
        },
        Home::Module(_) => match made_of(types, t) {
            None => Class::Whole,
            Some(made) => match &made.shape {
                Shape::Scalar(scalar) => Class::Scalar(*scalar),
                Shape::Set => Class::Set,
                Shape::Procedure(_) => Class::Procedure,
                Shape::Array(_, _) | Shape::Record(_) | Shape::Open(_) => Class::Whole,
            },
        },
    }
}

/// The formals and the result of a procedure type.
pub fn signature_of(types: &Types, t: TypeNo) -> Option<&Signature>
    ensures { option_copied result ≡ signature_at types.now t }
{
    match made_of(types, t) {
        None => None,
        Some(made) => match &made.shape {
            Shape::Procedure(signature) => Some(signature),
            Shape::Scalar(_)
            | Shape::Set
            | Shape::Array(_, _)
            | Shape::Record(_)
            | Shape::Open(_) => None,
        },
    }
}

/// The index and the elements of an array type.
pub fn array_of(types: &Types, t: TypeNo) -> Option<(TypeNo, TypeNo)>
    ensures { result ≡ array_at types.now t }
{
    match made_of(types, t) {
        None => None,
        Some(made) => match &made.shape {
            Shape::Array(index, element) => Some((*index, *element)),
            Shape::Scalar(_)
            | Shape::Set
            | Shape::Record(_)
            | Shape::Procedure(_)
            | Shape::Open(_) => None,
        },
    }
}
