//! The types that are known in a module.

ghost use Rattle.std.specs.Prelude.{◌≡◌, Option, Some};
ghost use Rattle.std.specs.Option.{option_copied, option_map};
ghost use Rattle.typed_tree.specs.Known.{made_in, made_at, scalar_made, scalar_at, predeclared_scalar, cells_at, is_result, is_result_made};

use crate::reached::Reached;
use crate::shape::{Made, Scalar, Shape};
use crate::types::{BOOLEAN, CARDINAL, CHAR, Home, INTEGER, TypeNo};
use tree_parts::Items;

/// The types that a module makes, and those that the modules make whose types can be met in it.
#[derive(Drop)]
pub struct Types {
    /// The number of the module.
    pub home: u32,
    pub own: Items<Made>,
    pub others: Reached,
}

fn made_in(types: &Types, home: u32, number: usize) -> Option<&Made>
    ensures { option_copied result ≡ made_in types.now home number }
{
    if home == types.home {
        return types.own.get(number);
    }
    match types.others.find(home) {
        None => None,
        Some(made) => made.get().get(number),
    }
}

/// How a type is made that a module makes.
pub fn made_of(types: &Types, t: TypeNo) -> Option<&Made>
    ensures { option_copied result ≡ made_at types.now t }
{
    match t.home {
        Home::Predeclared => None,
        Home::Module(home) => made_in(types, home, t.number),
    }
}

fn predeclared_scalar(number: usize) -> Option<Scalar>
    ensures { result ≡ predeclared_scalar number }
{
    match number {
        0 => Some(Scalar {
            base: INTEGER,
            low: -2_147_483_648,
            high: 2_147_483_647,
        }),
        1 => Some(Scalar {
            base: CARDINAL,
            low: 0,
            high: 4_294_967_295,
        }),
        2 => Some(Scalar {
            base: BOOLEAN,
            low: 0,
            high: 1,
        }),
        3 => Some(Scalar {
            base: CHAR,
            low: 0,
            high: 255,
        }),
        _ => None,
    }
}

fn scalar_made(made: Option<&Made>) -> Option<Scalar>
    ensures { result ≡ scalar_made (option_copied made.entry) }
{
    match made {
        None => None,
        Some(made) => match &made.shape {
            Shape::Scalar(scalar) => Some(*scalar),
            Shape::Set
            | Shape::Array(_, _)
            | Shape::Record(_)
            | Shape::Procedure(_)
            | Shape::Open(_) => None,
        },
    }
}

/// What a type is as a scalar.
pub fn scalar_of(types: &Types, t: TypeNo) -> Option<Scalar>
    ensures { result ≡ scalar_at types.now t }
{
    match t.home {
        Home::Predeclared => predeclared_scalar(t.number),
        Home::Module(home) => scalar_made(made_in(types, home, t.number)),
    }
}

/// How many scalar cells a variable of a type has.
pub fn cells_of(types: &Types, t: TypeNo) -> u32
    ensures { result ≡ cells_at types.now t }
{
    match made_of(types, t) {
        None => 1,
        Some(made) => made.cells,
    }
}

fn is_result_made(made: Option<&Made>) -> bool
    ensures { result ≡ is_result_made (option_copied made.entry) }
{
    match made {
        None => false,
        Some(made) => match &made.shape {
            Shape::Scalar(_) | Shape::Set | Shape::Procedure(_) => true,
            Shape::Array(_, _) | Shape::Record(_) | Shape::Open(_) => false,
        },
    }
}

/// Whether it is the type of a value that is no array and no record, which a function may give.
pub fn is_result(types: &Types, t: TypeNo) -> bool
    ensures { result ≡ is_result types.now t }
{
    match t.home {
        Home::Predeclared => true,
        Home::Module(home) => is_result_made(made_in(types, home, t.number)),
    }
}
