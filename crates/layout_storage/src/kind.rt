//! Scalar types, as a cell keeps them.

ghost use Rattle.std.specs.Prelude.{◌≡◌};
ghost use Rattle.layout_storage.specs.Sizes.{room_for, room_of, width};
ghost use Rattle.layout_storage.specs.Shapes.{scalar_kind, elements_of};
ghost use Rattle.layout_storage.specs.Extents.{kind_of, scalar_of, width_of};
ghost use Rattle.layout_storage.specs.Capped.{cap_size};

use crate::capped::{cap_size, sum};
use typed_tree::{Scalar, TypeNo, are_same, is_integer};

/// A scalar type.
#[derive(Clone, Copy, PartialEq, Eq)]
pub enum Kind {
    /// Numbers from 0 to this one.
    Natural(u64),
    Integer,
    /// A subrange with these bounds. A cell keeps how far a number is above the lower one.
    Between(i64, i64),
}

/// How many bytes a cell has.
#[derive(Clone, Copy, PartialEq, Eq)]
pub enum Width {
    One,
    Two,
    Four,
}

/// The least width for numbers from 0 to this one.
fn width_for(greatest: u64) -> Width
    ensures { result ≡ width_of (room_for greatest) }
{
    if greatest < 256 {
        Width::One
    } else if greatest < 65_536 {
        Width::Two
    } else {
        Width::Four
    }
}

/// The width of the cell of a scalar type.
pub fn width_of(kind: Kind) -> Width
    ensures { result ≡ width_of (room_of (scalar_of kind)) }
{
    match kind {
        Kind::Natural(greatest) => width_for(greatest),
        Kind::Integer => Width::Four,
        Kind::Between(low, high) => width_for(high.abs_diff(low)),
    }
}

/// The bytes of the cell of a scalar type.
pub fn bytes_of(kind: Kind) -> u32
    ensures { result ≡ width (scalar_of kind) }
{
    match width_of(kind) {
        Width::One => 1,
        Width::Two => 2,
        Width::Four => 4,
    }
}

/// What a scalar type is.
pub fn kind_of(t: TypeNo, scalar: Scalar) -> Kind
    ensures { result ≡ kind_of (scalar_kind t scalar) }
{
    if !are_same(t, scalar.base) {
        return Kind::Between(scalar.low, scalar.high);
    }
    if is_integer(t) {
        return Kind::Integer;
    }
    Kind::Natural(scalar.high.unsigned_abs())
}

/// How many elements an array with this index has.
pub fn elements_of(index: Option<Scalar>) -> u32
    ensures { result ≡ cap_size (elements_of index) }
{
    match index {
        None => 0,
        Some(scalar) => sum(cap_size(scalar.high.abs_diff(scalar.low)), 1),
    }
}
