//! What is kept of the storage of types.

ghost use Rattle.std.specs.Prelude.{◌≡◌};
ghost use Rattle.std.specs.Option.{option_copied};
ghost use Rattle.layout_storage.specs.Extents.{size_in, element_in, field_in, kind_in, or_nothing};

use crate::capped::{cap_size, product};
use crate::kind::{Kind, bytes_of};
use crate::row::{Row, start_of};

/// The storage of a type. A size or an offset that does not fit into 32 bits is the greatest number that does.
#[derive(Drop)]
pub enum Extent {
    Cell(Kind),
    /// The size of an element, and of the whole.
    Array(u32, u32),
    Row(Row),
}

/// The size of a type.
pub fn size_in(extent: &Extent) -> u32
    ensures { result ≡ size_in extent.now }
{
    match extent {
        Extent::Cell(kind) => bytes_of(*kind),
        Extent::Array(_, all) => *all,
        Extent::Row(row) => row.size,
    }
}

/// The size of an element of an array.
pub fn element_in(extent: &Extent) -> u32
    ensures { result ≡ element_in extent.now }
{
    match extent {
        Extent::Cell(_) => 0,
        Extent::Array(one, _) => *one,
        Extent::Row(_) => 0,
    }
}

/// The offset of a component.
pub fn field_in(extent: &Extent, number: usize) -> u32
    ensures { result ≡ field_in extent.now number }
{
    match extent {
        Extent::Cell(_) => 0,
        Extent::Array(one, _) => product(cap_size(number as u64), *one),
        Extent::Row(row) => start_of(row, number),
    }
}

/// What a type is as a scalar.
pub fn kind_in(extent: &Extent) -> Option<Kind>
    ensures { result ≡ kind_in extent.now }
{
    match extent {
        Extent::Cell(kind) => Some(*kind),
        Extent::Array(_, _) => None,
        Extent::Row(_) => None,
    }
}
