//! How types look in memory.

use crate::finding::Found;
use crate::views::{ModuleView, Views};
use debug_history::State;
use layout_storage::{Extent, Kind, Row, bytes_of};
use typed_tree::{Dictionary, Home, INTEGER, Scalar, Shape, TypeNo, are_same, made_of, scalar_of};

/// A place in memory that holds a value of a type. The type is known in the module of this number.
#[derive(Clone, Copy, PartialEq, Eq)]
pub struct Spot {
    pub module: usize,
    pub of: TypeNo,
    pub address: u32,
}

/// An array: its least index, how many elements it has, and of how many bytes each.
#[derive(Clone, Copy)]
pub struct Elements {
    pub index: TypeNo,
    pub element: TypeNo,
    pub low: i64,
    pub count: u32,
    pub one: u32,
}

/// How a value of a type looks.
#[derive(Clone, Copy)]
pub enum Form<'a> {
    /// A scalar, and the type that it computes in.
    Scalar(Kind, TypeNo),
    Set,
    Array(Elements),
    Record(&'a Dictionary<TypeNo>, &'a Row),
    Procedure,
}

/// The half of the numbers of 32 bits, and all of them.
const HALF: i64 = 2147483648;

const WHOLE: i64 = 4294967296;

/// What a predeclared scalar type is.
fn predeclared(t: TypeNo, scalar: Scalar) -> Kind {
    if are_same(t, INTEGER) {
        Kind::Integer
    } else {
        Kind::Natural(scalar.high.unsigned_abs())
    }
}

/// How many values there are from one to another.
pub fn count_of(scalar: Scalar) -> u32 {
    u32::try_from(scalar.high.abs_diff(scalar.low))
        .unwrap_or(u32::MAX)
        .saturating_add(1)
}

impl ModuleView {
    /// What is kept of the storage of a type.
    fn extent_of(&self, t: TypeNo) -> Option<&Extent> {
        match t.home {
            Home::Predeclared => None,
            Home::Module(home) => self.layout.extents.find(home, t.number),
        }
    }

    /// How many bytes a value of a type takes.
    pub fn size_of(&self, t: TypeNo) -> u32 {
        match self.extent_of(t) {
            Some(Extent::Cell(kind)) => bytes_of(*kind),
            Some(Extent::Array(_, all)) => *all,
            Some(Extent::Row(row)) => row.size,
            None => match scalar_of(&self.typed.types, t) {
                Some(scalar) => bytes_of(predeclared(t, scalar)),
                None => 4,
            },
        }
    }

    /// How an array looks.
    fn array_of(&self, index: TypeNo, element: TypeNo) -> Option<Form<'_>> {
        let scalar = scalar_of(&self.typed.types, index)?;
        Some(Form::Array(Elements {
            index,
            element,
            low: scalar.low,
            count: count_of(scalar),
            one: self.size_of(element),
        }))
    }

    /// How a value of a type looks.
    pub fn form_of(&self, t: TypeNo) -> Option<Form<'_>> {
        let Some(made) = made_of(&self.typed.types, t) else {
            return Some(match scalar_of(&self.typed.types, t) {
                Some(scalar) => Form::Scalar(predeclared(t, scalar), scalar.base),
                None => Form::Set,
            });
        };
        match (&made.shape, self.extent_of(t)) {
            (Shape::Scalar(scalar), Some(Extent::Cell(kind))) => {
                Some(Form::Scalar(*kind, scalar.base))
            }
            (Shape::Set, _) => Some(Form::Set),
            (Shape::Array(index, element), _) => self.array_of(*index, *element),
            (Shape::Record(fields), Some(Extent::Row(row))) => Some(Form::Record(fields, row)),
            (Shape::Procedure(_), _) => Some(Form::Procedure),
            _ => None,
        }
    }
}

/// The number that a cell at an address holds.
pub fn cell(state: &State, address: u32, kind: Kind) -> i64 {
    let raw = state.number(address, bytes_of(kind) as usize);
    let raw = i64::try_from(raw).unwrap_or(0);
    match kind {
        Kind::Natural(_) => raw,
        Kind::Integer => {
            if raw < HALF {
                raw
            } else {
                raw.saturating_sub(WHOLE)
            }
        }
        Kind::Between(low, _) => raw.saturating_add(low),
    }
}

impl Views {
    /// How the value at a place looks.
    pub fn form_at(&self, spot: Spot) -> Option<Form<'_>> {
        self.modules.get(spot.module)?.form_of(spot.of)
    }

    /// How many bytes the value at a place takes.
    pub fn size_at(&self, spot: Spot) -> u32 {
        self.modules
            .get(spot.module)
            .map_or(0, |it| it.size_of(spot.of))
    }

    /// The address of what is found, and how many bytes it takes.
    pub fn extent_of(&self, found: Found) -> (u32, u32) {
        match found {
            Found::Value(spot) => (spot.address, self.size_at(spot)),
            Found::Open(spot, high) => {
                let count = high.saturating_add(1);
                (spot.address, self.size_at(spot).saturating_mul(count))
            }
        }
    }

    /// The number that a scalar at a place holds, and the type that it computes in. Nothing if it is no scalar.
    pub fn scalar_at(&self, state: &State, spot: Spot) -> Option<(i64, TypeNo)> {
        match self.form_at(spot)? {
            Form::Scalar(kind, base) => Some((cell(state, spot.address, kind), base)),
            _ => None,
        }
    }
}
