//! How types are made.

use crate::dictionary::Dictionary;
use crate::types::TypeNo;
use tree_parts::Items;

/// A scalar type: what it computes in, and its least and greatest value.
#[derive(Clone, Copy, PartialEq, Eq)]
pub struct Scalar {
    pub base: TypeNo,
    pub low: i64,
    pub high: i64,
}

/// A formal of a procedure.
#[derive(Clone, Copy, PartialEq, Eq)]
pub struct Formal {
    /// Whether VAR stands before it.
    pub is_var: bool,
    /// Whether it is an ARRAY OF this type.
    pub is_open: bool,
    pub of: TypeNo,
}

/// What is asked of a procedure, and what it gives.
#[derive(Drop)]
pub struct Signature {
    pub formals: Items<Formal>,
    pub result: Option<TypeNo>,
}

/// How a type is made. A part is named by its type, so structure is shared.
#[derive(Drop)]
pub enum Shape {
    Scalar(Scalar),
    /// BITSET.
    Set,
    /// The index and the elements.
    Array(TypeNo, TypeNo),
    /// The fields, each at the place of its component number.
    Record(Dictionary<TypeNo>),
    Procedure(Signature),
    /// A formal ARRAY OF these elements.
    Open(TypeNo),
}

/// A type that was made, and how many scalar cells a variable of it has.
#[derive(Drop)]
pub struct Made {
    pub shape: Shape,
    pub cells: u32,
}
