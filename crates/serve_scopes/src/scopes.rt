//! Scopes and types.

use crate::places::Range;
use indexmap::IndexMap;

/// What a name stands for.
#[derive(Clone, Copy, Debug, PartialEq, Eq)]
pub enum Standing {
    /// The declaration of this number.
    Declared(usize),
    /// The built in module, or its procedure: neither has a text.
    BuiltIn,
}

/// The names of a block, of a record, of what is imported or of what is exported.
#[derive(Drop)]
pub struct Scope {
    pub names: IndexMap<Vec<u8>, Standing>,
}

/// A stretch of a text in which the names of a scope are known.
#[derive(Clone, Copy)]
pub struct Region {
    pub file: usize,
    pub range: Range,
    /// The number of the scope.
    pub scope: usize,
}

/// What a type is made of, as far as names are told by it.
#[derive(Clone, Copy, Debug, PartialEq, Eq)]
pub enum Shape {
    /// It has no parts with names.
    Plain,
    /// Elements of the type of this number.
    Array(usize),
    /// The fields of the scope of this number.
    Record(usize),
    /// The type of the declaration of this number, which was not known yet.
    Same(usize),
}

/// A type.
#[derive(Clone, Copy)]
pub struct Type {
    pub shape: Shape,
    /// The declaration that its name stands for, of an array that of its elements.
    pub named: Option<usize>,
}
