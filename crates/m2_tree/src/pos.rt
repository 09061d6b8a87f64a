//! Places in a text.

/// A place in a text: its line and its column, both counted from 1. A column is a byte of its line, and the byte 0AH
/// ends a line. Places are ordered as they stand in the text, by line and then by column.
#[derive(Clone, Copy, Debug, PartialEq, Eq, PartialOrd, Ord)]
pub struct Pos {
    /// The line, from 1.
    pub line: u32,
    /// The column in bytes, from 1.
    pub col: u32,
}
