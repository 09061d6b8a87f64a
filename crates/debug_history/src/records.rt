//! What happens in a run.

/// A function that runs, or waits for one that it called.
#[derive(Clone, Copy, Debug, PartialEq, Eq)]
pub struct Frame {
    /// The number of the function among those of all modules.
    pub function: u32,
    /// The address of its variables.
    pub base: u32,
    /// The number of the last mark in it that was come to. Nothing if its code has just begun.
    pub mark: Option<u32>,
}

/// Bytes that are written: so many from an address on.
#[derive(Clone, Copy, Debug, PartialEq, Eq)]
pub struct Piece {
    /// The bytes that stood there before if it was made, and those that it writes if it was undone. The lowest is the first.
    pub value: u64,
    pub address: u32,
    pub width: u8,
    /// Whether it is a part of many bytes that are copied or cleared.
    pub is_block: bool,
}

/// A thing that happens. It holds what is needed to undo it, and once it was undone what is needed to make it again.
#[derive(Clone, Copy, Debug, PartialEq, Eq)]
pub enum Record {
    /// The program prints a byte.
    Printed(u8),
    /// A function begins.
    Entered(Frame),
    /// This function is left.
    Left(Frame),
    /// The innermost function comes to a mark. This is the one that it comes from, and if it was undone the one to which it comes.
    Met(Option<u32>),
    /// Bytes are written.
    Wrote(Piece),
}
