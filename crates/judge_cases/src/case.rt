//! Cases, and what a run may take.

/// What a program reads, and what it is to do.
#[derive(Drop)]
pub struct Case {
    /// What it is called.
    pub name: String,
    /// What the program reads.
    pub input: Vec<u8>,
    /// What it is to print, byte for byte.
    pub output: Vec<u8>,
    /// How it is to end: 0 by itself, 9 by HALT, or with a fault from 1 to 8.
    pub end: u8,
}

/// What the run of a case may take.
#[derive(Clone, Copy)]
pub struct Limits {
    /// The most reductions.
    pub steps: u64,
    /// The most bytes that are printed.
    pub bytes: usize,
}
