//! What a build is asked for.

/// How many pages of 65536 bytes a program's memory may have.
pub const MAX_PAGES: u32 = 1024;

/// What a build is asked for.
#[derive(Clone, Copy, Debug)]
pub struct Options {
    /// How many threads work, from 1 to `MAX_WORKERS`.
    pub workers: usize,
    /// How many pages of 65536 bytes the memory has, from 1 to `MAX_PAGES`.
    pub pages: u32,
}
