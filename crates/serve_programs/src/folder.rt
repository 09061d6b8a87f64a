//! Files that are not open.

use std::alloc::{AllocError, Global};

/// The files of the system, or what stands for them.
pub trait Folder {
    /// The bytes of the file of this path. `None` if it is not there, or cannot be read. The only error is want of memory.
    fn read(&self, alloc: Global, path: &str) -> Result<Option<Vec<u8>>, AllocError>;

    /// The names of the files in the folder of this path, which ends with a slash or is empty. None if it cannot be listed.
    /// The only error is want of memory.
    fn list(&self, alloc: Global, folder: &str) -> Result<Vec<String>, AllocError>;
}

/// What is asked of all programs.
#[derive(Drop)]
pub struct Setting {
    /// The folders in which modules are looked for behind the program's own, each without a slash at its end or with one.
    pub libraries: Vec<String>,
    /// How many threads a build has, from 1 to `m2c::MAX_WORKERS`.
    pub workers: usize,
    /// How many pages of 65536 bytes a program may have, from 1 to `m2c::MAX_PAGES`.
    pub pages: u32,
}
