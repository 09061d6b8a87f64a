//! The functions that the one module asks of its host.

use crate::wasi::{EXIT_TYPE, PUT, STOP, WRITE_TYPE};
use std::alloc::{AllocError, Global as Alloc};
use tree_parts::Items;
use wasm_core::{Import, ImportKind};

/// Whose functions the one module imports.
#[derive(Clone, Copy, PartialEq, Eq)]
pub enum Host {
    /// WASI preview 1: `fd_write` and `proc_exit`.
    Wasi,
    /// Ours: `put` and `stop`.
    Plain,
}

/// The names of the modules of functions.
const WASI: &[u8] = b"wasi_snapshot_preview1";

const OURS: &[u8] = b"host";

/// The type of `put` and `stop` of our host.
const PUT_TYPE: u32 = 0;

/// The functions of our host, by their numbers.
const OUR_PUT: u32 = 0;

const OUR_STOP: u32 = 1;

fn function(alloc: Alloc, from: &[u8], name: &[u8], of_type: u32) -> Result<Import, AllocError> {
    Ok(Import {
        module_name: Items::from_slice(alloc, from)?,
        name: Items::from_slice(alloc, name)?,
        kind: ImportKind::Function(of_type),
    })
}

impl Host {
    /// The two functions that are imported.
    pub fn imports(self, alloc: Alloc) -> Result<Items<Import>, AllocError> {
        let (first, second) = match self {
            Host::Wasi => (
                function(alloc, WASI, b"fd_write", WRITE_TYPE)?,
                function(alloc, WASI, b"proc_exit", EXIT_TYPE)?,
            ),
            Host::Plain => (
                function(alloc, OURS, b"put", PUT_TYPE)?,
                function(alloc, OURS, b"stop", PUT_TYPE)?,
            ),
        };
        let mut imports = Items::new(alloc);
        imports.push(first)?;
        imports.push(second)?;
        Ok(imports)
    }

    /// The number of what stands for `put`.
    pub fn put(self) -> u32 {
        match self {
            Host::Wasi => PUT,
            Host::Plain => OUR_PUT,
        }
    }

    /// The number of what stands for `stop`.
    pub fn stop(self) -> u32 {
        match self {
            Host::Wasi => STOP,
            Host::Plain => OUR_STOP,
        }
    }

    /// How many pages of memory are added behind the program's.
    pub fn pages(self) -> u32 {
        match self {
            Host::Wasi => 1,
            Host::Plain => 0,
        }
    }

    /// The name under which the function that runs all is exported.
    pub fn begin(self) -> &'static [u8] {
        match self {
            Host::Wasi => b"_start",
            Host::Plain => b"run",
        }
    }
}
