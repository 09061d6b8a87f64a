//! Where modules are looked for.

ghost use Rattle.std.specs.Prelude.{◌≡◌, ◌<◌, ℕ, List, Option, IfOk};
ghost use Rattle.find_modules.specs.Found.{bytes_of};

use m2_tree::Name;
use std::alloc::{AllocError, AllocFailed, Global};
use thiserror::Error;

/// Which of the two files of a module.
#[derive(Clone, Copy, Debug, PartialEq, Eq)]
pub enum Part {
    /// The file M.def.
    Definition,
    /// The file M.mod.
    Implementation,
}

/// Why modules were not found.
#[derive(Debug, Drop, Error)]
pub enum FindFault {
    /// A request for memory was refused.
    #[error("no memory")]
    NoMemory,
    /// A file is there, and could not be read: its path, and why.
    #[error("cannot read {0}")]
    Unread(String),
}

impl From<AllocError> for FindFault {
    fn from(_: AllocError) -> FindFault {
        FindFault::NoMemory
    }
}

impl<T: Drop> From<AllocFailed<T>> for FindFault {
    fn from(_: AllocFailed<T>) -> FindFault {
        FindFault::NoMemory
    }
}

/// Folders of source files, in the order in which they are searched, or what stands for them.
pub trait ModuleFolders {
    ghost use Rattle.find_modules.specs.declared.folders.Part.{Part};

    /// How many there are.
    ghost count: { Self → ℕ };

    /// What the folder of this number may give as this part of the module of this name: a text, or nothing.
    ghost gives: { Self → ℕ → List ℕ → Part → Option (List ℕ) → Type 0 };

    /// How many there are.
    fn count(&self) -> usize
        ensures { result ≡ count self.now };

    /// The text of this part of the module of this name in the folder of this number, from 0. `None` if it is not there.
    ///
    /// `Unread` if it is there and cannot be read.
    fn read(
        &self,
        alloc: Global,
        folder: usize,
        module: &Name,
        part: Part,
    ) -> Result<Option<Vec<u8>>, FindFault>
        requires { folder < count self.now }
        ensures { IfOk result (λ text. gives self.now folder module.now part (bytes_of text)) };
}
