//! The folders of the system in which modules are looked for.

use find_modules::{FindFault, Folders, ModuleFolders, Part};
use m2_tree::Name;
use std::alloc::{AllocError, Global};
use std::io;
use std::io::ErrorKind;
use std::rt::Files;
use system_streams::{is_stream, read_text};

/// The folder of a program, and behind it the folders of libraries.
#[derive(Drop)]
pub struct Places<'a, R> {
    rt: &'a R,
    program: &'a str,
    pub folders: Folders,
}

/// Why a file gave no text.
fn fault_of(alloc: Global, path: &str, error: io::Error) -> FindFault {
    if error.kind() == ErrorKind::OutOfMemory {
        return FindFault::NoMemory;
    }
    match format!(in alloc; "{path}: {error}") {
        Ok(words) => FindFault::Unread(words),
        Err(_) => FindFault::NoMemory,
    }
}

impl<'a, R: Files + AllocGlobal> Places<'a, R> {
    /// The folder of the program of this file, and behind it these folders.
    pub fn of(
        rt: &'a R,
        program: &'a str,
        libraries: &[String],
    ) -> Result<Places<'a, R>, AllocError> {
        Ok(Places {
            rt,
            program,
            folders: Folders::of(rt.alloc(), program, libraries)?,
        })
    }

    /// What stands in front of the names of the files of each folder.
    pub fn fronts(&self) -> &[String] {
        &self.folders.fronts
    }

    /// The path of a module's file in the folder of this number.
    pub fn path_of(&self, folder: usize, module: &Name, part: Part) -> Result<String, AllocError> {
        self.folders.path_of(self.rt.alloc(), folder, module, part)
    }
}

impl<R: Files + AllocGlobal> ModuleFolders for Places<'_, R> {
    ghost use Rattle.std.specs.Vec.{vec_len};

    ghost count = { λ p. vec_len p.folders.fronts };

    // Of what a file holds, nothing is known.
    ghost gives = { λ _ _ _ _ _. Unit {0} };

    fn count(&self) -> usize {
        self.folders.fronts.len()
    }

    // The program's own file is read already, so it is in no folder.
    fn read(
        &self,
        alloc: Global,
        folder: usize,
        module: &Name,
        part: Part,
    ) -> Result<Option<Vec<u8>>, FindFault> {
        let path = self.path_of(folder, module, part)?;
        if path.as_str() == self.program {
            return Ok(None);
        }
        if is_stream(self.rt, path.as_str()) {
            let words = format!(in alloc; "{path}: it is not a file")?;
            return Err(FindFault::Unread(words));
        }
        match read_text(self.rt, path.as_str()) {
            Ok(text) => Ok(Some(text)),
            Err(error) => match error.kind() {
                ErrorKind::NotFound | ErrorKind::NotADirectory => Ok(None),
                _ => Err(fault_of(alloc, path.as_str(), error)),
            },
        }
    }
}
