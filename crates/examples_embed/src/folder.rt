//! A folder in memory, into which modules are saved and from which they are read.

ghost use Rattle.std.specs.Option.{IfSome};
ghost use Rattle.std.specs.Prelude.{◌≡◌, ◌<◌, None};
ghost use Rattle.std.specs.Vec.{vec_len};

use m2c::{InDir, OutDir};
use std::alloc::{AllocError, Global};

/// Files by name.
#[derive(Drop)]
pub struct Folder {
    pub files: Vec<(String, Vec<u8>)>,
    failures: u64,
    alloc: Global,
}

impl Folder {
    /// An empty folder.
    pub fn new(alloc: Global) -> Folder
        ensures { result.failures ≡ 0 }
    {
        Folder {
            files: Vec::new(alloc),
            failures: 0,
            alloc,
        }
    }

    fn place_of(&self, name: &str) -> Option<usize>
        ensures { IfSome result (λ at. at < vec_len self.now.files) }
    {
        self.files.iter().position(|file| file.0.as_str() == name)
    }

    fn with_file(&mut self, name: &str, bytes: &[u8]) -> Result<(), AllocError>
        ensures { self.new.failures ≡ self.old.failures }
    {
        let name = String::from_str(self.alloc, name)?;
        let bytes = Vec::from_slice(self.alloc, bytes)?;
        self.files.push((name, bytes))?;
        Ok(())
    }
}

impl InDir for Folder {
    // Of what a file holds, nothing is said.
    ghost gives = { λ _ _ _. Unit {0} };

    fn read(&mut self, alloc: Global, name: &str) -> Option<Vec<u8>> {
        let at = self.place_of(name)?;
        let file = self.files.get(at)?;
        Vec::from_slice(alloc, &file.1).ok()
    }

    fn front(&self) -> &str {
        ""
    }

    fn reason(&self) -> &str {
        ""
    }
}

impl OutDir for Folder {
    ghost failed = { λ f. f.failures };

    ghost calls = { λ _. None };

    fn remove(&mut self, name: &str) -> bool {
        if let Some(at) = self.place_of(name) {
            self.files.swap_remove(at);
        }
        true
    }

    fn write(&mut self, name: &str, bytes: &[u8]) -> bool {
        let is_written = self.with_file(name, bytes).is_ok();
        if !is_written {
            self.failures += 1;
        }
        is_written
    }

    fn failures(&self) -> u64 {
        self.failures
    }
}
