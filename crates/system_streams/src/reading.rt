//! Where files are read from.

ghost use Rattle.std.specs.Prelude.{◌≡◌, []};

use crate::notes::{Notes, nothing, with_failed_read, with_read};
use crate::sources::read_text;
use run_directory::InDir;
use std::alloc::Global;
use std::rt::Files;
use std::{fs, io};

/// A folder from which files are read, or the place from which paths lead to them.
#[derive(Drop)]
pub struct InFolder<'a, R> {
    rt: &'a R,
    path: Option<&'a str>,
    front: &'a str,
    reason: String,
    /// What it was asked to read, in order and with what it gave. Clauses alone speak of it.
    pub noted: Notes,
}

impl<'a, R: Files + AllocGlobal> InFolder<'a, R> {
    /// The folder of this path, with what stands in front of messages on its files. It was asked for nothing.
    pub fn at(rt: &'a R, path: &'a str, front: &'a str) -> InFolder<'a, R>
        ensures { result.noted.reads ≡ [] }
    {
        InFolder {
            rt,
            path: Some(path),
            front,
            reason: String::new(rt.alloc()),
            noted: nothing(),
        }
    }

    /// The files whose names are their paths, with what stands in front of messages on them. It was asked for nothing.
    pub fn of_paths(rt: &'a R, front: &'a str) -> InFolder<'a, R>
        ensures { result.noted.reads ≡ [] }
    {
        InFolder {
            rt,
            path: None,
            front,
            reason: String::new(rt.alloc()),
            noted: nothing(),
        }
    }

    /// The bytes of the file of this name.
    fn bytes_of(&self, alloc: Global, name: &str) -> io::Result<Vec<u8>> {
        match self.path {
            None => read_text(self.rt, name),
            Some(folder) => {
                let path = format!(in alloc; "{folder}/{name}")?;
                fs::read(self.rt, path.as_str())
            }
        }
    }
}

impl<R: Files + AllocGlobal> InDir for InFolder<'_, R> {
    ghost use Rattle.std.specs.Prelude.{Some};
    ghost use Rattle.std.specs.String.{string_bytes};
    ghost use Rattle.system_streams.specs.Folders.{any_files};

    ghost reads = { λ f. Some f.noted.reads };

    ghost gives = { λ f. any_files };

    ghost in_front = { λ f. f.front.now };

    ghost behind = { λ f. string_bytes f.reason };

    fn read(&mut self, alloc: Global, name: &str) -> Option<Vec<u8>> {
        match self.bytes_of(alloc, name) {
            Ok(bytes) => {
                self.noted = with_read(&self.noted, name.as_bytes(), &bytes);
                Some(bytes)
            }
            Err(error) => {
                self.noted = with_failed_read(&self.noted, name.as_bytes());
                self.reason = format!(in alloc; ": {error}").ok()?;
                None
            }
        }
    }

    fn front(&self) -> &str {
        self.front
    }

    fn reason(&self) -> &str {
        self.reason.as_str()
    }
}
