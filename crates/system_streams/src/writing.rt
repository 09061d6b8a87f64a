//! Where modules are saved.

ghost use Rattle.std.specs.Prelude.{◌≡◌, []};

use crate::notes::{Notes, nothing, with_removal, with_write};
use std::io::ErrorKind;
use std::rt::Files;
use std::{fs, io};
use write_directory::OutDir;

/// Removes the file of this path, if it is there.
pub fn remove_if_there<R: Files>(rt: &R, path: &str) -> io::Result<()> {
    match fs::remove_file(rt, path) {
        Ok(()) => Ok(()),
        Err(error) => {
            if error.kind() == ErrorKind::NotFound {
                Ok(())
            } else {
                Err(error)
            }
        }
    }
}

/// A folder into which files are written.
#[derive(Drop)]
pub struct OutFolder<'a, R> {
    rt: &'a R,
    path: &'a str,
    fault: String,
    /// How often it failed.
    pub failures: u64,
    /// What it was asked to do, in order and with its answers. Clauses alone speak of it.
    pub noted: Notes,
}

impl<'a, R: Files + AllocGlobal> OutFolder<'a, R> {
    /// The folder of this path, which did not fail, and was asked for nothing.
    pub fn at(rt: &'a R, path: &'a str) -> OutFolder<'a, R>
        ensures failures { result.failures ≡ 0 }
        ensures noted { result.noted.calls ≡ [] }
    {
        OutFolder {
            rt,
            path,
            fault: String::new(rt.alloc()),
            failures: 0,
            noted: nothing(),
        }
    }

    /// What failed first, and why. Empty if nothing failed, or memory was refused for these words.
    pub fn fault(&self) -> &str {
        self.fault.as_str()
    }

    /// Where the file of this name stands.
    fn path_of(&self, name: &str) -> io::Result<String> {
        let path = format!(in self.rt.alloc(); "{}/{name}", self.path)?;
        Ok(path)
    }

    /// Removes the file of this name, if it is there.
    fn remove_file(&self, name: &str) -> io::Result<()> {
        let path = self.path_of(name)?;
        remove_if_there(self.rt, path.as_str())
    }

    /// Writes the file of this name.
    fn write_file(&self, name: &str, bytes: &[u8]) -> io::Result<()> {
        let path = self.path_of(name)?;
        fs::write(self.rt, path.as_str(), bytes)
    }

    /// Notes what failed, if nothing did before.
    fn note(&mut self, doing: &str, name: &str, error: io::Error)
        ensures failures { self.new.failures ≡ self.old.failures }
        ensures noted { self.new.noted.calls ≡ self.old.noted.calls }
    {
        if !self.fault.is_empty() {
            return;
        }
        let words = format!(in self.rt.alloc(); "cannot {doing} {}/{name}: {error}", self.path);
        if let Ok(fault) = words {
            self.fault = fault;
        }
    }
}

impl<R: Files + AllocGlobal> OutDir for OutFolder<'_, R> {
    ghost use Rattle.std.specs.Prelude.{Some};

    ghost failed = { λ f. f.failures };

    ghost calls = { λ f. Some f.noted.calls };

    fn remove(&mut self, name: &str) -> bool {
        match self.remove_file(name) {
            Ok(()) => {
                self.noted = with_removal(&self.noted, name.as_bytes(), true);
                true
            }
            Err(error) => {
                self.note("remove", name, error);
                self.failures += 1;
                self.noted = with_removal(&self.noted, name.as_bytes(), false);
                false
            }
        }
    }

    fn write(&mut self, name: &str, bytes: &[u8]) -> bool {
        match self.write_file(name, bytes) {
            Ok(()) => {
                self.noted = with_write(&self.noted, name.as_bytes(), bytes, true);
                true
            }
            Err(error) => {
                self.note("write", name, error);
                self.failures += 1;
                self.noted = with_write(&self.noted, name.as_bytes(), bytes, false);
                false
            }
        }
    }

    fn failures(&self) -> u64 {
        self.failures
    }
}
