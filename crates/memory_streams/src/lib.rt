//! Folders and streams over memory, and what is executed there.
#![tactic(auto)]

mod ran;

ghost use Rattle.std.specs.Prelude.{◌≡◌};

pub use ran::execute_two;
use run_directory::{InDir, Sink};
use std::alloc::Global;

/// The folder of a build: link, and the other modules under their names.
#[derive(Drop)]
pub struct Folder<'a> {
    pub link: &'a [u8],
    pub modules: &'a [(String, Vec<u8>)],
}

impl InDir for Folder<'_> {
    ghost gives = { λ _ _ _. Unit {0} };

    fn read(&mut self, alloc: Global, name: &str) -> Option<Vec<u8>> {
        if name == "link.wasm" {
            return Vec::from_slice(alloc, self.link).ok();
        }
        for module in self.modules {
            if name.len() == module.0.len() + 5 && name.starts_with(module.0.as_str()) {
                return Vec::from_slice(alloc, &module.1).ok();
            }
        }
        None
    }

    fn front(&self) -> &str {
        ""
    }

    fn reason(&self) -> &str {
        ""
    }
}

/// A stream that keeps what it takes, and refuses each byte for which it has no room.
#[derive(Drop)]
pub struct Screen {
    /// What it took.
    pub bytes: Vec<u8>,
    /// How often it refused a byte.
    pub failures: u64,
    room: usize,
}

impl Screen {
    /// A stream that took nothing yet, and has room for `room` bytes.
    pub fn with_room(alloc: Global, room: usize) -> Screen
        ensures { result.failures ≡ 0 }
    {
        Screen {
            bytes: Vec::new(alloc),
            failures: 0,
            room,
        }
    }

    /// A stream that took nothing yet, and has room for all.
    pub fn new(alloc: Global) -> Screen
        ensures { result.failures ≡ 0 }
    {
        Screen::with_room(alloc, usize::MAX)
    }
}

impl Sink for Screen {
    ghost use Rattle.std.specs.Prelude.{Some};

    ghost failed = { λ s. s.failures };

    ghost reported = { λ s. Some s.bytes.items };

    fn take(&mut self, byte: u8) -> bool {
        if self.bytes.len() >= self.room || self.bytes.push(byte).is_err() {
            self.failures += 1;
            return false;
        }
        true
    }

    fn failures(&self) -> u64 {
        self.failures
    }
}
