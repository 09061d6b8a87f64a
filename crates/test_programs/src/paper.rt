//! A stream that asks for no memory.

ghost use Rattle.std.specs.Prelude.{◌≡◌};

use run_directory::Sink;
use std::str;

/// How many bytes are kept.
const KEPT: usize = 32;

/// A stream that counts the bytes that it takes, keeps the first of them, and refuses each for which it has no room.
#[derive(Drop)]
pub struct Paper {
    kept: [u8; KEPT],
    /// How many bytes it took.
    pub count: usize,
    failures: u64,
    room: usize,
}

impl Paper {
    /// A stream that took nothing yet, and has room for `room` bytes.
    pub fn with_room(room: usize) -> Paper
        ensures { result.failures ≡ 0 }
    {
        Paper {
            kept: [0; KEPT],
            count: 0,
            failures: 0,
            room,
        }
    }

    /// The first of the bytes that it took.
    pub fn text(&self) -> &str {
        str::from_utf8(&self.kept[..self.count.min(KEPT)]).unwrap_or("no text")
    }
}

impl Sink for Paper {
    ghost use Rattle.std.specs.Prelude.{None};

    ghost failed = { λ s. s.failures };

    ghost reported = { λ _. None };

    fn take(&mut self, byte: u8) -> bool {
        if self.count >= self.room {
            self.failures += 1;
            return false;
        }
        if self.count < KEPT {
            self.kept[self.count] = byte;
        }
        self.count += 1;
        true
    }

    fn failures(&self) -> u64 {
        self.failures
    }
}
