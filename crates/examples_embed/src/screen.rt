//! A stream in memory.

ghost use Rattle.std.specs.Prelude.{◌≡◌, Some};

use m2c::Sink;
use std::alloc::Global;

/// A stream that keeps what it takes.
#[derive(Drop)]
pub struct Screen {
    pub bytes: Vec<u8>,
    failures: u64,
}

impl Screen {
    /// A stream that took nothing yet.
    pub fn new(alloc: Global) -> Screen
        ensures { result.failures ≡ 0 }
    {
        Screen {
            bytes: Vec::new(alloc),
            failures: 0,
        }
    }
}

impl Sink for Screen {
    ghost failed = { λ s. s.failures };

    ghost reported = { λ s. Some s.bytes.items };

    fn take(&mut self, byte: u8) -> bool {
        let is_taken = self.bytes.push(byte).is_ok();
        if !is_taken {
            self.failures += 1;
        }
        is_taken
    }

    fn failures(&self) -> u64 {
        self.failures
    }
}
