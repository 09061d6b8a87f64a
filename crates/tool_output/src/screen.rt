//! Where a running program prints.

ghost use Rattle.std.specs.Prelude.{◌≡◌, IfOk};

use std::alloc::{AllocError, Global};
use std::io;
use wasm_engine::Sink;

/// How many bytes are kept before they are written.
const ROOM: usize = 65536;

/// A stream that keeps bytes, and writes them if there is no room for more, or if it is told to.
#[derive(Drop)]
pub struct Screen<P> {
    to: P,
    kept: Vec<u8>,
    cause: Option<io::Error>,
    last: u8,
    /// How often it failed.
    pub failures: u64,
}

impl<P: Print + Drop> Screen<P> {
    /// A stream that took nothing. The only error is that memory ran out.
    pub fn new(alloc: Global, to: P) -> Result<Screen<P>, AllocError>
        ensures { IfOk result (λ s. s.failures ≡ 0) }
    {
        Ok(Screen {
            to,
            kept: Vec::with_capacity(alloc, ROOM)?,
            cause: None,
            last: b'\n',
            failures: 0,
        })
    }

    /// Writes what it keeps, and answers why writing failed, if it did. A byte that was not kept is want of memory, which the
    /// caller knows.
    pub fn close(mut self) -> io::Result<()> {
        let _ = self.write_kept();
        match self.cause {
            None => Ok(()),
            Some(error) => Err(error),
        }
    }
}

impl<P: Print> Screen<P> {
    /// Writes what it keeps. False if that failed.
    pub fn write_kept(&mut self) -> bool
        ensures { self.new.failures ≡ self.old.failures }
    {
        let written = self.to.write_all(&self.kept);
        self.kept.clear();
        match written {
            Ok(()) => true,
            Err(error) => {
                self.cause = Some(error);
                false
            }
        }
    }

    /// Keeps a byte. False if there was no room for it, and writing failed.
    fn keep(&mut self, byte: u8) -> bool
        ensures { self.new.failures ≡ self.old.failures }
    {
        if self.kept.len() >= ROOM && !self.write_kept() {
            return false;
        }
        self.last = byte;
        self.kept.push(byte).is_ok()
    }

    /// Why writing failed, if it did.
    pub fn cause(&self) -> Option<&io::Error> {
        self.cause.as_ref()
    }

    /// Whether the last byte that it took ends a line, or it took none.
    pub fn is_at_line_begin(&self) -> bool {
        self.last == b'\n'
    }
}

impl<P: Print> Sink for Screen<P> {
    ghost use Rattle.std.specs.Prelude.{None};

    ghost failed = { λ s. s.failures };

    ghost reported = { λ _. None };

    fn take(&mut self, byte: u8) -> bool {
        let is_taken = self.keep(byte);
        if !is_taken {
            self.failures += 1;
        }
        is_taken
    }

    fn failures(&self) -> u64 {
        self.failures
    }
}
