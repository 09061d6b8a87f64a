//! Streams over standard output or standard error.

ghost use Rattle.std.specs.Prelude.{◌≡◌, [], ◌++◌};

use crate::notes::{Notes, nothing, with_bytes};
use run_directory::Sink;
use std::alloc::Global;

/// A stream that writes each byte by itself.
#[derive(Drop)]
pub struct ByteStream<P> {
    to: P,
    /// How often it failed.
    pub failures: u64,
    /// The bytes that it wrote, each by a call that answered 1. Clauses alone speak of them.
    pub written: Notes,
}

impl<P> ByteStream<P> {
    /// A stream that did not fail, and wrote nothing.
    pub fn new(to: P) -> ByteStream<P>
        ensures failures { result.failures ≡ 0 }
        ensures written { result.written.bytes ≡ [] }
    {
        ByteStream {
            to,
            failures: 0,
            written: nothing(),
        }
    }
}

impl<P: Print> Sink for ByteStream<P> {
    ghost use Rattle.std.specs.Prelude.{Some};

    ghost failed = { λ s. s.failures };

    ghost reported = { λ s. Some s.written.bytes };

    fn take(&mut self, byte: u8) -> bool {
        let bytes = [byte];
        let is_written = matches!(self.to.write_some(&bytes), Ok(1));
        if is_written {
            self.written = with_bytes(&self.written, &bytes);
        } else {
            self.failures += 1;
        }
        is_written
    }

    fn failures(&self) -> u64 {
        self.failures
    }
}

/// A stream that writes a line at once, and keeps what it took of a line that has not ended.
#[derive(Drop)]
pub struct LineStream<P> {
    to: P,
    line: Vec<u8>,
    /// How often it failed.
    pub failures: u64,
    /// The bytes that it took. Clauses alone speak of them.
    pub taken: Notes,
    /// The lines that it wrote, each by a call that answered that all of it is written. Clauses alone speak of them.
    pub written: Notes,
    /// Until it fails, it wrote what it took, but for the line that has not ended.
    ghost in_order: { (failures ≡ 0) → taken.bytes ≡ written.bytes ++ line.items },
}

impl<P: Print> LineStream<P> {
    /// A stream that did not fail, and took and wrote nothing.
    pub fn new(alloc: Global, to: P) -> LineStream<P>
        ensures failures { result.failures ≡ 0 }
        ensures taken { result.taken.bytes ≡ [] }
        ensures written { result.written.bytes ≡ [] }
    {
        LineStream {
            to,
            line: Vec::new(alloc),
            failures: 0,
            taken: nothing(),
            written: nothing(),
        }
    }
}

impl<P: Print> Sink for LineStream<P> {
    ghost use Rattle.std.specs.Prelude.{Some};

    ghost failed = { λ s. s.failures };

    ghost reported = { λ s. Some s.taken.bytes };

    fn take(&mut self, byte: u8) -> bool {
        if self.line.push(byte).is_err() {
            self.failures += 1;
            return false;
        }
        if byte == b'\n' {
            let is_written = self.to.write_all(&self.line).is_ok();
            if !is_written {
                self.failures += 1;
                self.line.clear();
                return false;
            }
            self.written = with_bytes(&self.written, &self.line);
            self.line.clear();
        }
        self.taken = with_bytes(&self.taken, &[byte]);
        true
    }

    fn failures(&self) -> u64 {
        self.failures
    }
}
