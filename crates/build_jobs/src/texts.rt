//! The work of reading files.

ghost use Rattle.std.specs.Prelude.{[], map};
ghost use Rattle.build_jobs.specs.Reading.{IsReadAt};

use crate::{Read, SourceFile, read_text};
use pool_board::Work;
use std::alloc::{AllocError, Global};

/// The work of reading files: a job for each file, which needs no other.
#[derive(Clone, Copy)]
pub struct Texts<'a> {
    /// Where memory comes from.
    pub alloc: Global,
    /// The files, in the order in which they were given.
    pub files: &'a [SourceFile],
}

impl Work for Texts<'_> {
    type Out = Read;

    ghost graph = { λ w. map (λ f. []) w.files.now };

    ghost defines = { λ w job outs r. IsReadAt w.files.now job r };

    fn run(&self, job: usize, _prerequisites: &[&Read]) -> Result<Read, AllocError> {
        read_text(self.alloc, &self.files[job].bytes)
    }

    fn copy(&self, out: &Read) -> Result<Read, AllocError> {
        match out {
            Read::Parsed(tree) => Ok(Read::Parsed(tree.clone()?)),
            Read::Refused(pos, number) => Ok(Read::Refused(*pos, *number)),
        }
    }
}
