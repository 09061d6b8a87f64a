//! A program that can be followed.

use crate::session::Program;
use anyhow::Result;
use build_jobs::{Options, SourceFile};
use debug_history::{Marked, Prepared, marked_program, prepare};
use debug_views::Views;
use std::thread::Threads;

/// A program whose modules tell what they do, and its variables.
pub struct Followed {
    marked: Marked,
    prepared: Prepared,
    views: Views,
}

// Written by hand, so that proofs above take a drop as one call.
impl Drop for Followed {
    fn drop(self) {
        let Followed {
            marked,
            prepared,
            views,
        } = self;
        drop(marked);
        drop(prepared);
        drop(views);
    }
}

/// The program of these files, which are accepted, as it can be followed. Nothing if with its marks it is too long or nests too deep.
///
/// An error if memory ran out.
pub fn follow<R>(rt: &R, files: &[SourceFile], options: Options) -> Result<Option<Followed>>
where
    R: AllocGlobal + Threads + Sync,
{
    let alloc = rt.alloc();
    let Some(marked) = marked_program(rt, files, options)? else {
        return Ok(None);
    };
    let Some(prepared) = prepare(alloc, &marked, options.pages)? else {
        return Ok(None);
    };
    let views = Views::of(alloc, files, &marked, &prepared.places)?;
    Ok(Some(Followed {
        marked,
        prepared,
        views,
    }))
}

impl Followed {
    /// The program for a session: its files, how it was built, and the most reductions of a run.
    pub fn program<'a>(
        &'a self,
        files: &'a [SourceFile],
        options: Options,
        steps: u64,
        is_coloured: bool,
    ) -> Program<'a> {
        Program {
            files,
            options,
            marked: &self.marked,
            prepared: &self.prepared,
            views: &self.views,
            steps,
            is_coloured,
        }
    }
}
