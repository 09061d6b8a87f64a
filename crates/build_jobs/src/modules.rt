//! The work of the jobs of a graph.

ghost use Rattle.std.specs.Prelude.{◌≡◌, ◌<◌, ◌≤◌, ◌^◌, length, map, slice_get, IfOk};
ghost use Rattle.m2_graph.specs.Refused.{max_files};
ghost use Rattle.build_jobs.specs.Jobs.{compile_in_place, Defines};
ghost use Rattle.build_jobs.specs.Borrowed.{modules_borrowed};

use crate::{Compiled, compile};
use m2_tree::Module;
use pool_board::Work;
use std::alloc::{AllocError, Global};
use tree_parts::at;

/// What becomes of the module in this place.
pub fn compile_in_place(
    alloc: Global,
    trees: &[(&str, &Module)],
    file: usize,
    job: usize,
    needed: &[&Compiled],
) -> Result<Compiled, AllocError>
    requires { job < 2 ^ 32 }
    ensures { IfOk result (λ c.
        c ≡ compile_in_place (slice_get (modules_borrowed trees.now) file) job
        (map (λ n. n.now) needed.now)) }
{
    match at(trees, file) {
        None => Ok(Compiled::Blocked),
        Some(tree) => compile(alloc, tree.1, job as u32, needed),
    }
}

/// The work of the jobs of a graph: what becomes of each module, from what becomes of those that it needs.
#[derive(Clone, Copy)]
pub struct Modules<'a> {
    /// Where memory comes from.
    pub alloc: Global,
    /// The trees of all files, with the files' names.
    pub trees: &'a [(&'a str, &'a Module)],
    /// The place of the file of each job.
    pub files: &'a [usize],
    /// The jobs that each job needs.
    pub jobs: &'a [Vec<usize>],
    pub ghost each: { length files.now ≡ length jobs.now },
    pub ghost few: { length jobs.now ≤ max_files },
}

impl Work for Modules<'_> {
    type Out = Compiled;

    ghost graph = { λ w. map (λ job. job.items) w.jobs.now };

    ghost defines = { λ w. Defines (modules_borrowed w.trees.now) w.files.now };

    fn run(&self, job: usize, prerequisites: &[&Compiled]) -> Result<Compiled, AllocError> {
        compile_in_place(self.alloc, self.trees, self.files[job], job, prerequisites)
    }

    fn copy(&self, out: &Compiled) -> Result<Compiled, AllocError> {
        out.share()
    }
}
