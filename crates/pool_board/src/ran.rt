// What a worker hands back of a job that it ran.
ghost use Rattle.std.specs.Prelude.{◌≡◌, Some, MatchResult};
ghost use Rattle.once_cell.specs.Once.{cell_name};

use crate::work::Work;
use once_cell::race::{Note, OnceBox};

/// Of a job that was run: what became of its result, and a note of the cell of each of its prerequisites, which knows
/// the result that was used. Notes take no bytes.
#[derive(Drop)]
pub struct Ran<W: Work> {
    pub job: usize,
    /// A note of the job's cell, which knows the result that was put there. If the cell had been set before, the result
    /// itself.
    pub kept: Result<Note<W::Out>, Box<W::Out>>,
    pub used: Vec<Note<W::Out>>,
}

impl<W: Work> Ran<W> {
    /// Puts a result into the cell of its job. If the cell is set already, the result is handed back.
    pub fn publish(
        cell: &OnceBox<W::Out>,
        job: usize,
        out: Box<W::Out>,
        used: Vec<Note<W::Out>>,
    ) -> Ran<W>
        ensures job { (result.job ≡ job) × (result.used ≡ used) }
        ensures kept { MatchResult result.kept
            (λ n. (n.cell ≡ cell_name cell.now) × (n.known ≡ Some out.value))
            (λ b. b.value ≡ out.value) }
    {
        let mut note = cell.note();
        let kept = match cell.set_as(out, &mut note) {
            Ok(()) => Ok(note),
            Err(out) => Err(out),
        };
        Ran { job, kept, used }
    }
}
