// What the jobs of a graph do, and who lets a worker in to one.
ghost use Rattle.std.specs.Prelude.{◌≡◌, ℕ, List, ◌<◌, length, map, IfOk, IsTrue, true};
ghost use Rattle.pool_board.specs.Graph.{prerequisites_of};
ghost use Rattle.pool_board.specs.Results.{IsCopy};

use std::alloc::AllocError;

/// What the jobs of a graph do.
///
/// A work is a handle, as a struct of references, that can be copied. What may come of a job is a relation, so that
/// results need not be equal as values to be results of one job: an `Out` may hold a `Vec` or a `String`, whatever its
/// capacity.
pub trait Work: Copy + Send + Sync {
    /// The result of a job.
    type Out: Send + Sync + Drop;

    // The graph of the jobs: for each job its prerequisites.
    ghost graph: { Self → List (List ℕ) };
    // What may come of a job, from the results of its prerequisites.
    ghost defines: { Self → ℕ → List Self.Out → Self.Out → Type 0 };

    /// Runs a job of the graph, given the results of its prerequisites in their order. It fails only for want of memory.
    fn run(&self, job: usize, prerequisites: &[&Self::Out]) -> Result<Self::Out, AllocError>
        requires job { job < length (graph self.now) }
        requires prerequisites { length prerequisites.now
            ≡ length (prerequisites_of (graph self.now) job) }
        ensures { IfOk result (λ x. defines self.now job (map (λ p. p.now) prerequisites.now) x) };

    /// The same result once more, which may stand in its place. It fails only for want of memory.
    fn copy(&self, out: &Self::Out) -> Result<Self::Out, AllocError>
        ensures { IfOk result (IsCopy (defines self.now) out.now) };
}

/// Lets a worker in to a job, or leaves the job to the gatherer.
///
/// Workers ask from threads of their own, before they claim the job. A gate has to return, and may take its time.
pub trait Gate: Sync {
    // Which jobs it may let workers in to.
    ghost admits: { Self → ℕ → Type 0 };

    /// False leaves the job unclaimed.
    fn enter(&self, job: usize) -> bool
        ensures { IsTrue result → admits self.now job };
}

/// A gate that lets every worker in to every job.
#[derive(Drop)]
pub struct Open;

impl Gate for Open {
    ghost admits = { λ _ _. Unit {0} };

    fn enter(&self, _job: usize) -> bool
        ensures { result ≡ true }
    {
        true
    }
}
