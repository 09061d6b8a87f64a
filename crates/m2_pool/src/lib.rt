//! Jobs with prerequisites, run by workers on threads of their own.
//!
//! [`run_jobs`] answers a result for each job, in job order, and who had which job. Each result is one that the work's own
//! definition gives for its job from the results that are answered for its prerequisites, for every number of workers, every
//! gate and every schedule. The board on which workers claim jobs, and what one worker does, stand in `pool_board`: those of its public
//! items that callers need are passed on. Here the jobs are dealt, the workers run on threads, and the results are gathered:
//! those that the workers handed back are shown by their notes to stand on one another, and what is left is run.
#![tactic(auto)]

mod gather;
mod run;

pub use pool_board::{Board, BoardSeat, Gate, JobGraph, Open, PoolRefusal, Tally, Work};
pub use run::{run_jobs, run_on};
