//! The board on which threads claim jobs, and what one worker does with the jobs that it claims.
//!
//! A board is opened for a graph of jobs and gives out seats, one for each worker. A worker claims a job by its seat, each
//! job once, and counts down each edge of a job that it has: the count that ends a job's waiting is answered so. No call
//! waits, no lock is taken, and no call but those that make a graph or a board asks for memory.
//!
//! A worker takes jobs from deques, claims them on the board, runs those that it gets, and publishes each result in the
//! cell of its job, in which other workers find it. What it finds in a cell it takes as it is: it compares nothing. With
//! what it ran it hands back notes of the cells that it read and of the cell that it set. From these whoever gathers the
//! results can tell, once the workers have ended, that each stands on results of this very run. This crate starts no
//! thread: `m2_pool` does.
#![tactic(auto)]

mod board;
mod cells;
mod graph;
mod ran;
mod refusal;
mod rule;
mod work;
mod worker;

pub use board::{Board, BoardSeat, MAX_WORKERS, Tally};
pub use cells::empty_cells;
pub use graph::JobGraph;
pub use ran::Ran;
pub use refusal::PoolRefusal;
pub use work::{Gate, Open, Work};
pub use worker::{Member, Pool, work_on};
