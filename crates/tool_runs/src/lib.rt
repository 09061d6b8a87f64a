//! `m2 run`: a program that is built and executed in memory, where it was when it ended, what ran, what it did and what it costs.
#![tactic(auto)]

mod costing;
mod measuring;
mod running;
mod tracing;

pub use costing::cost_file;
pub use running::run_file;
