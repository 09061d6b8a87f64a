//! What the modules of a program import: pairs of importer and imported, cycles, the numbering of the jobs and the
//! order in which bodies start.
#![tactic(auto)]

mod back;
mod breaches;
mod compiled;
mod decided;
mod error;
mod given;
mod graph;
mod imports;
mod jobs;
mod needs;
mod numbering;
mod order;
mod program;
mod reported;
mod sources;

pub use error::GraphError;
pub use graph::Graph;
pub use jobs::{place_of, places_of};
