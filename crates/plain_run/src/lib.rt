//! The plain interpreter, which runs programs by the language's definition.
//!
//! - `run` answers exactly the run of the definition, for every list of typed modules.
//! - `specs/Whole` has the run of a whole program.
#![tactic(auto)]

mod runs;
mod whole;

pub use plain_store::state::{RunFault, Stop};
pub use whole::{Report, run};
