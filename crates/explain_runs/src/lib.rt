//! Where a run was when it ended with a fault, or when it had made all reductions that it may make: the statement with its line,
//! the values that a check refused, and the calls that lead there. The compiled modules know no places, and a run pays nothing for
//! them: it is made once more, of modules that say where they are (`watch_code`).
#![tactic(auto)]

mod functions;
mod parts;
mod paths;
mod place;
mod profile;
mod report;
mod watching;
mod words;

pub use functions::{Function, Functions};
pub use paths::{CallCount, Path};
pub use place::{Names, Place};
pub use profile::{Counted, FunctionCount, Spot, Tally, profile_run};
pub use report::{Report, explain_run};
pub use watch_code::Activation;
pub use watching::{Marked, marked_program, storing_modules};
