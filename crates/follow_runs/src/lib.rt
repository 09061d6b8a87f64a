//! Runs of modules that say where they are (`watch_code`): a run is followed up to where the program came, and the calls that lead
//! there are told with recursion folded.
#![tactic(auto)]

mod calls;
mod following;

pub use calls::{Call, Calls, calls_of};
pub use following::{Ear, Followed, follow};
