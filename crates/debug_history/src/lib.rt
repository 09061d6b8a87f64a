//! The run of a program, forwards and backwards. The modules tell what they write, so all bytes of the memory and all calls are
//! known at each time, and what happens is kept as records that can be undone. Records are kept as far as they have room. What is
//! farther back is found by running the program once more from its begin: a run repeats itself exactly.
#![tactic(auto)]

mod history;
mod prepared;
mod records;
mod state;

pub use explain_runs::{Activation, Function, Marked, Names, Place, explain_run, marked_program};
pub use history::{Goal, History, MOST_RECORDS, Outcome};
pub use prepared::{Places, Prepared, prepare};
pub use records::{Frame, Piece, Record};
pub use state::State;
