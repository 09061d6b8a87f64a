//! A debugging session: breakpoints, and commands that go through a run and show what it holds.
#![tactic(auto)]

mod asking;
mod breaks;
mod followed;
mod goals;
mod moving;
mod session;
mod telling;
mod tracing;

pub use asking::Travel;
pub use breaks::{Break, Breaks, Placed, Statement};
pub use debug_history::{Frame, Outcome, explain_run};
pub use debug_views::Found;
pub use followed::{Followed, follow};
pub use goals::{Goals, Way};
pub use session::{Program, Session};
pub use tracing::{Traced, trace_run};
