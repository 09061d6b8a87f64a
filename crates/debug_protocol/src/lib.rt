//! The Debug Adapter Protocol: requests of an editor, and what is answered of a session.
#![tactic(auto)]

mod adapter;
mod breakpoints;
mod messages;
mod places;
mod travels;

pub use adapter::Adapter;
pub use debug_runs::{Followed, Program, Session, follow};
pub use messages::{Outgoing, Request, read_request};
