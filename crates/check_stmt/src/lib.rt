//! Statements of bodies.
#![tactic(auto)]

mod body;

pub use body::statements;
