//! What one step of a running program does with parts that are known: statements, arguments, and how calls begin and end.
//!
//! - `specs/Parts` has what the pieces of the interpreter give, `specs/Entering` and `specs/Asked` how calls begin.
#![tactic(auto)]

pub mod callees;
pub mod entering;
pub mod passing;
pub mod simple;
