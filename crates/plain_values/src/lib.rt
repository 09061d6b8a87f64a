//! Operators, checks of values, and where designators lead, as the definition of a run has them.
//!
//! - `specs/Surroundings` says what the definition sees of what stands around a part of a program.
#![tactic(auto)]

pub mod checks;
pub mod operators;
pub mod places;
pub mod program;
