//! The functions of a module's procedures and of its body, as `def_scheme` defines them.
//!
//! - `specs/Kept` has the pieces of a prologue, `specs/Around` the procedures around a procedure.
//! - `proofs/Entered` and `proofs/Finished` have what a function begins and ends with, by the scheme's definitions.
#![tactic(auto)]

mod prologue;
mod routine;

pub use routine::{module_function, routine_function};
