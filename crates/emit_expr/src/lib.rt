//! The code of expressions, designators, calls and arguments, as `def_scheme` defines it. Code is appended to a `Draft`.
//!
//! - `specs/Values` has what is appended for expressions and designators; `specs/Operators` and `specs/Called` have the
//!   pieces of their code.
//! - `proofs/Variants` has an equation for each variant.
#![tactic(auto)]

mod calls;
mod exprs;
mod operators;
mod places;

pub use exprs::{call_code, place_code, taken_code, value_code};
