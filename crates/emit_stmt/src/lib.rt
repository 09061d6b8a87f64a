//! The code of statements, as `def_scheme` defines it.
//!
//! - `specs/Written` says what statements append to the code before them, `specs/Plans` when the arms of a CASE are chosen by
//!   a table.
//! - `proofs/Stepped` and `proofs/Cased` have what each statement appends, by the scheme's definitions.
#![tactic(auto)]

mod addresses;
mod body;
mod cases;
mod control;
mod plan;
mod simple;

pub use addresses::addresses_in;
pub use body::body_code;
