//! Expressions, designators and calls, in bodies and as constant expressions.
#![tactic(auto)]

mod body;
mod done;
mod fixed;
mod pieces;

pub use body::{actuals, breaches_in_all, constant_of, designation, stands_for, value_of};
pub use done::call_statement;
pub use pieces::{field_of, first_name, first_of, formals_of, place_of};
