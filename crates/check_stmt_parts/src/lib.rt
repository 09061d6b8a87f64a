//! One step of checking a statement: each function elaborates one form of a statement, of parts that are known.
//!
//! The labels of a CASE are ranges of the values of a base type, no two of which may have a value in common: `Ranges` keeps
//! them in a search tree.
#![tactic(auto)]

mod around;
mod control;
mod label;
mod lists;
mod opened;
mod ranges;
mod simple;

pub use around::{Around, exit_statement, in_loop};
pub use control::{Control, Course, course_of, repeated_for};
pub use label::labels_in;
pub use lists::{
    arm_of, base_in, case_statement, chosen_else, if_statement, loop_statement, repeated_until,
    repeated_while, reported_in, standing, with_next, within,
};
pub use opened::opened_type;
pub use ranges::{Point, Ranges};
pub use simple::{
    assignment, case_selector, close, condition, open, procedure_call, record_of, return_statement,
};
