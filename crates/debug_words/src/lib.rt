//! What is typed in a debugging session: commands, the names of variables with their selectors, and the conditions of breakpoints.
#![tactic(auto)]

mod command;
mod cursor;
mod reading;

pub use command::{Command, Condition, Path, Relation, Selector, Target, Value};
pub use reading::{HELP, read_command, read_condition, read_path};
