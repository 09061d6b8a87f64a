//! Broken rules, and the names in scope.
#![tactic(auto)]

mod elaborated;
mod inner;
mod known;
mod meaningless;
mod scope;

pub use elaborated::{Elaborated, beside, both, refusal_beside, report, reported_beside};
pub use inner::{Outside, step_in, step_out};
pub use known::{Known, Origin};
pub use meaningless::{
    Meaningless, Sought, heading_means, of_heading, of_sort, of_sort_of_value, of_value, plain,
};
pub use scope::{
    Block, OpenedRecord, Scope, begin, declare, fields_of, finish, head, import, looked_up, mark,
};
