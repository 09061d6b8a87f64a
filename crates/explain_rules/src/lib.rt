//! What the numbers mean that the programs print: a page for each topic, and a sentence for each rule.
//!
//! They are the texts of docs/refusals, docs/faults and docs/statuses.md.
#![tactic(auto)]

mod pages;
mod rule;
mod topic;

pub use rule::sentence;
pub use topic::{list, page};
