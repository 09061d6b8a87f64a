//! The rules that a program can break, and the faults that can end its run, by name and number. The rules of tokens and of
//! the grammar stand in `scan_tokens` and `m2_parse`.
#![tactic(auto)]

mod breach;
mod fault;
mod rule;

pub use breach::{Breach, is_less, lesser};
pub use fault::Fault;
pub use rule::Rule;
