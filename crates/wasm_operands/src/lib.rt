//! What instructions work with, apart from any machine: stacks of operands and locals (Core 1.0, section 4.2), and what is
//! made of numbers (section 4.3).
//!
//! - `Operands` is a list of values, the last on top. Each takes a cell of 64 bits, and nothing at run time says its
//!   kind: `known.values` says in clauses which values they are.
//! - The functions on numbers compare, calculate, extend and load them, each as `wasm_tree`'s `specs/Numbers` defines it.
#![tactic(auto)]

mod known;
mod numbers;
mod operands;

pub use known::Known;
pub use numbers::{
    compares_32, compares_64, extend_number, load_number, load_size, operation_result, truth,
};
pub use operands::Operands;
