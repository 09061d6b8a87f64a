//! Pieces of a text, found by its tokens: names and symbols, the operands of an operator, calls, and where a statement begins.
#![tactic(auto)]

mod calls;
mod excerpts;
mod lengths;
mod operands;
mod places;
mod statements;
mod symbols;

pub use calls::{Argument, Bracket, Call, argument_at, argument_count, bracket_around, call_at};
pub use excerpts::{bytes_between, excerpt, shorten};
pub use lengths::{comment_length, token_length};
pub use operands::{ASSIGNMENT, DESIGNATOR, Strength, operand_begin, operand_end, strength_of};
pub use places::{offset_of, part, rest};
pub use statements::{Front, begins_statement, case_around, front_of, stands_before_statement};
pub use symbols::{closes, depth_behind, is_named, name_at, opens, symbol_at, symbol_of};
