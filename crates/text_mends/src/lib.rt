//! Mends of a refused text, and those that a few bytes or tokens show: words and signs of other languages, comments, strings, numbers,
//! blocks in braces, and ENDs where lines are indented less.
#![tactic(auto)]

mod braces;
mod bytes;
mod ends;
mod list;
mod slips;

pub use braces::{propose_blocks, propose_comment, propose_steps};
pub use bytes::propose_bytes;
pub use ends::{propose_ends, propose_fewer_ends, put_line};
pub use list::{Mend, Mends, words_of};
pub use slips::{propose_all_capitals, propose_pairs, propose_signs, propose_words};
