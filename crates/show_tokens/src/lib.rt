//! The tokens of a text, as people read them.
//!
//! - `show_tokens` has a line for each token, with its place. `show_lexemes` has no places, so texts that differ in blanks and comments
//!   alone have the same lines.
//! - `specs/Tokens` says how signs, words, numbers and strings are written.
#![tactic(auto)]

mod signs;
mod tokens;

pub use tokens::{put_octal, put_quoted, show_lexemes, show_tokens};
