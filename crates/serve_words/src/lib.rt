//! What an editor says of the words of the language: a sentence on each predeclared name and each reserved word. And pieces of a
//! text as they are shown: without comments, with one blank for many, and the comment that belongs to a piece.
#![tactic(auto)]

mod comments;
mod names;
mod pieces;
mod reserved;
mod word;

pub use comments::{comment_above, comment_behind};
pub use pieces::tidy;
pub use word::{Sort, Word, explanation, is_predeclared, predeclared_words, reserved_words};
