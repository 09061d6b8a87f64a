//! Divides the text of a module into tokens.
#![tactic(auto)]

mod class;
mod comment;
mod cut;
mod lengths;
mod number;
mod refusal;
mod symbols;
mod tokens;

pub use number::number_of;
pub use refusal::{ScanError, ScanRefusal, TokenRule};
pub use symbols::{pair_of, single_of, word_of};
pub use tokens::{MAX_TEXT, one_division, one_refusal, scan, tokens_or_refusal};
