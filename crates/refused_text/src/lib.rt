//! Texts that are refused: their tokens with where each stands, also of texts that do not divide into tokens, what they name and export, how
//! alike words are, and what is said of a refusal where no edit helps.
#![tactic(auto)]

mod export;
mod known;
mod likeness;
mod named;
mod source;

pub use export::{Export, exports_of};
pub use known::known_way;
pub use likeness::{MOST_UNLIKE, are_alike, capitals, unlikeness};
pub use named::{free_name, importing_program, program_around};
pub use source::{Source, tokens_of, word_width};
