//! The tokens of a text, or its least refusal 1 to 7.
//!
//! [`scan`] divides a text of at most [`MAX_TEXT`] bytes into tokens with their places, the end token last. A text that breaks
//! a rule has a [`ScanError`] in place of tokens: the least place with its [`Fault`], or that memory was refused.
//!
//! The crate behind this one is internal. Users name this one and `m2_tree`.
#![tactic(auto)]

pub use scan_tokens::{MAX_TEXT, ScanError, ScanRefusal, TokenRule, scan};
