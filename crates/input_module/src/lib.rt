//! The module `InputBytes` of a program that reads: its text, made from the bytes of the input.
//!
//! The text is a front with the number of bytes, an arm with a string for each part of the input, and a back. In a string a
//! byte is spelled by itself or by a pair of characters; `read_off` of `specs/Spelling` says which bytes characters stand for.
#![tactic(auto)]

mod fault;
mod laws;
mod spelling;
mod text;

pub use fault::InputFault;
pub use laws::spelling_law;
pub use text::{ALWAYS_FITS, MAX_TEXT, input_text};
