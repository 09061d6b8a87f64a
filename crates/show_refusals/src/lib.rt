//! Refusals for people and for programs: each with its rule in a sentence, the line of source and a mark under the token,
//! or as a JSON object in a line.
//!
//! What stands on standard output is what the compiler prints, `FILE:LINE:COL: refusal NUMBER`, unchanged. What explains it
//! stands on standard error.
#![tactic(auto)]

mod explaining;
mod json;
mod layout;
mod line;
mod mended;
mod picture;
mod showing;
mod spot;
mod token;

pub use explaining::{explanation, marked_line, way_of};
pub use json::show_json;
pub use mended::{Mended, object_of};
pub use showing::show;
