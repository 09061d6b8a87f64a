//! Texts in one style, after Wirth's books: two spaces a level, one space where one is wanted, lines to 100 columns.
//!
//! Lines end where the writer ended them, but for lines that are too long and for empty lines of which there is one at most.
//! Comments stay where they stand. What is written has the tokens of the text, and its bytes but for blanks, so its comments.
#![tactic(auto)]

mod changes;
mod formatting;
mod indenting;
mod nest;
mod pieces;
mod same;
mod spacing;
mod writing;

pub use changes::unified_diff;
pub use formatting::{FormatFault, format};
