//! The declarations of a definition with their comments, as they stand in its text.
//!
//! Which comment belongs to a declaration is told by empty lines alone:
//!
//! - The comments behind a declaration belong to it, up to the first empty line.
//! - Other comments in front of a declaration belong to it, from the last empty line on. CONST, TYPE and VAR may stand between.
//! - A comment with an empty line before and behind it belongs to none. It stands on the page where it stands in the text.
//!
//! If a declaration has several lines, a comment in the last of them is a part of it, as those in the others are.
//!
//! The heading of the module is a declaration too, but for an empty line between it and a comment that would stand alone.
#![tactic(auto)]

mod names;
mod outline;
mod pieces;
mod units;

pub use names::{enumerated, own_names};
pub use outline::{DocumentFault, Outline, read_definition};
pub use pieces::{Piece, What};
pub use units::{Sort, Unit};
