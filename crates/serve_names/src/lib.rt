//! What every name of a program stands for: declarations and all places of their names, what may be written at a place, and what
//! stands behind a point. It is found in the trees of the modules, by the rules of scopes; where a program breaks them, the first
//! declaration of a name counts, and a name that stands for nothing is noted as such.
#![tactic(auto)]

mod blocks;
mod imports;
mod index;
mod offers;
mod parsed;
mod paths;
mod units;
mod words;

pub use index::Index;
pub use offers::Offer;
pub use parsed::{Outline, Parsed, read};
pub use paths::Signature;
pub use serve_scopes::{Declaration, Focus, Kind, Packed, Place, Range, Role, Use};
pub use words::{comment_of, formals_of, words_of};
