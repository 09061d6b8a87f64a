//! Mends of refused programs that were tried: each was put into the text, and the whole was compiled.
#![tactic(auto)]

mod bench;
mod chain;
mod find;
mod standing;

pub use chain::{Chain, Step, mend_file};
pub use find::{Found, find_mend};
pub use m2c::{BuildFault, SourceFile};
pub use propose_mends::Mend;
pub use standing::Reach;
