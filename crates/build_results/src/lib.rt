//! What the jobs of a build came to, file by file: what is reported of texts and of modules, in which order, and the modules
//! that were built.
#![tactic(auto)]

mod order;
mod refusals;
mod results;
mod texts;

pub use order::in_order;
pub use refusals::{refusal, refused_of};
pub use results::{modules_at, refused_by, result_of};
pub use texts::trees_of;
