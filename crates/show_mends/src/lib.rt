//! Mends that were tried, as people read them, as programs read them, and written into files.
#![tactic(auto)]

mod fixing;
mod objects;
mod words;

pub use fixing::write_chains;
pub use objects::{Given, print_steps};
pub use try_mends::{Chain, mend_file};
pub use words::say_chains;
