//! Saves what was built into a directory, link last.
#![tactic(auto)]

mod dir;
mod fault;
mod saving;

pub use dir::OutDir;
pub use fault::SaveFault;
pub use saving::save;
