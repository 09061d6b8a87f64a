//! A thing gets another name: where it stands, why it cannot have the name, and the edits of all its files.
#![tactic(auto)]

mod copies;
mod name;
mod renaming;

pub use name::is_name;
pub use renaming::Renaming;
