//! Finds the modules that a program imports, in folders of source files.
//!
//! Which files are found, and in which order, is a relation of what the folders give: see `find`.
#![tactic(auto)]

mod folders;
mod found;
mod imports;
mod paths;
mod search;

pub use folders::{FindFault, ModuleFolders, Part};
pub use found::{FoundModule, Sources};
pub use imports::imports_of;
pub use paths::{Folders, file_ending, folder_of};
pub use search::{MAX_MODULES, find};
