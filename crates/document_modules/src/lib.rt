//! Pages of the definitions of a library, as Markdown or as HTML without scripts.
//!
//! A page has what a module exports, in the order of its text: each declaration as it is written there, with its comment
//! (`outline_modules` says which). A comment that belongs to none stands on the page where it stands in the text.
//!
//! In a comment, an empty line ends a paragraph, lines that are indented further than the others stand as they are, and what
//! stands between two backquotes is code.
#![tactic(auto)]

mod comments;
mod entries;
mod pages;
mod sheet;
mod signs;
mod uses;

pub use outline_modules::{DocumentFault, Outline, read_definition};
pub use pages::{Page, write_pages};
pub use sheet::Kind;
