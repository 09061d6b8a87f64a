//! `m2 fmt`, `m2 doc`, `m2 show` and `m2 explain`: what is made of texts.
#![tactic(auto)]

mod documenting;
mod explaining;
mod formatting;
mod passes;

pub use documenting::document_folder;
pub use explaining::explain;
pub use formatting::format_all;
pub use passes::show_pass;
