//! `m2 lsp`: an editor is served over the standard streams.
#![tactic(auto)]

mod disk;
mod serving;

pub use serving::serve_editor;
