//! What the passes of the compiler make of a text, as people read it: its tokens, its tree, and the code of its modules in
//! the text format of WebAssembly.
#![tactic(auto)]

mod program;
mod texts;
mod titles;
mod tree;
mod tree_exprs;
mod tree_stmts;
mod tree_types;

pub use program::{Built, File, Parsed, Trees, show_program, trees_of};
pub use texts::{Shown, show_text_tokens, show_text_tree, tree_of};
pub use titles::Titles;
pub use tree::show_tree;
