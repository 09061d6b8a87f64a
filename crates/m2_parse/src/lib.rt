//! The tree of a module, or the token that is refused.
#![tactic(auto)]

mod decl;
mod module;

pub use def_grammar::{ParseError, ParseRefusal};
pub use module::parse;
