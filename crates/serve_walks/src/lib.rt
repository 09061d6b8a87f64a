//! The names in the trees of a program: those that a block declares, and those in types, expressions and statements, each with what
//! it stands for in the scopes around it. `serve_names` goes through modules and procedures by these walks.
#![tactic(auto)]

mod exprs;
mod names;
mod statements;
mod types;
mod walk;

pub use exprs::expr;
pub use names::{decls_names, defs_names, facts_of, list_names};
pub use statements::stmts;
pub use types::{formal_type, named_type, set_types, type_of};
pub use walk::Walk;
