//! The typed tree of a module, as people read it: each name is replaced by what it means, and each expression has its type.
#![tactic(auto)]

mod exprs;
mod module;
mod rows;
mod shapes;
mod stmts;

pub use module::show_types;
