//! Statements, as the parser reads them.
#![tactic(auto)]

mod stmt;

pub use stmt::stmts;
