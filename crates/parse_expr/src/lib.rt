//! The part of the parser below statements: a cursor over tokens, expressions and types.
#![tactic(auto)]

mod begins;
mod cursor;
mod expr;
mod operators;
mod types;

pub use begins::begins_expr;
pub use cursor::Cursor;
