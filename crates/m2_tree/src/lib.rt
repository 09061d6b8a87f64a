//! What every part of the compiler speaks of: places, refusals, tokens, and the tree of a module as it is written.
//!
//! The trees hold their lists and boxes as `Items` and `Boxed`, which contracts see as plain lists and values, so a
//! clause can say that two trees are equal, and `==` decides it. Whatever a refusal can point at carries its place.
#![tactic(auto)]

mod bytes;
mod decl;
mod exact;
mod expr;
mod name;
mod pos;
mod refusal;
mod stmt;
mod text;
mod token;

pub use decl::{
    Block, Constant, Contents, Decl, Def, Field, FormalType, Heading, Import, Module, Parameter,
    Section, Simple, TypeDecl, TypeExpr, Variables,
};
pub use exact::{Exact, are_equal};
pub use expr::{AddOp, Designator, Expr, Item, MulOp, Operator, Qualified, RelOp, Selector, Sign};
pub use name::{Ident, MAX_NAME, Name, is_console};
pub use pos::Pos;
pub use refusal::Refusal;
pub use stmt::{Arm, Rest, Stmt};
pub use text::Quoted;
pub use token::{Lexeme, Symbol, Token};
