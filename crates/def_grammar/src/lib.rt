//! The grammar of Modula-2 as data, the trees that it gives to lists of tokens, and the tokens that are refused.
//!
//! `specs/Ebnf.antt` is the grammar, line by line, and `specs/Trees.antt` the tree of each production. A front of a
//! list is open if some module begins with it. What a list is refused for is reported by `specs/Refusal.antt`.
#![tactic(auto)]

mod kind;
mod laws;
mod refusal;

pub use kind::Kind;
pub use laws::{one_refusal, one_tree, plain_factor, tree_or_refusal};
pub use refusal::{GrammarRule, ParseError, ParseRefusal, Stop};
