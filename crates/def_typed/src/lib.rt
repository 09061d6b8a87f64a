//! The typed tree of a body, by the rules of the language: its names are replaced by what they mean, and every value has a
//! type. There is no code here, only definitions. They stand on those of `def_typing`.
//!
//! - `specs/Named` says what names mean by numbers, `specs/Coded` what operators are in a typed tree.
//! - `specs/Expressions` has the typed trees of expressions, `specs/Statements` those of statements.
#![tactic(auto)]
