//! The code that each construct gets. There is no code here, only definitions.
//!
//! - `specs/Exprs`, `specs/Steps` and `specs/Functions` have the code of expressions, statements and procedures, made of the
//!   pieces of `specs/Coded` and `specs/Cells`; `specs/Signatures` the types of functions that a module needs; and
//!   `specs/Modules` the modules of a program.
//! - `specs/Helpers` has the functions that each module has before its own.
//! - `specs/Scheme` has pieces of modules: types, imports and exports.
#![tactic(auto)]
