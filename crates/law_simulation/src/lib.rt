//! Laws alone: the linked modules of a program do what the program does.
//!
//! `def_meaning` says what a program does, and `def_scheme` which code it gets. Read in this order:
//!
//! - `constructs`: the code of each construct does what the construct does, if the code of its parts does.
//! - `calls`: so does the code of what calls need: arguments, formals, results, and procedures as values.
//! - `trees`: the code of whole expressions, designators, calls and statements does what they do.
//! - `bodies`: the functions of procedures and of modules do what their bodies do, with calls to every depth.
//! - `programs`: the linked modules of a program do what it does, if they are as the checker leaves them.
#![tactic(auto)]

mod bodies;
mod calls;
mod constructs;
mod programs;
mod trees;

pub use bodies::{body_laws, procedure_laws, typed_body_laws};
pub use calls::{held_laws, slot_laws, value_laws};
pub use constructs::{designator_laws, expression_laws, statement_laws, table_laws};
pub use programs::{linked_laws, program_laws, type_laws};
pub use trees::{statement_tree_laws, tree_laws};
