//! The checker of bodies: program and implementation modules, with their procedures at every depth.
//!
//! `check` answers the typed module of a body, or the least rule that it breaks. It begins in the scope in which the body
//! stands: what an implementation knows of its own definition, and what the modules export that it imports. Then it goes
//! through imports, declarations, procedures and statements in order. `check_with` does the same for any way of
//! elaborating statements, which is handed in.
#![tactic(auto)]

mod body;
mod checker;
mod imports;
mod own;
mod procedure;
mod procedures;
mod routine;
mod statements;

pub use body::check_with;
pub use checker::check;
pub use imports::{all_imports, typed_imports};
pub use own::{exported_variables, implementation_scope};
pub use procedure::{Begun, Walk};
pub use routine::{
    Bodies, Numbered, begin_at, fill, no_bodies, procedure_named, routine_of, typed_module,
};
pub use statements::Statements;
