//! What definitions mean: their tables.
#![tactic(auto)]

mod again;
mod declare;
mod definition;
mod export;
mod importing;
mod marking;
mod predeclared;

pub use again::{again_constants, again_types, again_variables, pass};
pub use declare::{
    Owner, declare_constants, declare_types, declare_variables, procedure_meaning,
    with_procedure_type,
};
pub use definition::{compile_definition, with_console};
pub use export::with_import_of;
pub use importing::{import_all, modules_of};
pub use marking::{mark_constants, mark_types, mark_variables};
pub use predeclared::{first_scope, with_table};
