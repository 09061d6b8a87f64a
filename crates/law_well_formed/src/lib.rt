//! Laws alone: what the checker makes of texts is well formed, by definition after definition of checking.
//!
//! So it is if the least broken rule is kept, and if all of them are. Read the laws in this order:
//!
//! - `bodies`: what it makes of expressions, of statements and of the bodies of procedures.
//! - `declarations`: behind each declaration names mean what is there, and they keep their numbers and headings.
//! - `ranges`: trees of texts fit, constants are numbers of their types, and types have ranges of the language.
//! - `types`: types stand in order, also those that tables reach, and none is too large.
//! - `modules`: what modules import and export, and that whole modules are well formed, with room in their frames.
#![tactic(auto)]

mod bodies;
mod declarations;
mod modules;
mod ranges;
mod types;

pub use bodies::{formed_body_laws, formed_laws, formed_statement_laws};
pub use declarations::{formed_heading_laws, formed_number_laws, formed_scope_laws};
pub use modules::{formed_module_laws, frame_laws, import_laws, table_laws};
pub use ranges::{block_range_laws, fits_laws, formed_range_laws};
pub use types::{
    formed_known_laws, formed_order_laws, formed_size_laws, order_bound_laws, ordered_laws,
};
