//! The types that type expressions make, and the headings of procedures.
#![tactic(auto)]

mod cells;
mod field;
mod heading;
mod made;
mod named;
mod subrange;

pub use cells::{MAX_CELLS, array_cells, count_at, is_index, plus};
pub use field::{Fields, no_fields, with_names};
pub use heading::{formal_of, heading_of, names_of, procedure_type, result_of};
pub use made::{nothing_of, type_of, with_made};
pub use named::{first_of, named_type};
pub use subrange::{bound_of, subrange_between, under};
