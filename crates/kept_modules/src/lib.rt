//! What is kept of a build, as it stands in the file PROGRAM.kept.
//!
//! - `Kept` is what is kept of a program: of each definition and each body the checksums, and what link has to know.
//! - `keep` answers it for a program that was built. The sizes are read off link.wasm (`linked_by`), the imports off each module.
//! - `write_kept` writes it as the text of a file, `read_kept` reads it.
//! - `short_sum` is the checksum by which texts and modules are told apart, `definition_sum` that of definitions.
#![tactic(auto)]

mod heads;
mod keeping;
mod kept;
mod linked;
mod names;
mod reading;
mod sums;
mod writing;

pub use keeping::keep;
pub use kept::{Definition, Kept};
pub use link_parts::{Part, PartFault};
pub use linked::{Linked, linked_by};
pub use names::{defined_by, files_by_name, stem_of};
pub use reading::read_kept;
pub use sums::{definition_sum, short_sum};
pub use writing::write_kept;
