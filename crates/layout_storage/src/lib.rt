//! Where variables stand: the sizes of types, the offsets of their components, frames, and the texts of a module.
//!
//! - `specs/Types` has types as trees of scalars, `specs/Shapes` the tree of each type that a module knows.
//! - `specs/Sizes` has the sizes of types and the offsets of components, `specs/Frames` what a procedure and a module keep.
//! - `specs/Texts` has the strings that a module keeps.
//! - `specs/Extents` has what the code keeps of each type, `specs/Making` how it is found from the types before.
//! - `specs/Layouts` says what is kept of a module, and where its storage does not fit.
#![tactic(auto)]

mod body;
mod capped;
mod counted;
mod extent;
mod extents;
mod frame;
mod kind;
mod layout;
mod making;
mod places;
mod row;

pub use extent::Extent;
pub use extents::{Extents, element_of, field_offset, scalar_in, size_of};
pub use frame::{frame_row, variables_row};
pub use kind::{Kind, Width, bytes_of, width_of};
pub use layout::Layout;
pub use making::extents_of;
pub use row::{Row, start_of};
