//! The frames of procedures, as the code of a procedure sees them.

use layout_storage::Row;
use typed_tree::Routine;

/// A procedure, and what is kept of its frame.
#[derive(Clone, Copy)]
pub struct Framed<'a> {
    pub routine: &'a Routine,
    pub row: &'a Row,
}
