//! What is answered on the names of a view: as JSON, in the words of the protocol.
//!
//! Each function takes an `Ask`: a view of programs, a file of it, and a byte of its text as it stands. It answers for every one,
//! also where no name stands, or where the file has no tree.
#![tactic(auto)]

mod ask;
mod folding;
mod places;
mod semantic;
mod signature;
mod symbols;
mod values;

pub use ask::Ask;
pub use folding::folding_ranges;
pub use places::{
    Extent, definition, highlights, implementation, prepare_rename, references, type_definition,
};
pub use semantic::{TOKEN_MODIFIERS, TOKEN_TYPES, semantic_tokens};
pub use serve_programs::{Mark, Program};
pub use signature::signature_help;
pub use symbols::{document_symbols, workspace_symbols};
pub use values::{Edit, put_edit, put_position, put_range};
