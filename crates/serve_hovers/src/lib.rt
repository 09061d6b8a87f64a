//! What is shown of the name at a place: its declaration and its comment, the value of a constant, and the size and the place of a
//! variable or a field.
#![tactic(auto)]

mod hovering;
mod meant;

pub use hovering::hover;
pub use serve_lists::{
    Ask, Edit, Extent, TOKEN_MODIFIERS, TOKEN_TYPES, definition, document_symbols, folding_ranges,
    highlights, implementation, prepare_rename, put_edit, put_position, put_range, references,
    semantic_tokens, signature_help, type_definition, workspace_symbols,
};
