//! What may be written at a place: names, words of the language, calls with places for what is given, procedures that an
//! implementation lacks, and an implementation that is not there. Each is an object of JSON in the words of the protocol. What
//! `serve_hovers` has is handed on.
#![tactic(auto)]

mod abilities;
mod completing;
mod items;
mod partners;
mod snippets;

pub use abilities::{has_snippets, makes_files};
pub use completing::{Choice, completion};
pub use partners::{implementation_text, put_new_file};
pub use serve_hovers::{
    Ask, Edit, Extent, TOKEN_MODIFIERS, TOKEN_TYPES, definition, document_symbols, folding_ranges,
    highlights, hover, implementation, prepare_rename, put_edit, put_position, put_range,
    references, semantic_tokens, signature_help, type_definition, workspace_symbols,
};
