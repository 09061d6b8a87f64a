//! Texts of JSON in the making.
//!
//! A `Json` takes a text token by token. Each token goes to the kit's writer, which places commas and escapes. Want of memory is
//! noted and told at the end, so what writes has no exits of its own.
#![tactic(auto)]

mod text;

pub use text::Json;
