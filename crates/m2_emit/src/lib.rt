//! The modules that a program is compiled to: one for each body, and the module link that runs them.
//!
//! - `specs/Emitted` says what is emitted for a module, and what link needs of it.
#![tactic(auto)]

mod bytes;
mod code;
mod emitted;
mod functions;
mod helpers;
mod imports;
mod link;
mod module;
mod parts;
mod segments;
mod types;

pub use bytes::{emit, emit_link};
pub use emitted::ModuleBytes;
