//! WebAssembly modules as bytes (Core 1.0, section 5), in this project's profile.
#![tactic(auto)]

mod binary;
mod module_bytes;

pub use module_bytes::{read_module, write_module};
