//! WebAssembly code as bytes (Core 1.0, section 5.4), in this project's profile, and what all bytes of modules are made of.
//!
//! That is: numbers, names and parts that state their sizes (Core 1.0, sections 5.1 and 5.2), and the buffer to which a
//! `Writer` appends bytes.
#![tactic(auto)]

pub mod byte;
mod code;
mod fits;
mod name;
mod number;
mod opcode;
mod parts;
mod writer;

pub use code::{code_at, code_over, write_code};
pub use name::{name_at, write_name};
pub use number::{signed32_at, signed64_at, unsigned_at};
pub use parts::{byte_at, close_part, front, skip};
pub use writer::Writer;
