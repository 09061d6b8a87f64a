//! WebAssembly modules in their text format, a row for each instruction, and texts in the making.
#![tactic(auto)]

mod instructions;
mod module;
mod page;
mod strings;
mod words;

pub use module::put_module;
pub use page::Page;
