//! One WebAssembly module of the modules of a program, for hosts that take one file.
//!
//! It has the functions of all modules, link's memory and table, and no globals: these are constants of link, and stand as
//! numbers in the code. Its host is WASI preview 1, for which it has functions of its own (`wasi.rt`), or ours. It is validated
//! before it is handed out.
#![tactic(auto)]

mod fault;
mod host;
mod numbers;
mod single;
mod wasi;
mod whole;

pub use fault::SingleFault;
pub use host::Host;
pub use single::single_module;
