//! From program texts to what the program prints: built in memory, linked and executed, with no file.
#![tactic(auto)]

mod fault;
mod laws;
mod loading;
mod program;
mod reading;
mod whole;

pub use fault::ProgramFault;
pub use laws::saved_laws;
pub use loading::{Loaded, load_program};
pub use program::Program;
pub use wasm_engine::{End, Instances, Sink};
pub use whole::{ProgramEnd, run_program};
