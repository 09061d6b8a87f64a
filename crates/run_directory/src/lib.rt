//! What `m2run` does with a directory of modules, over any directory and any two streams.
#![tactic(auto)]

mod dir;
mod load;
mod names;
mod report;
mod runner;
mod say;

pub use dir::InDir;
pub use report::Report;
pub use runner::execute;
pub use say::{end_word, say_all};
pub use wasm_engine::Sink;
