//! The jobs of a build, and the two rounds in which workers make them.
//!
//! - The first round reads files: of each text come its tree or its refusal (`read_text`).
//! - The second round compiles the modules of their graph. What becomes of a module is a function of what became of those
//!   that it needs: a definition gives its table, a body its module, and either may break a rule (`compile`).
//!
//! `Runner` hands both rounds to the workers of `m2_pool`, and `in_turn` makes them without threads. What a single job does
//! knows nothing of either.
#![tactic(auto)]

mod contents;
mod file;
mod in_turn;
mod modules;
mod options;
mod outcome;
mod reading;
mod runner;
mod tables;
mod texts;

pub use contents::compile;
pub use file::SourceFile;
pub use in_turn::{compile_in_turn, read_in_turn};
pub use options::{MAX_PAGES, Options};
pub use outcome::Compiled;
pub use pool_board::{Gate, MAX_WORKERS};
pub use reading::{Read, read_text};
pub use runner::Runner;
