//! The compiler: program texts to modules.
#![tactic(auto)]

mod compiling;
mod ending;
mod files;
mod laws;
mod modules;
mod outcome;
mod say;
mod sources;

pub use build_jobs::{MAX_PAGES, MAX_WORKERS, Options, SourceFile};
pub use compiling::compile;
pub use files::{BuildFault, Outcome, build, build_once};
pub use laws::{encoding_laws, files_laws, outcome_laws, reading_laws};
pub use m2_tree::Refusal;
pub use pool_board::{Gate, Open};
pub use run_directory::{InDir, Sink, execute};
pub use write_directory::{OutDir, SaveFault, save};
