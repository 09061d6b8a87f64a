//! Where a run of modules in a folder was when it ended with a fault, or when it had made all reductions that it may make: the
//! statement with its line, and the calls that lead there. It is known if beside each module M.wasm stands its map M.map. The run is
//! made once more, of modules that signal at the instructions that the maps name (`watch_code`).
#![tactic(auto)]

mod line;
mod places;
mod program;
mod report;

pub use report::explain_fault;
