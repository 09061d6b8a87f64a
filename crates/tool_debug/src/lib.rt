//! `m2 debug`: a session in the terminal, or with an editor.
#![tactic(auto)]

mod debugging;
mod serving;
mod wire;

pub use debugging::debug_file;
pub use serving::serve_debugger;
