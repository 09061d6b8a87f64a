//! `m2 graph`: what the modules of a program import, as a picture, as data, or as the steps of a build. `m2 compile` and `m2 link`: these
//! steps, one module compiled alone, and the modules linked.
#![tactic(auto)]

mod compiling;
mod graphing;
mod linking;
mod loading;
mod parts;
mod writing;

pub use compiling::compile_file;
pub use graphing::show_imports;
pub use linking::link_program;
