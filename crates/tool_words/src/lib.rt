//! The words of the command line of `m2`: what they ask for, and the folders in which modules are looked for. What the words
//! cannot be is reported on standard error.
#![tactic(auto)]

mod asked;
mod commands;
mod libraries;
mod own_library;
mod words;

pub use asked::{
    Asked, BuildRequest, Drawn, Fix, Given, Layout, Measured, Pass, RunRequest, Setting, Style,
    TestRequest, TextRequest, Told,
};
pub use words::read_command_line;

/// The name of the program, in front of what it says.
pub const PROGRAM: &str = "m2";
