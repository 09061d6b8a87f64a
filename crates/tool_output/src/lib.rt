//! Streams, screens and files of `m2`: what is said when one of them fails, what a program prints, what is refused of programs, and texts
//! that are written anew, or only if they change, and of which files others were made.
#![tactic(auto)]

mod depending;
mod keeping;
mod output;
mod rewriting;
mod screen;
mod showing;

pub use depending::write_depends;
pub use keeping::{holds_bytes, write_changed};
pub use output::{say_output_fault, write_page};
pub use rewriting::rewrite_file;
pub use screen::Screen;
pub use showing::{refuse, show};
