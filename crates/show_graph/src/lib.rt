//! What the modules of a program import, for people and for other programs: a picture, data, or the steps of a build.
//!
//! - `nodes_of` gathers the modules of files that have trees.
//! - `picture`, `data`, `ninja_file` and `make_file` write them.
//! - `depends` says in make's form of which files others were made.
#![tactic(auto)]

mod depending;
mod drawing;
mod json;
mod make;
mod ninja;
mod nodes;
mod steps;
mod words;

pub use depending::depends;
pub use drawing::picture;
pub use json::data;
pub use make::make_file;
pub use ninja::ninja_file;
pub use nodes::{Node, Part, nodes_of};
pub use steps::Steps;
