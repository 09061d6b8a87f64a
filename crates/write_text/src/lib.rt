//! Texts in the making.
//!
//! A `Text` takes words one behind another. Want of memory is noted and told at the end, so what writes has no exits of its own.
#![tactic(auto)]

mod text;

pub use text::Text;
