//! One module, compiled alone: from the text of its body and those of the definitions that it needs, directly and through others.
//!
//! What is refused, and what the module is, is what the jobs of a build make of these texts: `compile_module` reads each text as its
//! job does, asks `Graph::of` for the order of the jobs, and makes them in turn. `Graph::of` wants a program with all its bodies, so
//! those that are not there are stood in for by empty ones, which are not compiled. What is told of a module beside its bytes is
//! read off the trees.
#![tactic(auto)]

mod made;
mod passes;
mod stands;
mod told;

pub use made::{Interface, Made};
pub use passes::{compile_module, compile_trees};
