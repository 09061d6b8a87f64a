//! What the trees of both languages are made of: a list, a box and a value that threads share. Contracts see them as what they hold,
//! so a tree of them is plain data: a clause can say that two trees are equal, and `==` decides it.
#![tactic(auto)]

mod boxed;
mod items;
mod shared;

pub use boxed::Boxed;
pub use items::{Items, at};
pub use shared::Shared;
