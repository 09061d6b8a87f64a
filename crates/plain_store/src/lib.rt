//! What the variables of a running program hold, as a tree, and what has been printed.
//!
//! - `specs/Contents` says what a tree holds at each location, `specs/Seen` what the definition sees of a state.
//! - `specs/Blanks` has what fresh variables hold, and their sizes.
#![tactic(auto)]

pub mod blanks;
pub mod copying;
pub mod held;
pub mod opened_tree;
pub mod prepared;
pub mod replaced;
pub mod state;
pub mod storage;
pub mod variables;
