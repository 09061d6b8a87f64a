//! Where the variables of a module stand: sizes, offsets, frames and slots.
//!
//! [`Layout`]'s call `of` makes the layout of a checked module, or answers the least place at which storage is too large,
//! which is refusal 60. Its calls `size`, `offset`, `frame` and `slots` answer numbers of bytes and of places in the table.
//!
//! The crate behind this one is internal. Users name this one and `m2_check`.
#![tactic(auto)]

pub use layout_storage::Layout;
