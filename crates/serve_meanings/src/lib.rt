//! What declared things mean, as the checker and the layout have it: the values of constants, and the sizes and places of variables
//! and fields, in words. Nothing is computed here a second time: the tables of definitions and the scopes of blocks are those of
//! `check_definition`, `check_block` and `check_body`, and the offsets are those of `layout_storage`. No statement is looked at.
#![tactic(auto)]

mod inside;
mod meaning;
mod names;
mod stored;
mod tables;
mod values;

pub use meaning::{Meant, Wanted, meaning_of};
pub use tables::Tree;
