//! Code in the making, and the pieces that all code is made of. Code is appended to one list of operations.
//!
//! - `specs/Cut` says how numbers that do not fit into 32 bits are cut, and `specs/Fitting` which sizes are kept uncut.
//! - `specs/Drafts` has code in the making: `put` appends instructions, `emitted` the code of something in a setting, and
//!   the `closed_..` make a block of what was appended.
//! - `specs/Frames` says which setting of the scheme a `Setting` means, `specs/Slots` what stands there at a slot,
//!   `specs/Homes` what is kept of a module, and `specs/Kinds` how cells are loaded and stored.
//! - `proofs/Emitted` and `proofs/Closed` have the laws of `emitted`.
#![tactic(auto)]

mod amount;
mod cells;
mod draft;
mod exact;
mod fitting;
mod frame;
mod helper;
mod home;
mod numbered;
mod pieces;
mod setting;

pub use amount::{Amount, cut, cut_sum};
pub use cells::{
    base_of, check_changed, check_taken, in_range, in_type, load, shift_bound, size_in, store,
};
pub use draft::Draft;
pub use fitting::sizes_fit;
pub use frame::Framed;
pub use helper::Helper;
pub use home::Home;
pub use pieces::{
    check_code, complement, extend_word, fault, is_zero, number, operation, raise_address,
    raise_far, relation, text, wrap_word,
};
pub use setting::Setting;
