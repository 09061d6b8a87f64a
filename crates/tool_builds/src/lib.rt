//! `m2 build`, `m2 input` and `m2 check`: programs that are built in memory, saved, linked into one module, given another input, or
//! mended.
#![tactic(auto)]

mod building;
mod checking;
mod exchanging;
mod giving;
mod linking;
mod mapping;
mod mending;
mod pages;
mod renewing;
mod saving;
mod wanted;

pub use building::{Modules, build_program, say_fault};
pub use checking::check_all;
pub use exchanging::exchange_input;
pub use giving::{Ready, give_input, load_given};
pub use linking::build_single;
pub use saving::build_into;
pub use wanted::Wanted;
