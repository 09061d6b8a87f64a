//! WebAssembly modules linked one after the other (Core 1.0, section 4.5.4), with a host that has `put` and `stop`.
#![tactic(auto)]

mod imports;
mod link;
mod segments;
mod store;
mod types;

pub use link::{linked_all, run_of};
pub use types::{TypedFunction, has_types, is_same_type, own_function};
