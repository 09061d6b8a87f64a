//! The machine that executes WebAssembly modules (Core 1.0, section 4): where a run is, and one reduction.
//!
//! What an instruction needs is there as long as the run is well typed, so nothing of it is tested.
#![tactic(auto)]

mod branch;
mod calculate;
mod call;
mod frame;
mod memory;
mod places;
mod reductions;
mod variables;

pub use call::first_frame;
pub use frame::{Frame, Label, Machine, Pages, Reduced};
pub use places::{callee_at, function_at, memory_of};
pub use reductions::reduce;
