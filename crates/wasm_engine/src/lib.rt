//! Linking and execution of WebAssembly modules (Core 1.0, section 4), with a host that prints bytes and stops runs.
#![tactic(auto)]

mod bytes;
mod combined;
mod engine;
mod quick;
mod sink;

pub use engine::{End, Instances, RunFault};
pub use sink::Sink;
