//! Linking and execution of valid WebAssembly modules (Core 1.0, section 4), with a host that prints bytes and stops runs.
//!
//! [`Instances::link`] links modules, the first of which runs them. [`Instances::run`] executes them for a bounded number of
//! reductions, prints on a [`Sink`], and answers the [`End`] of the run or a [`RunFault`]; a later call goes on.
//!
//! The crates behind this one are internal. Users name this one and `wasm_core`.
#![tactic(auto)]

pub use wasm_engine::{End, Instances, RunFault, Sink};
