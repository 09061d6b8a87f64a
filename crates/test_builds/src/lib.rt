//! Tests of `m2c`, `m2_pool`, `pool_board` and `wasm_binary`, each of which is proved without them: what neither a contract says
//! nor a program can be asked from outside.
//!
//! - `build` with gates: each job comes to the gate, workers meet there, and who is never let in leaves all to the gatherer;
//! - the pool: gates of all sorts, two workers at once, results that a cell held before; and the board by itself;
//! - a tree of a module that has no encoding;
//! - how large names, tokens and expressions are.
#![tactic(auto)]

#[cfg(test)]
mod board;
#[cfg(test)]
mod building;
#[cfg(test)]
mod files;
#[cfg(test)]
mod gates;
#[cfg(test)]
mod machine;
#[cfg(test)]
mod pool;
#[cfg(test)]
mod samples;
#[cfg(test)]
mod sizes;
