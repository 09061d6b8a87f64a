//! `m2 new`: the files of a new program, or of an exercise with its cases.
#![tactic(auto)]

mod creating;
mod exercise;

pub use creating::create;
