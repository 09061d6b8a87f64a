//! `m2 test`: programs that are judged by cases.
#![tactic(auto)]

mod testing;

pub use testing::{test_class, test_program};
