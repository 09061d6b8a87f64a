//! The calls that lead to a place, with recursion folded.

use std::alloc::{AllocError, Global};
use watch_code::Activation;

/// The most calls that are told, the innermost ones and the outermost one.
const MOST_TOLD: usize = 24;

/// A call that is told, and how many more of the same function stand around it.
#[derive(Clone, Copy)]
pub struct Call {
    pub activation: Activation,
    pub more: usize,
}

/// The calls that lead to a place, the innermost first.
#[derive(Drop)]
pub struct Calls {
    pub told: Vec<Call>,
    /// How many calls between the last but one and the last are not told.
    pub left_out: usize,
}

/// The calls, those of one function that follow each other as one.
fn folded(alloc: Global, activations: &[Activation]) -> Result<Vec<Call>, AllocError> {
    let mut all: Vec<Call> = Vec::new(alloc);
    for activation in activations.iter().rev().skip(1) {
        match all.last_mut() {
            Some(call) if call.activation.function == activation.function => {
                call.more = call.more.saturating_add(1);
            }
            _ => all.push(Call {
                activation: *activation,
                more: 0,
            })?,
        }
    }
    Ok(all)
}

/// The calls that lead to the innermost of these functions, which is the last.
pub fn calls_of(alloc: Global, activations: &[Activation]) -> Result<Calls, AllocError> {
    let all = folded(alloc, activations)?;
    let last = all.len().saturating_sub(1);
    let mut calls = Calls {
        told: Vec::new(alloc),
        left_out: 0,
    };
    for (number, call) in all.iter().enumerate() {
        if number.saturating_add(1) < MOST_TOLD || number == last {
            calls.told.push(*call)?;
        } else {
            let more = call.more.saturating_add(1);
            calls.left_out = calls.left_out.saturating_add(more);
        }
    }
    Ok(calls)
}
