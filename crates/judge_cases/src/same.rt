//! Work that was handed in twice: texts with the same tokens.

use anyhow::Result;
use m2_scan::{ScanError, scan};
use m2_tree::Token;
use std::alloc::{AllocError, Global};

/// What is compared of a program.
#[derive(Drop)]
pub enum Compared {
    /// The tokens of its text.
    Tokens(Vec<Token>),
    /// The text, if it breaks a rule of tokens.
    Bytes(Vec<u8>),
}

/// What is compared of the program of this text.
pub fn comparand(alloc: Global, text: &[u8]) -> Result<Compared, AllocError> {
    match scan(alloc, text) {
        Ok(tokens) => Ok(Compared::Tokens(tokens)),
        Err(ScanError::NoMemory) => Err(AllocError),
        Err(ScanError::Refused(_)) => Ok(Compared::Bytes(Vec::from_slice(alloc, text)?)),
    }
}

/// Whether tokens say the same, wherever they stand.
fn say_the_same(some: &[Token], others: &[Token]) -> bool {
    if some.len() != others.len() {
        return false;
    }
    for (one, other) in some.iter().zip(others) {
        if one.lexeme != other.lexeme {
            return false;
        }
    }
    true
}

/// Whether two programs have the same tokens: they differ in spaces and comments alone.
pub fn are_same(one: &Compared, other: &Compared) -> bool {
    match (one, other) {
        (Compared::Tokens(some), Compared::Tokens(others)) => say_the_same(some, others),
        (Compared::Bytes(some), Compared::Bytes(others)) => some.as_slice() == others.as_slice(),
        _ => false,
    }
}
