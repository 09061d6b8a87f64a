//! What may be written as a name.

use m2_tree::{Lexeme, Token};
use scan_tokens::{ScanError, scan};
use std::alloc::{AllocError, Global};

/// Whether tokens are this name alone.
fn are_name(tokens: &[Token], name: &[u8]) -> bool {
    match tokens {
        [first, _end] => match &first.lexeme {
            Lexeme::Name(it) => it.as_bytes() == name,
            _ => false,
        },
        _ => false,
    }
}

/// Whether this may be written as a name: letters and digits that are no reserved word. The only error is want of memory.
pub fn is_name(alloc: Global, name: &[u8]) -> Result<bool, AllocError> {
    match scan(alloc, name) {
        Ok(tokens) => Ok(are_name(&tokens, name)),
        Err(error) => match error {
            ScanError::Refused(_refusal) => Ok(false),
            ScanError::NoMemory => Err(AllocError),
        },
    }
}
