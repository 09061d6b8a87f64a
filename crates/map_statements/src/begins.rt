//! Where the code of functions begins in the bytes of a module.

use std::alloc::{AllocError, Global};
use text_tokens::rest;
use wasm_code::{byte, unsigned_at};

/// How many bytes stand in front of the first section.
const HEADER: usize = 8;

/// The most sections that a module has.
const MOST_SECTIONS: usize = 11;

/// A number in bytes, and the byte behind it.
#[derive(Clone, Copy)]
struct Number {
    value: usize,
    behind: usize,
}

/// The number that begins with a byte.
fn number_at(bytes: &[u8], at: usize) -> Option<Number> {
    match unsigned_at(rest(bytes, at)) {
        Ok((value, left)) => Some(Number {
            value: value as usize,
            behind: bytes.len().saturating_sub(left.len()),
        }),
        Err(_) => None,
    }
}

/// The number of functions with code, which the section of code begins with.
fn count_of(bytes: &[u8]) -> Option<Number> {
    let mut at = HEADER;
    for _ in 0..MOST_SECTIONS {
        let section = number_at(bytes, at)?;
        let size = number_at(bytes, section.behind)?;
        if section.value == usize::from(byte::CODE_SECTION) {
            return number_at(bytes, size.behind);
        }
        at = size.behind.saturating_add(size.value);
    }
    None
}

/// The byte with which the code begins of the function whose size is in front of this number of groups of locals.
fn behind_locals(bytes: &[u8], groups: Number) -> Option<usize> {
    let mut at = groups.behind;
    for _ in 0..groups.value {
        let count = number_at(bytes, at)?;
        at = count.behind.saturating_add(1);
    }
    Some(at)
}

/// The byte with which the code of each function of a module begins, from 0. Fewer if the bytes are no module.
pub fn begins_of(alloc: Global, bytes: &[u8]) -> Result<Vec<usize>, AllocError> {
    let mut begins = Vec::new(alloc);
    let Some(count) = count_of(bytes) else {
        return Ok(begins);
    };
    let mut at = count.behind;
    for _ in 0..count.value {
        let Some(size) = number_at(bytes, at) else {
            break;
        };
        let groups = number_at(bytes, size.behind);
        let Some(begin) = groups.and_then(|it| behind_locals(bytes, it)) else {
            break;
        };
        begins.push(begin)?;
        at = size.behind.saturating_add(size.value);
    }
    Ok(begins)
}
