//! Pieces of a text, as they stand there.

use crate::places::{offset_of, part};
use m2_tree::{Pos, Token};
use std::alloc::{AllocError, Global};

/// The most bytes of a piece that are shown.
const MOST_SHOWN: usize = 60;

/// What stands behind a piece that is shown in part.
const AND_MORE: &[u8] = b" ..";

/// The place of the token of this number, or the place of the last one.
fn place_of(tokens: &[Token], number: usize) -> Option<Pos> {
    match tokens.get(number) {
        Some(token) => Some(token.pos),
        None => tokens.last().map(|it| it.pos),
    }
}

/// The bytes of the tokens from one number to another, with what stands between them and behind the last.
pub fn bytes_between<'a>(text: &'a [u8], tokens: &[Token], from: usize, to: usize) -> &'a [u8] {
    match (place_of(tokens, from), place_of(tokens, to)) {
        (Some(first), Some(behind)) => {
            part(text, offset_of(text, first), offset_of(text, behind))
        }
        _ => &[],
    }
}

/// A byte as it is shown.
fn shown_byte(byte: u8) -> u8 {
    match byte {
        b'!'..=b'~' => byte,
        _ => b'?',
    }
}

/// Whether a byte is a space of the language.
fn is_space(byte: u8) -> bool {
    matches!(byte, b' ' | b'\t' | b'\n' | b'\r')
}

/// Bytes as they are shown: with one blank for the spaces between two others, and at most 60 of them.
pub fn shorten(alloc: Global, bytes: &[u8]) -> Result<Vec<u8>, AllocError> {
    let mut all = Vec::new(alloc);
    let mut is_blank = false;
    for byte in bytes {
        if is_space(*byte) {
            is_blank = !all.is_empty();
        } else {
            if all.len() >= MOST_SHOWN {
                all.extend_from_slice(AND_MORE)?;
                return Ok(all);
            }
            if is_blank {
                all.push(b' ')?;
                is_blank = false;
            }
            all.push(shown_byte(*byte))?;
        }
    }
    Ok(all)
}

/// What the tokens from one number to another are, in words.
pub fn excerpt(
    alloc: Global,
    text: &[u8],
    tokens: &[Token],
    from: usize,
    to: usize,
) -> Result<String, AllocError> {
    let bytes = shorten(alloc, bytes_between(text, tokens, from, to))?;
    String::from_utf8_lossy(alloc, &bytes)
}
