//! What a wrong output is shown by: a part of the line that differs, of what was wanted and of what was printed.

use crate::places::{Difference, LINE_FEED};
use std::alloc::{AllocError, Global};
use std::fmt::Write;

/// The most bytes of a line that are shown.
const MOST_SHOWN: usize = 60;

/// The most of them that stand before the byte that differs.
const MOST_BEFORE: usize = 30;

/// What stands in place of a part that is not shown.
const CUT: &str = "...";

/// What is shown of a line behind which the text ends, if nothing stands there.
const NOTHING: &str = "(nothing)";

/// Where the output differs, and the line of both texts there.
#[derive(Drop)]
pub struct Mismatch {
    pub at: Difference,
    /// What is shown of the line that was wanted. Its end is shown as `\x0A`.
    pub wanted: String,
    /// What is shown of the line that was printed.
    pub printed: String,
}

/// Whether a byte is shown as it is.
fn is_plain(byte: u8) -> bool {
    byte >= b' ' && byte <= b'~' && byte != b'\\'
}

/// Adds a byte as it is shown: by itself, or as `\xNN`.
fn push_shown(text: &mut String, byte: u8) -> Result<(), AllocError> {
    if is_plain(byte) {
        return text.push(byte as char);
    }
    write!(text, "\\x{byte:02X}")
}

/// The bytes from this place on, or none if there are no more.
fn behind(text: &[u8], begin: usize) -> &[u8] {
    match text.get(begin..) {
        None => &[],
        Some(rest) => rest,
    }
}

/// The line that begins here, with its end. Empty if the text has ended.
fn line_at(text: &[u8], begin: usize) -> &[u8] {
    let rest = behind(text, begin);
    for (at, byte) in rest.iter().enumerate() {
        if *byte == LINE_FEED {
            return rest.get(..=at).unwrap_or(rest);
        }
    }
    rest
}

/// The bytes of a line that are shown from this place on, with a mark for those that are not.
fn shown_from(alloc: Global, line: &[u8], from: usize) -> Result<String, AllocError> {
    if line.is_empty() {
        return String::from_str(alloc, NOTHING);
    }
    let mut text = String::from_str(alloc, if from > 0 { CUT } else { "" })?;
    let rest = behind(line, from);
    let shown = rest.get(..MOST_SHOWN).unwrap_or(rest);
    for byte in shown {
        push_shown(&mut text, *byte)?;
    }
    if shown.len() < rest.len() {
        text.push_str(CUT)?;
    }
    Ok(text)
}

/// What is shown of both texts, which differ here.
pub fn mismatch_at(
    alloc: Global,
    at: Difference,
    printed: &[u8],
    wanted: &[u8],
) -> Result<Mismatch, AllocError> {
    let from = at.column.saturating_sub(MOST_BEFORE);
    Ok(Mismatch {
        at,
        wanted: shown_from(alloc, line_at(wanted, at.line_begin), from)?,
        printed: shown_from(alloc, line_at(printed, at.line_begin), from)?,
    })
}
