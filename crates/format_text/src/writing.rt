//! Lines are written.

use crate::indenting::Placed;
use m2_tree::Symbol;
use std::alloc::{AllocError, Global};
use text_tokens::rest;

/// The most columns of a line.
const MOST_COLUMNS: usize = 100;

/// The spaces of a level.
const LEVEL: usize = 2;

/// The end of a line.
const LINE_FEED: u8 = b'\n';

/// How good it is to end a line behind this symbol. The best are the ends of statements and of declarations.
#[derive(Clone, Copy, PartialEq, Eq, PartialOrd, Ord)]
enum Ending {
    Other,
    Comma,
    Semicolon,
}

fn ending_of(symbol: Option<Symbol>) -> Ending {
    match symbol {
        Some(Symbol::Semicolon) => Ending::Semicolon,
        Some(Symbol::Comma) => Ending::Comma,
        _ => Ending::Other,
    }
}

/// The column behind these bytes, if they begin behind this one.
fn column_behind(column: usize, bytes: &[u8]) -> usize {
    match bytes.iter().rposition(|byte| *byte == LINE_FEED) {
        Some(last) => bytes.len().saturating_sub(last),
        None => column.saturating_add(bytes.len()),
    }
}

fn put_spaces(out: &mut Vec<u8>, count: usize) -> Result<(), AllocError> {
    for _ in 0..count {
        out.push(b' ')?;
    }
    Ok(())
}

/// How many of these pieces stand in one line: all, if they fit. Else as many as end best.
fn line_length(line: &[Placed<'_>]) -> usize {
    let mut column = 0usize;
    let mut best: Option<(Ending, usize)> = None;
    let mut before = None;
    for (at, placed) in line.iter().enumerate() {
        let spaces = if at == 0 {
            placed.level.saturating_mul(LEVEL)
        } else {
            placed.spaces
        };
        let ending = ending_of(before);
        let is_better = best.is_none_or(|(other, _)| ending >= other);
        if at > 0 && spaces > 0 && !placed.piece.is_comment() && is_better {
            best = Some((ending, at));
        }
        column = column_behind(column.saturating_add(spaces), placed.piece.bytes);
        if column > MOST_COLUMNS && !placed.piece.is_comment() {
            if let Some((_, end)) = best {
                return end;
            }
        }
        before = placed.piece.symbol();
    }
    line.len()
}

/// Writes a line of a comment that moved from one column to another.
fn put_comment_line(
    out: &mut Vec<u8>,
    line: &[u8],
    old: usize,
    new: usize,
) -> Result<(), AllocError> {
    out.push(LINE_FEED)?;
    let blanks = line.iter().take_while(|byte| **byte == b' ').count();
    if blanks == line.len() {
        return Ok(());
    }
    put_spaces(out, blanks.saturating_add(new).saturating_sub(old))?;
    out.extend_from_slice(rest(line, blanks))
}

/// Writes a comment that begins a line: its other lines move with the first.
fn put_comment(out: &mut Vec<u8>, bytes: &[u8], old: usize, new: usize) -> Result<(), AllocError> {
    for (number, line) in bytes.split(|byte| *byte == LINE_FEED).enumerate() {
        if number == 0 {
            out.extend_from_slice(line)?;
        } else {
            put_comment_line(out, line, old, new)?;
        }
    }
    Ok(())
}

/// Writes the first piece of a line.
fn put_first(out: &mut Vec<u8>, placed: &Placed<'_>) -> Result<(), AllocError> {
    let column = placed.level.saturating_mul(LEVEL);
    put_spaces(out, column)?;
    if placed.piece.is_comment() {
        return put_comment(out, placed.piece.bytes, placed.piece.blanks, column);
    }
    out.extend_from_slice(placed.piece.bytes)
}

/// Writes these pieces as a line.
fn put_line(out: &mut Vec<u8>, line: &[Placed<'_>]) -> Result<(), AllocError> {
    for (at, placed) in line.iter().enumerate() {
        if at == 0 {
            put_first(out, placed)?;
        } else {
            put_spaces(out, placed.spaces)?;
            out.extend_from_slice(placed.piece.bytes)?;
        }
    }
    out.push(LINE_FEED)?;
    Ok(())
}

/// Writes these pieces as lines, none of which is too long if it can be broken.
fn put_lines(out: &mut Vec<u8>, line: &[Placed<'_>]) -> Result<(), AllocError> {
    let mut begin = 0usize;
    for _ in 0..line.len() {
        let rest = &line[begin.min(line.len())..];
        let length = line_length(rest).min(rest.len());
        if length == 0 {
            break;
        }
        put_line(out, &rest[..length])?;
        begin = begin.saturating_add(length);
    }
    Ok(())
}

/// The text of these pieces.
pub fn written(alloc: Global, placed: &[Placed<'_>]) -> Result<Vec<u8>, AllocError> {
    let mut out = Vec::new(alloc);
    let mut begin = 0usize;
    for (at, one) in placed.iter().enumerate() {
        if at > 0 && one.piece.breaks > 0 {
            put_lines(&mut out, &placed[begin.min(at)..at])?;
            if one.piece.breaks > 1 {
                out.push(LINE_FEED)?;
            }
            begin = at;
        }
    }
    put_lines(&mut out, &placed[begin.min(placed.len())..])?;
    Ok(out)
}
