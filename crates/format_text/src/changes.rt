//! What a new layout changes, line by line.

use std::alloc::{AllocError, Global};

/// The end of a line.
const LINE_FEED: u8 = b'\n';

/// What a unified diff says behind a last line that has no end.
const NO_END: &[u8] = b"\n\\ No newline at end of file\n";

/// How many bytes of a line are no blanks.
fn ink_count(line: &[u8]) -> usize {
    line.iter()
        .filter(|byte| !byte.is_ascii_whitespace())
        .count()
}

/// The lines of a text, each with its end.
fn lines_of<'a>(alloc: Global, text: &'a [u8]) -> Result<Vec<&'a [u8]>, AllocError> {
    let mut lines = Vec::new(alloc);
    for line in text.split_inclusive(|byte| *byte == LINE_FEED) {
        lines.push(line)?;
    }
    Ok(lines)
}

/// A walk through lines: how many are behind it, and how many bytes these have that are no blanks.
#[derive(Clone, Copy)]
struct Walk {
    line: usize,
    ink: usize,
}

impl Walk {
    fn begin() -> Walk {
        Walk { line: 0, ink: 0 }
    }

    /// The walk behind one line more, if there is one.
    fn behind(self, lines: &[&[u8]]) -> Walk {
        match lines.get(self.line) {
            None => self,
            Some(line) => Walk {
                line: self.line.saturating_add(1),
                ink: self.ink.saturating_add(ink_count(line)),
            },
        }
    }
}

/// Lines of the old text, and the lines that stand for them in the new one.
#[derive(Clone, Copy)]
struct Hunk {
    old: (usize, usize),
    new: (usize, usize),
}

/// Walks on, from where both texts have come as far, to where they have again.
fn next_hunk(old: &[&[u8]], new: &[&[u8]], from: (Walk, Walk)) -> (Walk, Walk) {
    let mut one = from.0.behind(old);
    let mut other = from.1.behind(new);
    for _ in 0..old.len().saturating_add(new.len()) {
        if one.ink < other.ink {
            one = one.behind(old);
        } else if other.ink < one.ink {
            other = other.behind(new);
        } else {
            break;
        }
    }
    (one, other)
}

/// Puts a hunk behind others, as a part of the last one if it touches it.
fn push_hunk(hunks: &mut Vec<Hunk>, hunk: Hunk) -> Result<(), AllocError> {
    let mut whole = hunk;
    if let Some(last) = hunks.pop() {
        if last.old.1 == hunk.old.0 && last.new.1 == hunk.new.0 {
            whole.old.0 = last.old.0;
            whole.new.0 = last.new.0;
        } else {
            hunks.push(last)?;
        }
    }
    hunks.push(whole)?;
    Ok(())
}

/// The lines that differ.
fn hunks_of(alloc: Global, old: &[&[u8]], new: &[&[u8]]) -> Result<Vec<Hunk>, AllocError> {
    let mut hunks: Vec<Hunk> = Vec::new(alloc);
    let mut at = (Walk::begin(), Walk::begin());
    for _ in 0..old.len().saturating_add(new.len()) {
        if at.0.line >= old.len() && at.1.line >= new.len() {
            break;
        }
        let end = next_hunk(old, new, at);
        let hunk = Hunk {
            old: (at.0.line, end.0.line),
            new: (at.1.line, end.1.line),
        };
        at = end;
        if old.get(hunk.old.0..hunk.old.1) != new.get(hunk.new.0..hunk.new.1) {
            push_hunk(&mut hunks, hunk)?;
        }
    }
    Ok(hunks)
}

/// Writes lines, with this sign in front of each.
fn put_lines(out: &mut Vec<u8>, sign: u8, lines: &[&[u8]]) -> Result<(), AllocError> {
    for line in lines {
        out.push(sign)?;
        out.extend_from_slice(line)?;
        if !line.ends_with(b"\n") {
            out.extend_from_slice(NO_END)?;
        }
    }
    Ok(())
}

/// Where lines stand, as a unified diff says it: the first from 1, or the one before if there are none, and how many.
fn range_words(alloc: Global, (from, to): (usize, usize)) -> Result<String, AllocError> {
    let count = to.saturating_sub(from);
    let first = from.saturating_add(count.min(1));
    format!(in alloc; "{first},{count}")
}

/// Puts the line in front of lines that differ.
fn put_head(alloc: Global, out: &mut Vec<u8>, hunk: &Hunk) -> Result<(), AllocError> {
    let from = range_words(alloc, hunk.old)?;
    let to = range_words(alloc, hunk.new)?;
    let head = format!(in alloc; "@@ -{from} +{to} @@\n")?;
    out.extend_from_slice(head.as_bytes())?;
    Ok(())
}

/// The lines that differ between a text and its new layout, as a unified diff that `patch` takes. Nothing if none differ.
pub fn unified_diff(
    alloc: Global,
    name: &str,
    old: &[u8],
    new: &[u8],
) -> Result<Vec<u8>, AllocError> {
    let mut out = Vec::new(alloc);
    let old = lines_of(alloc, old)?;
    let new = lines_of(alloc, new)?;
    let hunks = hunks_of(alloc, &old, &new)?;
    if !hunks.is_empty() {
        let names = format!(in alloc; "--- {name}\n+++ {name}\n")?;
        out.extend_from_slice(names.as_bytes())?;
    }
    for hunk in &hunks {
        put_head(alloc, &mut out, hunk)?;
        let lost = old.get(hunk.old.0..hunk.old.1).unwrap_or(&[]);
        put_lines(&mut out, b'-', lost)?;
        let made = new.get(hunk.new.0..hunk.new.1).unwrap_or(&[]);
        put_lines(&mut out, b'+', made)?;
    }
    Ok(out)
}
