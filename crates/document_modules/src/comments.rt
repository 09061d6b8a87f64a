//! Comments, as paragraphs and as lines that stand as they are.

use crate::sheet::Sheet;
use std::alloc::{AllocError, Global};
use text_tokens::{part, rest};

/// The end of a line.
const LINE_FEED: u8 = b'\n';

/// How many bytes open a comment, and how many close it.
const BRACKET: usize = 2;

/// How many blanks more than the others a line has that stands as it is.
const DEEPER: usize = 2;

/// What a comment says, without its brackets.
fn inside(comment: &[u8]) -> &[u8] {
    part(comment, BRACKET, comment.len().saturating_sub(BRACKET)).trim_ascii()
}

/// How many blanks stand in front.
fn indent_of(line: &[u8]) -> usize {
    line.iter()
        .take_while(|byte| byte.is_ascii_whitespace())
        .count()
}

/// How many blanks each line behind the first has, empty ones aside.
fn least_indent(words: &[u8]) -> usize {
    let mut least = usize::MAX;
    for (number, line) in words.split(|byte| *byte == LINE_FEED).enumerate() {
        if number > 0 && !line.trim_ascii().is_empty() {
            least = least.min(indent_of(line));
        }
    }
    least
}

/// What a line of a comment is.
#[derive(Clone, Copy, PartialEq, Eq)]
enum Line {
    Empty,
    Prose,
    /// It stands as it is.
    Verbatim,
}

/// What a line is, if the others have so many blanks.
fn line_kind(number: usize, line: &[u8], least: usize) -> Line {
    if line.trim_ascii().is_empty() {
        Line::Empty
    } else if number > 0 && indent_of(line) >= least.saturating_add(DEEPER) {
        Line::Verbatim
    } else {
        Line::Prose
    }
}

/// A paragraph, or lines that stand as they are, which are gathered.
#[derive(Drop)]
struct Block {
    kind: Line,
    words: Vec<u8>,
}

impl Block {
    /// Whether a line goes on with it.
    fn goes_on(&self, kind: Line) -> bool {
        kind == self.kind && kind != Line::Empty
    }

    /// Adds a line.
    fn add(&mut self, kind: Line, line: &[u8], least: usize) -> Result<(), AllocError> {
        match kind {
            Line::Empty => {}
            Line::Prose => {
                if !self.words.is_empty() {
                    self.words.push(b' ')?;
                }
                self.words.extend_from_slice(line.trim_ascii())?;
            }
            Line::Verbatim => {
                let words = rest(line, least.saturating_add(DEEPER));
                self.words.extend_from_slice(words.trim_ascii_end())?;
                self.words.push(LINE_FEED)?;
            }
        }
        Ok(())
    }

    /// Writes what is gathered.
    fn write(&self, sheet: &mut Sheet) {
        match self.kind {
            Line::Empty => {}
            Line::Prose => {
                sheet.begin_paragraph();
                sheet.put_prose(&self.words, true);
                sheet.end_paragraph();
            }
            Line::Verbatim => sheet.put_lines("", &self.words),
        }
    }
}

/// A block that begins with a line of this kind.
fn block_of(alloc: Global, kind: Line) -> Block {
    Block {
        kind,
        words: Vec::new(alloc),
    }
}

/// Writes what a comment says.
pub fn write_comment(alloc: Global, sheet: &mut Sheet, comment: &[u8]) -> Result<(), AllocError> {
    let words = inside(comment);
    let least = least_indent(words);
    let mut block = block_of(alloc, Line::Empty);
    for (number, line) in words.split(|byte| *byte == LINE_FEED).enumerate() {
        let kind = line_kind(number, line, least);
        if !block.goes_on(kind) {
            block.write(sheet);
            block = block_of(alloc, kind);
        }
        block.add(kind, line, least)?;
    }
    block.write(sheet);
    Ok(())
}

/// The first paragraph of a comment, as one line.
fn first_paragraph(alloc: Global, comment: &[u8]) -> Result<Vec<u8>, AllocError> {
    let mut block = block_of(alloc, Line::Prose);
    for line in inside(comment).split(|byte| *byte == LINE_FEED) {
        if line.trim_ascii().is_empty() {
            break;
        }
        block.add(Line::Prose, line, 0)?;
    }
    Ok(block.words)
}

/// The first sentence of a comment: up to a point with a blank behind it, or the first paragraph.
pub fn first_sentence(alloc: Global, comment: &[u8]) -> Result<Vec<u8>, AllocError> {
    let words = first_paragraph(alloc, comment)?;
    let mut before = b' ';
    for (at, byte) in words.iter().enumerate() {
        if before == b'.' && *byte == b' ' {
            return Vec::from_slice(alloc, part(&words, 0, at));
        }
        before = *byte;
    }
    Ok(words)
}
