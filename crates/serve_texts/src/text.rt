//! A text, and where its lines begin.

use crate::letters::Encoding;
use m2_tree::Pos;
use std::alloc::{AllocError, Global};

/// A place in a text as the protocol has it: a line, and units of an encoding in it, both from 0.
#[derive(Clone, Copy, Debug, PartialEq, Eq, PartialOrd, Ord)]
pub struct Position {
    pub line: u32,
    pub character: u32,
}

/// A place of the protocol, and how many bytes stand in front of it.
#[derive(Clone, Copy, Debug, PartialEq, Eq)]
pub struct Known {
    pub offset: usize,
    pub position: Position,
}

impl Known {
    /// The begin of a text.
    pub const BEGIN: Known = Known {
        offset: 0,
        position: Position {
            line: 0,
            character: 0,
        },
    };
}

/// A text with the begins of its lines.
pub struct Text {
    bytes: Vec<u8>,
    /// Where lines begin behind bytes 0AH, from the second line on.
    lines: Vec<usize>,
    /// Where lines begin for the protocol, from the second line on, if it is elsewhere.
    rows: Option<Vec<usize>>,
}

// Written by hand, so that proofs above take a drop as one call.
impl Drop for Text {
    fn drop(self) {
        let Text { bytes, lines, rows } = self;
        drop(bytes);
        drop(lines);
        drop(rows);
    }
}

/// A number as one of 32 bits, or the greatest one.
fn narrow(number: usize) -> u32 {
    match u32::try_from(number) {
        Ok(narrow) => narrow,
        Err(_) => u32::MAX,
    }
}

/// A number of 32 bits as a wider one.
fn wide(number: u32) -> usize {
    number as usize
}

/// Where lines begin behind bytes 0AH, from the second line on.
fn line_begins(alloc: Global, bytes: &[u8]) -> Result<Vec<usize>, AllocError> {
    let mut begins = Vec::new(alloc);
    for (at, byte) in bytes.iter().enumerate() {
        if *byte == b'\n' {
            begins.push(at.saturating_add(1))?;
        }
    }
    Ok(begins)
}

/// Where lines begin for the protocol, from the second line on: also behind a byte 0DH, if no 0AH follows.
fn row_begins(alloc: Global, bytes: &[u8]) -> Result<Vec<usize>, AllocError> {
    let mut begins = Vec::new(alloc);
    for (at, byte) in bytes.iter().enumerate() {
        let behind = at.saturating_add(1);
        let is_end = match byte {
            b'\n' => true,
            b'\r' => bytes.get(behind) != Some(&b'\n'),
            _ => false,
        };
        if is_end {
            begins.push(behind)?;
        }
    }
    Ok(begins)
}

/// Whether a byte 0DH stands somewhere without a 0AH behind it.
fn has_bare_return(bytes: &[u8]) -> bool {
    bytes.iter().enumerate().any(|(at, byte)| *byte == b'\r'
        && bytes.get(at.saturating_add(1)) != Some(&b'\n'))
}

/// The begin of the line of this number, from 0, if there is one.
fn begin_of(begins: &[usize], number: usize) -> Option<usize> {
    match number.checked_sub(1) {
        None => Some(0),
        Some(at) => begins.get(at).copied(),
    }
}

/// The number of the line, from 0, in which a byte stands.
fn line_with(begins: &[usize], offset: usize) -> usize {
    begins.partition_point(|begin| *begin <= offset)
}

/// A line without the bytes that end it.
fn without_end(line: &[u8]) -> &[u8] {
    match line {
        [rest @ .., b'\r', b'\n'] => rest,
        [rest @ .., b'\n' | b'\r'] => rest,
        _ => line,
    }
}

/// The bytes from one place to another, as far as a text has them.
fn cut(bytes: &[u8], from: usize, to: usize) -> &[u8] {
    bytes.get(from..to).unwrap_or(b"")
}

impl Text {
    /// A text of these bytes. The only error is want of memory.
    pub fn of(alloc: Global, bytes: Vec<u8>) -> Result<Text, AllocError> {
        let lines = line_begins(alloc, &bytes)?;
        let rows = if has_bare_return(&bytes) {
            Some(row_begins(alloc, &bytes)?)
        } else {
            None
        };
        Ok(Text { bytes, lines, rows })
    }

    /// Its bytes.
    pub fn bytes(&self) -> &[u8] {
        &self.bytes
    }

    /// Where lines begin for the protocol, from the second line on.
    fn rows(&self) -> &[usize] {
        match &self.rows {
            Some(rows) => rows,
            None => &self.lines,
        }
    }

    /// How many bytes stand in front of a place of the compiler: all, if it stands behind the text.
    pub fn offset_of_pos(&self, pos: Pos) -> usize {
        let line = wide(pos.line.saturating_sub(1));
        let before = wide(pos.col.saturating_sub(1));
        match begin_of(&self.lines, line) {
            Some(begin) => begin.saturating_add(before).min(self.bytes.len()),
            None => self.bytes.len(),
        }
    }

    /// The place of the compiler behind so many bytes.
    pub fn pos_of_offset(&self, offset: usize) -> Pos {
        let offset = offset.min(self.bytes.len());
        let line = line_with(&self.lines, offset);
        let begin = begin_of(&self.lines, line).unwrap_or(0);
        let before = offset.saturating_sub(begin);
        Pos {
            line: narrow(line.saturating_add(1)),
            col: narrow(before.saturating_add(1)),
        }
    }

    /// The bytes of the protocol's line of this number, from 0, without those that end it, and where it begins.
    fn row(&self, number: usize) -> Option<(usize, &[u8])> {
        let begin = begin_of(self.rows(), number)?;
        let end = self.rows().get(number).copied().unwrap_or(self.bytes.len());
        Some((begin, without_end(cut(&self.bytes, begin, end))))
    }

    /// How many bytes stand in front of a place of the protocol. A place behind the end of a line is that end, and one behind
    /// the text is the text's end.
    pub fn offset_of(&self, position: Position, encoding: Encoding) -> usize {
        match self.row(wide(position.line)) {
            None => self.bytes.len(),
            Some((begin, row)) => {
                begin.saturating_add(encoding.bytes_before(row, position.character))
            }
        }
    }

    /// The place of the protocol behind so many bytes.
    pub fn position_of(&self, offset: usize, encoding: Encoding) -> Position {
        let offset = offset.min(self.bytes.len());
        let line = line_with(self.rows(), offset);
        let begin = begin_of(self.rows(), line).unwrap_or(0);
        let before = cut(&self.bytes, begin, offset);
        Position {
            line: narrow(line),
            character: encoding.units_of(before),
        }
    }

    /// The place of the protocol behind so many bytes, counted on from a place in front of it that is known.
    pub fn position_behind(&self, known: Known, offset: usize, encoding: Encoding) -> Position {
        let offset = offset.min(self.bytes.len());
        if offset < known.offset || line_with(self.rows(), offset) != wide(known.position.line) {
            return self.position_of(offset, encoding);
        }
        let between = encoding.units_of(cut(&self.bytes, known.offset, offset));
        Position {
            line: known.position.line,
            character: known.position.character.saturating_add(between),
        }
    }

    /// The text with other bytes from one place to another. The only error is want of memory.
    pub fn edited(
        &self,
        alloc: Global,
        from: usize,
        to: usize,
        new: &[u8],
    ) -> Result<Text, AllocError> {
        let first = from.min(to).min(self.bytes.len());
        let last = from.max(to).min(self.bytes.len());
        let mut bytes = Vec::from_slice(alloc, cut(&self.bytes, 0, first))?;
        bytes.extend_from_slice(new)?;
        bytes.extend_from_slice(cut(&self.bytes, last, self.bytes.len()))?;
        Text::of(alloc, bytes)
    }
}
