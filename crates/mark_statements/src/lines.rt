//! The lines of a text.

use m2_tree::Pos;
use std::alloc::{AllocError, Global};
use text_tokens::part;

/// The lines of a text, by the bytes in front of which they begin.
#[derive(Drop)]
pub struct Lines<'a> {
    text: &'a [u8],
    begins: Vec<usize>,
}

impl<'a> Lines<'a> {
    /// The lines of this text.
    pub fn of(alloc: Global, text: &'a [u8]) -> Result<Lines<'a>, AllocError> {
        let mut begins = Vec::new(alloc);
        begins.push(0)?;
        for (at, byte) in text.iter().enumerate() {
            if *byte == b'\n' {
                begins.push(at.saturating_add(1))?;
            }
        }
        Ok(Lines { text, begins })
    }

    /// How many lines there are. Behind the last end of a line stands one more.
    pub fn count(&self) -> usize {
        self.begins.len()
    }

    /// In front of which byte a line begins, and the end of the text if there is no line of this number.
    fn begin(&self, number: usize) -> usize {
        match self.begins.get(number) {
            Some(at) => *at,
            None => self.text.len(),
        }
    }

    /// The line of this number, from 0, with its end.
    pub fn line(&self, number: usize) -> &'a [u8] {
        part(
            self.text,
            self.begin(number),
            self.begin(number.saturating_add(1)),
        )
    }

    /// How many bytes stand in front of a place.
    pub fn offset(&self, pos: Pos) -> usize {
        let line = pos.line.saturating_sub(1) as usize;
        let column = pos.col.saturating_sub(1) as usize;
        self.begin(line).saturating_add(column)
    }
}
