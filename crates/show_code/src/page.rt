//! Texts in the making.

ghost use Rattle.std.specs.Prelude.{◌≡◌, [], IsOk, IfOk, decimal, replicate};
ghost use Rattle.std.specs.List.{flat_map};
ghost use Rattle.show_code.specs.Pages.{Puts, indent, place_text};

use itoa::Buffer;
use m2_tree::Pos;
use std::alloc::{AllocError, Global};

/// How many blanks stand in front of a row for each level.
const INDENT: usize = 2;

/// The last level that has blanks of its own. The rows of each level below it begin alike, behind the number of their level,
/// so a text is no longer than a multiple of what it shows.
const DEEPEST: usize = 32;

/// A text in the making. Want of memory is noted and told at the end, so what puts has no exits of its own.
pub struct Page {
    text: Vec<u8>,
    /// The first want of memory. Nothing is put behind it.
    written: Result<(), AllocError>,
}

// Written by hand, so that proofs above take a drop as one call.
impl Drop for Page {
    fn drop(self) {
        let Page { text, written: _ } = self;
        drop(text);
    }
}

impl Page {
    /// A text of no bytes.
    pub fn new(alloc: Global) -> Page
        ensures whole { IsOk result.written }
        ensures empty { result.text.items ≡ [] }
    {
        Page {
            text: Vec::new(alloc),
            written: Ok(()),
        }
    }

    /// The bytes of the text. The only error is that memory ran out before.
    pub fn finish(self) -> Result<Vec<u8>, AllocError>
        ensures { IfOk result (λ text.
            IsOk self.written × (text.items ≡ self.text.items)) }
    {
        let Page { text, written } = self;
        written?;
        Ok(text)
    }

    /// Puts bytes at the end.
    pub fn put(&mut self, words: &[u8])
        ensures { Puts self.old self.new words.now }
    {
        if self.written.is_ok() {
            self.written = self.text.extend_from_slice(words);
        }
    }

    /// Puts a number at the end.
    pub fn put_number(&mut self, number: u64)
        ensures { Puts self.old self.new (decimal number) }
    {
        let mut digits = Buffer::new();
        self.put(digits.format(number).as_bytes());
    }

    /// Puts several texts at the end, one behind another.
    pub fn put_all(&mut self, parts: &[&[u8]])
        ensures { Puts self.old self.new (flat_map (λ p. p.now) parts.now) }
    {
        for part in parts {
            self.put(part);
        }
    }

    /// Puts blanks at the end.
    fn put_blanks(&mut self, count: usize)
        ensures { Puts self.old self.new (replicate count 32) }
    {
        for _ in 0..count {
            self.put(b" ");
        }
    }

    /// Puts the blanks in front of a row of code, two for each level up to the 32nd.
    pub fn put_indent(&mut self, level: usize)
        ensures { Puts self.old self.new (indent level) }
    {
        self.put_blanks(INDENT * level.min(DEEPEST));
    }

    /// Begins a row of this level: with blanks, and below the 32nd level also with the number of the level.
    pub fn begin_row(&mut self, level: usize) {
        self.put_indent(level);
        if level > DEEPEST {
            self.put(b"[");
            self.put_number(level as u64);
            self.put(b"] ");
        }
    }

    /// A row of this level, with these words.
    pub fn row(&mut self, level: usize, words: &[&[u8]]) {
        self.begin_row(level);
        self.put_all(words);
        self.put(b"\n");
    }

    /// Puts a place at the end: its line and its column.
    pub fn put_place(&mut self, pos: Pos)
        ensures { Puts self.old self.new (place_text pos) }
    {
        self.put_number(u64::from(pos.line));
        self.put(b":");
        self.put_number(u64::from(pos.col));
    }

    /// A row of this level, with these words and then a place.
    pub fn row_at(&mut self, level: usize, words: &[&[u8]], pos: Pos) {
        self.begin_row(level);
        self.put_all(words);
        self.put(b" ");
        self.put_place(pos);
        self.put(b"\n");
    }
}
