//! A text in the making.

ghost use Rattle.std.specs.Prelude.{◌≡◌, [], IsOk, IfOk, decimal, encode_utf8, string_bytes};
ghost use Rattle.std.specs.List.{flat_map};
ghost use Rattle.write_text.specs.Texts.{Puts};

use itoa::Buffer;
use std::alloc::{AllocError, Global};

/// A text in the making.
pub struct Text {
    words: String,
    /// The first want of memory. Nothing is put behind it.
    written: Result<(), AllocError>,
}

// Written by hand, so that proofs above take a drop as one call.
impl Drop for Text {
    fn drop(self) {
        let Text { words, written: _ } = self;
        drop(words);
    }
}

impl Text {
    /// An empty text.
    pub fn new(alloc: Global) -> Text
        ensures whole { IsOk result.written }
        ensures empty { string_bytes result.words ≡ [] }
    {
        Text {
            words: String::new(alloc),
            written: Ok(()),
        }
    }

    /// The text. The only error is that memory ran out before.
    pub fn finish(self) -> Result<String, AllocError>
        ensures { IfOk result (λ text.
            IsOk self.written × (string_bytes text ≡ string_bytes self.words)) }
    {
        let Text { words, written } = self;
        written?;
        Ok(words)
    }

    /// Puts words at the end.
    pub fn put(&mut self, words: &str)
        ensures { Puts self.old self.new words.now }
    {
        if self.written.is_ok() {
            self.written = self.words.push_str(words);
        }
    }

    /// Puts a character at the end.
    pub fn put_char(&mut self, c: char)
        ensures { Puts self.old self.new (encode_utf8 c) }
    {
        if self.written.is_ok() {
            self.written = self.words.push(c);
        }
    }

    /// Puts a number at the end.
    pub fn put_number(&mut self, number: u64)
        ensures { Puts self.old self.new (decimal number) }
    {
        let mut digits = Buffer::new();
        self.put(digits.format(number));
    }

    /// Puts several words at the end, one behind another.
    pub fn put_all(&mut self, parts: &[&str])
        ensures { Puts self.old self.new (flat_map (λ p. p.now) parts.now) }
    {
        for part in parts {
            self.put(part);
        }
    }
}
