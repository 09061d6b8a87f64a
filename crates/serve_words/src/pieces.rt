//! Pieces of a text as they are shown.

use std::alloc::{AllocError, Global};

/// A walk through the bytes of a piece.
#[derive(Clone, Copy)]
struct Walk {
    /// How many comments are open.
    depth: usize,
    /// The quote that is open, if one is.
    quote: Option<u8>,
    /// The byte before, unless it is a part of a sign that is passed.
    before: u8,
}

/// What a byte of a piece is.
#[derive(Clone, Copy, PartialEq, Eq)]
enum Part {
    /// It is shown.
    Shown,
    /// A space.
    Space,
    /// A part of a comment. The bracket that opens one takes the byte before with it.
    Opening,
    Inside,
}

/// Whether a byte is a space of the language.
fn is_space(byte: u8) -> bool {
    matches!(byte, b' ' | b'\t' | b'\n' | b'\r')
}

impl Walk {
    /// Passes a byte in a string.
    fn pass_quoted(&mut self, byte: u8, quote: u8) -> Part {
        if byte == quote {
            self.quote = None;
        }
        self.before = b' ';
        Part::Shown
    }

    /// Passes a byte outside of strings.
    fn pass_plain(&mut self, byte: u8) -> Part {
        let pair = (self.before, byte);
        self.before = byte;
        if pair == (b'(', b'*') {
            self.depth = self.depth.saturating_add(1);
            self.before = b' ';
            return Part::Opening;
        }
        if self.depth > 0 {
            if pair == (b'*', b')') {
                self.depth = self.depth.saturating_sub(1);
                self.before = b' ';
            }
            return Part::Inside;
        }
        if byte == b'"' || byte == b'\'' {
            self.quote = Some(byte);
        }
        if is_space(byte) {
            Part::Space
        } else {
            Part::Shown
        }
    }

    /// Passes a byte.
    fn pass(&mut self, byte: u8) -> Part {
        match self.quote {
            Some(quote) => self.pass_quoted(byte, quote),
            None => self.pass_plain(byte),
        }
    }
}

/// Adds a byte that is shown, behind a blank if a space stood before it.
fn put(shown: &mut Vec<u8>, byte: u8, is_apart: bool) -> Result<(), AllocError> {
    if is_apart && !shown.is_empty() {
        shown.push(b' ')?;
    }
    shown.push(byte)?;
    Ok(())
}

/// Takes back the bracket of a comment, with the blank in front of it.
fn take_bracket(shown: &mut Vec<u8>) {
    let _ = shown.pop();
    if shown.last().is_some_and(|byte| *byte == b' ') {
        let _ = shown.pop();
    }
}

/// A piece of a text without its comments, with one blank for the spaces between two tokens, and none around it. Strings stay as
/// they are. The only error is that memory ran out.
pub fn tidy(alloc: Global, piece: &[u8]) -> Result<Vec<u8>, AllocError> {
    let mut walk = Walk {
        depth: 0,
        quote: None,
        before: b' ',
    };
    let mut shown = Vec::new(alloc);
    let mut is_apart = false;
    for byte in piece {
        let is_outside = walk.depth == 0;
        match walk.pass(*byte) {
            Part::Shown => {
                put(&mut shown, *byte, is_apart)?;
                is_apart = false;
            }
            Part::Opening => {
                if is_outside {
                    take_bracket(&mut shown);
                }
                is_apart = true;
            }
            Part::Space | Part::Inside => is_apart = true,
        }
    }
    Ok(shown)
}
