//! A text as tokens and comments, with the blanks in front of each.

use m2_tree::{Lexeme, Symbol, Token};
use std::alloc::{AllocError, Global};
use text_tokens::{comment_length, part, rest, symbol_of, token_length};

/// What stands in front of a comment.
const COMMENT: &[u8] = b"(*";

/// What a piece is.
#[derive(Clone, Copy, PartialEq, Eq)]
pub enum Kind {
    /// A name, a number or a string.
    Operand,
    /// A reserved word or a sign.
    Symbol(Symbol),
    /// A comment, and the symbol of the token behind it, if it is one.
    Comment(Option<Symbol>),
}

/// A token or a comment, as it is written.
#[derive(Clone, Copy)]
pub struct Piece<'a> {
    pub bytes: &'a [u8],
    pub kind: Kind,
    /// How many lines end between the piece before and this one.
    pub breaks: usize,
    /// How many blanks stand in front of it in its line.
    pub blanks: usize,
}

impl Piece<'_> {
    /// The symbol that it is.
    pub fn symbol(&self) -> Option<Symbol> {
        match self.kind {
            Kind::Symbol(symbol) => Some(symbol),
            _ => None,
        }
    }

    pub fn is_comment(&self) -> bool {
        matches!(self.kind, Kind::Comment(_))
    }
}

/// What stands between two pieces: where it ends, the lines that end in it, and the blanks behind the last of these.
#[derive(Clone, Copy)]
struct Gap {
    end: usize,
    breaks: usize,
    blanks: usize,
}

/// The blanks from this place on.
fn gap_at(text: &[u8], from: usize) -> Gap {
    let mut gap = Gap {
        end: from,
        breaks: 0,
        blanks: 0,
    };
    for byte in rest(text, from) {
        if !byte.is_ascii_whitespace() {
            break;
        }
        gap.end = gap.end.saturating_add(1);
        gap.blanks = gap.blanks.saturating_add(1);
        if *byte == b'\n' {
            gap.breaks = gap.breaks.saturating_add(1);
            gap.blanks = 0;
        }
    }
    gap
}

/// Puts the comments from this place on, up to the next token, whose symbol this is. What stands in front of the token.
fn put_comments<'a>(
    text: &'a [u8],
    from: usize,
    next: Option<Symbol>,
    pieces: &mut Vec<Piece<'a>>,
) -> Result<Gap, AllocError> {
    let mut gap = gap_at(text, from);
    for _ in from..text.len() {
        if !rest(text, gap.end).starts_with(COMMENT) {
            break;
        }
        let end = gap.end.saturating_add(comment_length(rest(text, gap.end)));
        pieces.push(Piece {
            bytes: part(text, gap.end, end),
            kind: Kind::Comment(next),
            breaks: gap.breaks,
            blanks: gap.blanks,
        })?;
        gap = gap_at(text, end);
    }
    Ok(gap)
}

/// The tokens and comments of a text, from its tokens.
pub fn pieces_of<'a>(
    alloc: Global,
    text: &'a [u8],
    tokens: &[Token],
) -> Result<Vec<Piece<'a>>, AllocError> {
    let mut pieces = Vec::new(alloc);
    let mut at = 0usize;
    for token in tokens {
        let symbol = symbol_of(token);
        let gap = put_comments(text, at, symbol, &mut pieces)?;
        if matches!(token.lexeme, Lexeme::End) {
            break;
        }
        at = gap.end.saturating_add(token_length(rest(text, gap.end)));
        pieces.push(Piece {
            bytes: part(text, gap.end, at),
            kind: symbol.map_or(Kind::Operand, Kind::Symbol),
            breaks: gap.breaks,
            blanks: gap.blanks,
        })?;
    }
    Ok(pieces)
}
