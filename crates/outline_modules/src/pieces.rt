//! A text as tokens and comments.

use m2_tree::{Lexeme, Symbol, Token};
use std::alloc::{AllocError, Global};
use text_tokens::{comment_length, part, rest, token_length};

/// What stands in front of a comment.
const COMMENT: &[u8] = b"(*";

/// The end of a line.
const LINE_FEED: u8 = b'\n';

/// How many line ends there are where an empty line stands.
const EMPTY_LINE: usize = 2;

/// What a piece is.
#[derive(Clone, Copy, PartialEq, Eq)]
pub enum What {
    Comment,
    Name,
    Symbol(Symbol),
    /// A number, a character or a string.
    Literal,
}

/// A token or a comment, by the bytes that it has.
#[derive(Clone, Copy)]
pub struct Piece {
    pub what: What,
    pub begin: usize,
    pub end: usize,
    /// How many bytes stand in front of it in its line.
    pub column: usize,
    /// Whether an empty line stands directly in front of it.
    pub is_apart: bool,
}

impl Piece {
    pub fn is_comment(&self) -> bool {
        self.what == What::Comment
    }

    /// The place of the first byte of its line.
    pub fn line(&self) -> usize {
        self.begin.saturating_sub(self.column)
    }

    pub fn is_name(&self) -> bool {
        self.what == What::Name
    }

    pub fn is_symbol(&self, symbol: Symbol) -> bool {
        self.what == What::Symbol(symbol)
    }
}

/// What a token is.
fn what_of(token: &Token) -> What {
    match &token.lexeme {
        Lexeme::Name(_) => What::Name,
        Lexeme::Symbol(symbol) => What::Symbol(*symbol),
        _ => What::Literal,
    }
}

/// How many blanks stand in front.
fn blank_length(rest: &[u8]) -> usize {
    rest.iter()
        .take_while(|byte| byte.is_ascii_whitespace())
        .count()
}

/// How many lines end in these bytes.
fn line_ends(bytes: &[u8]) -> usize {
    bytes.iter().filter(|byte| **byte == LINE_FEED).count()
}

/// A walk through a text: the place that it has come to, and where the line of this place begins.
#[derive(Clone, Copy)]
struct Walk {
    at: usize,
    line: usize,
    is_apart: bool,
}

impl Walk {
    /// The walk, so many bytes further.
    fn behind(self, text: &[u8], length: usize) -> Walk {
        let at = self.at.saturating_add(length);
        let bytes = part(text, self.at, at);
        Walk {
            at,
            line: match bytes.iter().rposition(|byte| *byte == LINE_FEED) {
                Some(last) => self.at.saturating_add(last).saturating_add(1),
                None => self.line,
            },
            is_apart: line_ends(bytes) >= EMPTY_LINE,
        }
    }

    /// The walk behind the blanks.
    fn behind_blanks(self, text: &[u8]) -> Walk {
        self.behind(text, blank_length(rest(text, self.at)))
    }

    /// The piece that begins here and ends there.
    fn piece_to(self, end: usize, what: What) -> Piece {
        Piece {
            what,
            begin: self.at,
            end,
            column: self.at.saturating_sub(self.line),
            is_apart: self.is_apart,
        }
    }
}

/// Puts the comments from this place on, up to the next token. The walk in front of the token.
fn put_comments(text: &[u8], from: Walk, pieces: &mut Vec<Piece>) -> Result<Walk, AllocError> {
    let mut walk = from.behind_blanks(text);
    for _ in from.at..text.len() {
        if !rest(text, walk.at).starts_with(COMMENT) {
            break;
        }
        let behind = walk.behind(text, comment_length(rest(text, walk.at)));
        pieces.push(walk.piece_to(behind.at, What::Comment))?;
        walk = behind.behind_blanks(text);
    }
    Ok(walk)
}

/// The tokens and comments of a text, from its tokens.
pub fn pieces_of(alloc: Global, text: &[u8], tokens: &[Token]) -> Result<Vec<Piece>, AllocError> {
    let mut pieces = Vec::new(alloc);
    let mut walk = Walk {
        at: 0,
        line: 0,
        is_apart: false,
    };
    for token in tokens {
        walk = put_comments(text, walk, &mut pieces)?;
        if token.lexeme == Lexeme::End {
            break;
        }
        let behind = walk.behind(text, token_length(rest(text, walk.at)));
        pieces.push(walk.piece_to(behind.at, what_of(token)))?;
        walk = behind;
    }
    Ok(pieces)
}
