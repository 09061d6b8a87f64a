//! A text with its tokens, and where each stands.

use m2_tree::{Pos, Symbol, Token};
use scan_tokens::{ScanError, pair_of, scan};
use std::alloc::{AllocError, Global};
use text_tokens::{offset_of, part, rest, symbol_at};

/// A text with its tokens. Of a text that does not divide into tokens it has those in front of a place.
#[derive(Drop)]
pub struct Source<'a> {
    /// The text.
    pub bytes: &'a [u8],
    /// Its tokens, with the end behind them.
    pub tokens: Vec<Token>,
    begins: Vec<usize>,
}

/// The tokens of a text, and none if it does not divide. The only error is want of memory.
pub fn tokens_of(alloc: Global, text: &[u8]) -> Result<Vec<Token>, AllocError> {
    match scan(alloc, text) {
        Ok(tokens) => Ok(tokens),
        Err(ScanError::Refused(_)) => Ok(Vec::new(alloc)),
        Err(ScanError::NoMemory) => Err(AllocError),
    }
}

/// Where each line of a text begins.
fn line_begins(alloc: Global, text: &[u8]) -> Result<Vec<usize>, AllocError> {
    let mut begins = Vec::new(alloc);
    begins.push(0)?;
    for (at, byte) in text.iter().enumerate() {
        if *byte == b'\n' {
            begins.push(at.saturating_add(1))?;
        }
    }
    Ok(begins)
}

/// Where each token begins.
fn token_begins(
    alloc: Global,
    tokens: &[Token],
    lines: &[usize],
) -> Result<Vec<usize>, AllocError> {
    let mut begins = Vec::new(alloc);
    for token in tokens {
        let line = lines.get(token.pos.line.saturating_sub(1) as usize);
        let before = token.pos.col.saturating_sub(1) as usize;
        begins.push(line.copied().unwrap_or(0).saturating_add(before))?;
    }
    Ok(begins)
}

/// How many letters and digits stand in front.
pub fn word_width(text: &[u8]) -> usize {
    text.iter()
        .take_while(|byte| byte.is_ascii_alphanumeric())
        .count()
}

/// The bytes up to and with a quote, or all if none is there.
fn quoted_width(text: &[u8], quote: u8) -> usize {
    match text.iter().position(|byte| *byte == quote) {
        Some(last) => last.saturating_add(1),
        None => text.len(),
    }
}

/// The bytes of the token that begins a text.
pub fn token_width(text: &[u8]) -> usize {
    match text {
        [] => 0,
        [quote @ (b'"' | b'\''), others @ ..] => quoted_width(others, *quote).saturating_add(1),
        [first, ..] if first.is_ascii_alphanumeric() => word_width(text),
        [first, second, ..] if pair_of(*first, *second).is_some() => 2,
        [_, ..] => 1,
    }
}

impl<'a> Source<'a> {
    /// A text with its tokens, or with those in front of this place if it does not divide.
    pub fn of(alloc: Global, bytes: &'a [u8], pos: Pos) -> Result<Source<'a>, AllocError> {
        let mut tokens = tokens_of(alloc, bytes)?;
        if tokens.is_empty() {
            tokens = tokens_of(alloc, part(bytes, 0, offset_of(bytes, pos)))?;
        }
        let lines = line_begins(alloc, bytes)?;
        let begins = token_begins(alloc, &tokens, &lines)?;
        Ok(Source {
            bytes,
            tokens,
            begins,
        })
    }

    /// The number of the token at a place.
    pub fn number_at(&self, pos: Pos) -> Option<usize> {
        self.tokens.iter().position(|it| it.pos == pos)
    }

    /// The first byte of the token of this number, or the text's end.
    pub fn begin(&self, at: usize) -> usize {
        self.begins.get(at).copied().unwrap_or(self.bytes.len())
    }

    /// The byte behind the token of this number.
    pub fn end(&self, at: usize) -> usize {
        let begin = self.begin(at);
        begin.saturating_add(token_width(rest(self.bytes, begin)))
    }

    /// The bytes from one token to behind another.
    pub fn between(&self, first: usize, last: usize) -> &'a [u8] {
        part(self.bytes, self.begin(first), self.end(last))
    }

    /// The bytes of a token.
    pub fn spelling(&self, at: usize) -> &'a [u8] {
        self.between(at, at)
    }

    /// The symbol of a token.
    pub fn symbol(&self, at: usize) -> Option<Symbol> {
        symbol_at(&self.tokens, at)
    }

    /// Whether a token is this symbol.
    pub fn is(&self, at: usize, symbol: Symbol) -> bool {
        self.symbol(at) == Some(symbol)
    }

    /// Whether a token is a name.
    pub fn is_name(&self, at: usize) -> bool {
        match self.spelling(at) {
            [first, ..] => first.is_ascii_alphabetic() && self.symbol(at).is_none(),
            [] => false,
        }
    }

    /// The line of a token, or the last one's.
    pub fn line(&self, at: usize) -> u32 {
        match self.tokens.get(at).or(self.tokens.last()) {
            Some(token) => token.pos.line,
            None => 1,
        }
    }

    /// The column of a token.
    pub fn column(&self, at: usize) -> u32 {
        match self.tokens.get(at) {
            Some(token) => token.pos.col,
            None => 1,
        }
    }

    /// Whether a token is the first of its line.
    pub fn is_first(&self, at: usize) -> bool {
        match at.checked_sub(1) {
            Some(before) => self.line(before) < self.line(at),
            None => true,
        }
    }
}
