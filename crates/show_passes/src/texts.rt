//! What the first passes make of one text, or where they refuse it.

use crate::tree::show_tree;
use m2_parse::{ParseError, parse};
use m2_tree::{Module, Pos, Token};
use scan_tokens::{ScanError, scan};
use show_tokens::show_tokens;
use std::alloc::{AllocError, Global};

/// What comes of a text: what a pass makes of it, or the rule that it breaks and where.
#[derive(Drop)]
pub enum Shown<T> {
    /// What the pass makes of it.
    Made(T),
    /// The place of what is refused, and the number of the rule.
    Refused(Pos, u32),
}

/// The tokens of a text.
pub fn tokens_of(alloc: Global, text: &[u8]) -> Result<Shown<Vec<Token>>, AllocError> {
    match scan(alloc, text) {
        Ok(tokens) => Ok(Shown::Made(tokens)),
        Err(ScanError::Refused(refusal)) => {
            Ok(Shown::Refused(refusal.pos, refusal.broken.number()))
        }
        Err(ScanError::NoMemory) => Err(AllocError),
    }
}

/// The tree of tokens.
fn tree_of_tokens(alloc: Global, tokens: &[Token]) -> Result<Shown<Module>, AllocError> {
    match parse(alloc, tokens) {
        Ok(tree) => Ok(Shown::Made(tree)),
        Err(ParseError::Refused(refusal)) => Ok(Shown::Refused(refusal.pos, refusal.number)),
        Err(ParseError::NoMemory) => Err(AllocError),
    }
}

/// The tree of a text.
pub fn tree_of(alloc: Global, text: &[u8]) -> Result<Shown<Module>, AllocError> {
    match tokens_of(alloc, text)? {
        Shown::Made(tokens) => tree_of_tokens(alloc, &tokens),
        Shown::Refused(pos, number) => Ok(Shown::Refused(pos, number)),
    }
}

/// The tokens of a text, each in a line: see `show_tokens`. The only error is that memory ran out.
pub fn show_text_tokens(alloc: Global, text: &[u8]) -> Result<Shown<Vec<u8>>, AllocError> {
    match tokens_of(alloc, text)? {
        Shown::Made(tokens) => Ok(Shown::Made(show_tokens(alloc, &tokens)?)),
        Shown::Refused(pos, number) => Ok(Shown::Refused(pos, number)),
    }
}

/// The tree of a text, each of its parts in a row: see `show_tree`. The only error is that memory ran out.
pub fn show_text_tree(alloc: Global, text: &[u8]) -> Result<Shown<Vec<u8>>, AllocError> {
    match tree_of(alloc, text)? {
        Shown::Made(tree) => Ok(Shown::Made(show_tree(alloc, &tree)?)),
        Shown::Refused(pos, number) => Ok(Shown::Refused(pos, number)),
    }
}
