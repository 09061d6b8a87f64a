//! What modules export.

use crate::source::Source;
use m2_tree::{Pos, Symbol};
use std::alloc::{AllocError, Global};

/// A name that a module exports.
#[derive(Drop)]
pub struct Export {
    pub module: Vec<u8>,
    pub name: Vec<u8>,
    /// Whether the program has this module already.
    pub is_given: bool,
}

/// Whether a name that stands between these is declared.
fn is_declared(source: &Source<'_>, at: usize, depth: usize) -> bool {
    if source.is(at.saturating_sub(1), Symbol::Procedure) {
        return true;
    }
    let behind = source.symbol(at.saturating_add(1));
    depth == 0 && matches!(behind, Some(Symbol::Equal | Symbol::Colon | Symbol::Comma))
}

/// How deep a token stands in brackets and records, if the one before stands so deep.
fn depth_at(source: &Source<'_>, at: usize, depth: usize) -> usize {
    match source.symbol(at) {
        Some(Symbol::LeftParen | Symbol::Record) => depth.saturating_add(1),
        Some(Symbol::RightParen | Symbol::End) => depth.saturating_sub(1),
        _ => depth,
    }
}

/// What the definition of this text exports, as its tokens show. Nothing if it is no definition.
pub fn exports_of(
    alloc: Global,
    text: &[u8],
    is_given: bool,
    all: &mut Vec<Export>,
) -> Result<(), AllocError> {
    let source = Source::of(alloc, text, Pos { line: 1, col: 1 })?;
    if !source.is(0, Symbol::Definition) {
        return Ok(());
    }
    let mut depth = 0;
    for at in 3..source.tokens.len() {
        depth = depth_at(&source, at, depth);
        if source.is_name(at) && is_declared(&source, at, depth) {
            all.push(Export {
                module: Vec::from_slice(alloc, source.spelling(2))?,
                name: Vec::from_slice(alloc, source.spelling(at))?,
                is_given,
            })?;
        }
    }
    Ok(())
}
