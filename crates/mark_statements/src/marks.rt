//! Texts in which each statement is marked.

use crate::statements::{Mark, MarkKind, Statement, statements_of};
use std::alloc::{AllocError, Global};
use text_tokens::part;

/// A statement that does nothing. Its code is told in `merge`.
const MARK: &[u8] = b"IF 1 = 2 THEN IF 2 = 1 THEN END END; ";

/// The same behind another statement.
const MARK_BEHIND: &[u8] = b"; IF 1 = 2 THEN IF 2 = 1 THEN END END ";

/// What is put into a text for a mark of this kind.
fn words_of(kind: MarkKind) -> &'static [u8] {
    match kind {
        MarkKind::Statement => MARK,
        MarkKind::Turn | MarkKind::Until => MARK_BEHIND,
        MarkKind::Condition => b"",
    }
}

/// A text with a mark in front of each of these statements.
fn with_marks(alloc: Global, text: &[u8], statements: &[Statement]) -> Result<Vec<u8>, AllocError> {
    let mut marked = Vec::new(alloc);
    let mut done = 0;
    for statement in statements {
        marked.extend_from_slice(part(text, done, statement.offset))?;
        marked.extend_from_slice(MARK)?;
        done = statement.offset;
    }
    marked.extend_from_slice(part(text, done, text.len()))?;
    Ok(marked)
}

/// A text with a mark in front of each of its statements. The only error is that memory ran out.
pub fn marked_text(alloc: Global, text: &[u8]) -> Result<Vec<u8>, AllocError> {
    let statements = statements_of(alloc, text)?;
    with_marks(alloc, text, &statements.all)
}

/// A text with these marks.
fn with_all(alloc: Global, text: &[u8], marks: &[Mark]) -> Result<Vec<u8>, AllocError> {
    let mut marked = Vec::new(alloc);
    let mut done = 0;
    for mark in marks {
        marked.extend_from_slice(part(text, done, mark.offset))?;
        marked.extend_from_slice(words_of(mark.kind))?;
        done = mark.offset;
    }
    marked.extend_from_slice(part(text, done, text.len()))?;
    Ok(marked)
}

/// A text with a mark in front of each of its statements, and behind the statements of each loop. The only error is that
/// memory ran out.
pub fn fully_marked_text(alloc: Global, text: &[u8]) -> Result<Vec<u8>, AllocError> {
    let statements = statements_of(alloc, text)?;
    with_all(alloc, text, &statements.marks)
}
