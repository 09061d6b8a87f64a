//! The words of a declaration.

use crate::index::Index;
use serve_scopes::{Declaration, Kind};
use serve_words::{comment_above, comment_behind, tidy};
use std::alloc::{AllocError, Global};
use text_tokens::{offset_of, part};

/// How many lines below a declaration its comment may begin.
const NEXT_LINE: usize = 1;

/// The word in front of a name.
fn word_before(declaration: &Declaration) -> &'static str {
    match declaration.kind {
        Kind::Module => "MODULE ",
        Kind::Constant => "CONST ",
        Kind::Type => "TYPE ",
        Kind::Variable => "VAR ",
        Kind::Procedure => "PROCEDURE ",
        Kind::Formal => { if declaration.is_var { "VAR " } else { "" } }
        Kind::Field | Kind::EnumerationConstant => "",
    }
}

/// Whether a blank stands between a name and what follows it.
fn has_blank(tail: &[u8]) -> bool {
    tail.first().is_some_and(|byte| *byte == b'=')
}

/// The words of a declaration, by the text of the file in which it is declared: `VAR b: INTEGER`, `PROCEDURE P(x: INTEGER): CHAR`,
/// `TYPE T = CHAR`, `CONST n = 10`, `MODULE M`. Comments are left out. The only error is that memory ran out.
pub fn words_of(
    alloc: Global,
    text: &[u8],
    declaration: &Declaration,
) -> Result<Vec<u8>, AllocError> {
    let begin = offset_of(text, declaration.tail.begin);
    let end = offset_of(text, declaration.tail.end);
    let tail = tidy(alloc, part(text, begin, end))?;
    let mut words = Vec::from_slice(alloc, word_before(declaration).as_bytes())?;
    words.extend_from_slice(&declaration.name)?;
    if has_blank(&tail) {
        words.push(b' ')?;
    }
    words.extend_from_slice(&tail)?;
    Ok(words)
}

/// How many lines below a declaration its comment may begin. That of a part of a declaration stands beside it.
fn lines_below(kind: Kind) -> usize {
    match kind {
        Kind::Module | Kind::Constant | Kind::Type | Kind::Variable | Kind::Procedure => NEXT_LINE,
        Kind::Formal | Kind::Field | Kind::EnumerationConstant => 0,
    }
}

/// The comment of a declaration without its brackets, by the text of the file in which it is declared: that behind it, or else that
/// above it, up to an empty line.
pub fn comment_of<'a>(text: &'a [u8], declaration: &Declaration) -> Option<&'a [u8]> {
    let end = offset_of(text, declaration.tail.end);
    match comment_behind(text, end, lines_below(declaration.kind)) {
        Some(comment) => Some(comment),
        None => comment_above(text, offset_of(text, declaration.range.begin)),
    }
}

/// The formals of a procedure, each as it would be written alone, by the text of the file in which the procedure is declared:
/// `x: INTEGER`, `VAR y: CHAR`. The only error is that memory ran out.
pub fn formals_of(
    alloc: Global,
    text: &[u8],
    index: &Index,
    procedure: usize,
) -> Result<Vec<Vec<u8>>, AllocError> {
    let mut all = Vec::new(alloc);
    let file = index.declaration(procedure).map(|it| it.place.file);
    for number in &index.children_of(alloc, procedure)? {
        if let Some(it) = index.declaration(*number) {
            if it.kind == Kind::Formal && file == Some(it.place.file) {
                all.push(words_of(alloc, text, it)?)?;
            }
        }
    }
    Ok(all)
}
