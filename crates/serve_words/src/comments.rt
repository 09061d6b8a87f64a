//! The comments that belong to a piece of a text.

use text_tokens::{comment_length, part, rest};

/// The end of a line.
const LINE_FEED: u8 = b'\n';

/// How many bytes open a comment, and how many close it.
const BRACKET: usize = 2;

/// How many ends of lines stand in an empty line.
const EMPTY_LINE: usize = 2;

/// The words that may stand between a declaration and its comment.
const SECTIONS: [&str; 3] = ["CONST", "TYPE", "VAR"];

/// What a comment says, without its brackets.
fn inside(comment: &[u8]) -> &[u8] {
    part(comment, BRACKET, comment.len().saturating_sub(BRACKET)).trim_ascii()
}

/// How long the comment is that ends here, read from its end.
fn length_before(text: &[u8]) -> usize {
    let mut depth = 0usize;
    let mut behind = b' ';
    let mut length = 0usize;
    for byte in text.iter().rev() {
        let pair = (*byte, behind);
        behind = *byte;
        length = length.saturating_add(1);
        if pair == (b'*', b')') {
            depth = depth.saturating_add(1);
            behind = b' ';
        } else if pair == (b'(', b'*') {
            depth = depth.saturating_sub(1);
            behind = b' ';
            if depth == 0 {
                return length;
            }
        }
    }
    length
}

/// How many lines end in these bytes.
fn line_ends(bytes: &[u8]) -> usize {
    bytes.iter().filter(|byte| **byte == LINE_FEED).count()
}

/// Whether a byte may stand between a declaration and the comment beside it.
fn is_between(byte: u8) -> bool {
    matches!(byte, b',' | b';' | b')' | b' ' | b'\t')
}

/// The comment that stands behind a declaration, if one does. The place is that of the semicolon, in bytes from 0. The comment
/// begins in the same line, or so many lines below.
pub fn comment_behind(text: &[u8], semicolon: usize, lines: usize) -> Option<&[u8]> {
    let behind = rest(text, semicolon);
    let signs = behind.iter().take_while(|byte| is_between(**byte)).count();
    let blank = rest(behind, signs);
    let comment = blank.trim_ascii_start();
    let blanks = part(blank, 0, blank.len().saturating_sub(comment.len()));
    if line_ends(blanks) > lines || !comment.starts_with(b"(*") {
        return None;
    }
    Some(inside(part(comment, 0, comment_length(comment))))
}

/// The bytes in front without the word CONST, TYPE or VAR at their end.
fn without_section(front: &[u8]) -> &[u8] {
    for word in SECTIONS {
        if front.ends_with(word.as_bytes()) {
            let kept = front.len().saturating_sub(word.len());
            return part(front, 0, kept);
        }
    }
    front
}

/// Whether fewer lines end between these bytes and those of which they are the front than an empty line has.
fn is_near(front: &[u8], whole: &[u8]) -> bool {
    line_ends(rest(whole, front.len())) < EMPTY_LINE
}

/// Whether a comment behind these bytes belongs to no declaration in front: an empty line, a section or nothing stands there.
fn begins_part(front: &[u8]) -> bool {
    let shown = front.trim_ascii_end();
    let is_first = shown.is_empty() || without_section(shown).len() < shown.len();
    is_first || line_ends(rest(front, shown.len())) >= EMPTY_LINE
}

/// The comment that stands directly above a declaration, with an empty line in front of it and none behind. CONST, TYPE or VAR may
/// stand between. The place is that of the declaration, in bytes from 0.
pub fn comment_above(text: &[u8], begin: usize) -> Option<&[u8]> {
    let whole = part(text, 0, begin);
    let near = whole.trim_ascii_end();
    let above = without_section(near);
    let front = above.trim_ascii_end();
    if !front.ends_with(b"*)") || !is_near(near, whole) || !is_near(front, above) {
        return None;
    }
    let opening = front.len().saturating_sub(length_before(front));
    if begins_part(part(front, 0, opening)) {
        Some(inside(rest(front, opening)))
    } else {
        None
    }
}
