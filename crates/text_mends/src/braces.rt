//! What people write who come from C or from Pascal, in more than one word.

use crate::list::{Mends, words_of};
use m2_tree::Symbol;
use std::alloc::AllocError;
use text_tokens::{part, rest};

/// The word of Pascal for a FOR that counts down.
const DOWN: &[u8] = b"DOWNTO";

/// Writes a comment of C, or one up to the end of the line, as one of the language.
pub fn propose_comment(mends: &mut Mends<'_>, at: usize) -> Result<(), AllocError> {
    for number in at.saturating_sub(1)..=at {
        let begin = mends.source.begin(number);
        let behind = rest(mends.source.bytes, begin);
        match behind {
            [b'/', b'/', ..] | [b'-', b'-', ..] => {
                put_comment(mends, begin, line_width(behind), 2, 0)?;
            }
            [b'/', b'*', ..] => put_comment(mends, begin, c_width(behind), 2, 2)?,
            [b'{', ..] => {
                mends.is_bold = true;
                put_comment(mends, begin, brace_width(behind), 1, 1)?;
                mends.is_bold = false;
            }
            _ => {}
        }
    }
    Ok(())
}

/// The bytes up to the end of the line.
fn line_width(text: &[u8]) -> usize {
    text.iter()
        .take_while(|byte| **byte != b'\n' && **byte != b'\r')
        .count()
}

/// The bytes up to and with `}`.
fn brace_width(text: &[u8]) -> usize {
    let inside = text.iter().take_while(|byte| **byte != b'}').count();
    inside.saturating_add(1).min(text.len())
}

/// The bytes up to and with `*/`.
fn c_width(text: &[u8]) -> usize {
    let behind = rest(text, 1);
    let inside = text
        .iter()
        .zip(behind.iter())
        .take_while(|it| !(*it.0 == b'*' && *it.1 == b'/'))
        .count();
    inside.saturating_add(2).min(text.len())
}

/// Writes so many bytes as a comment, without so many at both sides.
fn put_comment(
    mends: &mut Mends<'_>,
    begin: usize,
    width: usize,
    front: usize,
    back: usize,
) -> Result<(), AllocError> {
    let end = begin.saturating_add(width);
    let inside = part(
        mends.source.bytes,
        begin.saturating_add(front),
        end.saturating_sub(back),
    );
    let mut text = Vec::new(mends.alloc);
    text.extend_from_slice(b"(*")?;
    text.extend_from_slice(inside)?;
    text.extend_from_slice(b"*)")?;
    mends.put_known(begin, end, &text, "a comment stands between `(*` and `*)`")
}

/// Writes a block in braces with a word and END.
fn put_block(
    mends: &mut Mends<'_>,
    open: usize,
    close: usize,
    word: &str,
) -> Result<(), AllocError> {
    let between = part(
        mends.source.bytes,
        mends.source.end(open),
        mends.source.begin(close),
    );
    let inside = words_of(mends.alloc, between)?;
    let text = format!(in mends.alloc; "{word}{inside}END")?;
    let words = format!(in mends.alloc; "braces are for sets: write `{word} .. END`")?;
    mends.replace_all(open, close, text.as_bytes(), words)
}

/// Writes a block in braces with each of the words that begin one, and its first brace as such a word.
fn put_blocks(mends: &mut Mends<'_>, open: usize) -> Result<(), AllocError> {
    let close = mends.next_of(open, Symbol::RightBrace, Symbol::RightBrace);
    for word in &["THEN", "DO", "BEGIN"] {
        put_block(mends, open, close, word)?;
    }
    mends.replace_each(open, &["THEN", "DO"])
}

/// Writes a block in braces, or one of them, with the words of the language.
pub fn propose_blocks(mends: &mut Mends<'_>, at: usize) -> Result<(), AllocError> {
    for open in at.saturating_sub(1)..=at {
        if mends.source.is(open, Symbol::LeftBrace) {
            put_blocks(mends, open)?;
        }
    }
    if mends.source.is(at, Symbol::RightBrace) {
        mends.replace_each(at, &["END", "END;"])?;
    }
    Ok(())
}

/// Writes `TO 1 BY -1` for `DOWNTO 1`, and TO for `..` or `:` in a FOR.
pub fn propose_steps(mends: &mut Mends<'_>, at: usize) -> Result<(), AllocError> {
    if !mends.source.spelling(at).eq_ignore_ascii_case(DOWN) {
        return Ok(());
    }
    let end = mends
        .next_of(at, Symbol::Do, Symbol::Semicolon)
        .saturating_sub(1);
    let limit = words_of(mends.alloc, mends.source.between(at.saturating_add(1), end))?;
    let text = format!(in mends.alloc; "TO {limit} BY -1")?;
    mends.write(at, end, text.as_str(), "a FOR counts down with BY")
}
