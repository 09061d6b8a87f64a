//! Mends where a text breaks a rule of tokens.

use crate::list::{Mends, words_of};
use m2_tree::Pos;
use refused_text::word_width;
use std::alloc::AllocError;
use text_tokens::{offset_of, part, rest};

/// The rule of a byte that begins nothing.
const BYTE: u32 = 2;

/// The rule of a comment that is not closed.
const COMMENT: u32 = 3;

/// The rule of a string that is not closed.
const STRING: u32 = 4;

/// The rule of what is no number.
const NUMBER: u32 = 5;

/// The most lines at whose ends a comment may end.
const MOST_LINES: usize = 12;

/// What is written elsewhere for a sign, and what here.
struct Spelled {
    there: &'static [u8],
    here: &'static [u8],
}

/// Signs that begin with a byte that no token has.
const SIGNS: [Spelled; 11] = [
    Spelled {
        there: b"!=",
        here: b"#",
    },
    Spelled {
        there: b"!",
        here: b"NOT ",
    },
    Spelled {
        there: b"%",
        here: b" MOD ",
    },
    Spelled {
        there: b"\\",
        here: b" DIV ",
    },
    Spelled {
        there: b"\xef\xbb\xbf",
        here: b"",
    },
    Spelled {
        there: b"\xe2\x80\x9c",
        here: b"\"",
    },
    Spelled {
        there: b"\xe2\x80\x9d",
        here: b"\"",
    },
    Spelled {
        there: b"\xe2\x80\x98",
        here: b"'",
    },
    Spelled {
        there: b"\xe2\x80\x99",
        here: b"'",
    },
    Spelled {
        there: b"\xe2\x80\x93",
        here: b"-",
    },
    Spelled {
        there: b"\xc2\xa0",
        here: b" ",
    },
];

/// Endings of a line in front of which a string may end.
const BEHIND_STRINGS: [&[u8]; 12] = [
    b");", b")", b";", b" THEN", b" DO", b" OF", b", 1)", b",", b" END", b"]", b" AND", b" ELSE",
];

/// What is said of a sign that no text may have.
fn sign_words(mends: &Mends<'_>, sign: &Spelled) -> Result<String, AllocError> {
    if sign.here.is_empty() {
        return String::from_str(
            mends.alloc,
            "the text begins with a byte order mark: save the file without it",
        );
    }
    let there = words_of(mends.alloc, sign.there)?;
    let here = words_of(mends.alloc, sign.here)?;
    format!(in mends.alloc; "write `{}` in place of `{there}`", here.trim())
}

/// Writes a sign that no text may have.
fn propose_sign(mends: &mut Mends<'_>, begin: usize) -> Result<(), AllocError> {
    for sign in &SIGNS {
        if rest(mends.source.bytes, begin).starts_with(sign.there) {
            let words = sign_words(mends, sign)?;
            let end = begin.saturating_add(sign.there.len());
            mends.put(begin, end, sign.here, words)?;
        }
    }
    let end = begin.saturating_add(1);
    mends.put_known(begin, end, b"", "take this character out")
}

/// Whether a byte belongs to a name elsewhere.
fn is_of_name(byte: u8) -> bool {
    byte.is_ascii_alphanumeric() || byte == b'_'
}

/// Takes each `_` of names out, from a place on, and writes the letter behind it as a capital one.
fn propose_names(mends: &mut Mends<'_>, begin: usize) -> Result<(), AllocError> {
    let mut text = Vec::new(mends.alloc);
    let mut is_behind = false;
    let mut is_name = true;
    let mut quote = 0u8;
    for byte in rest(mends.source.bytes, begin) {
        if quote != 0 {
            quote = if *byte == quote || *byte == b'\n' {
                0
            } else {
                quote
            };
            text.push(*byte)?;
        } else if *byte == b'_' && is_name {
            is_behind = true;
        } else {
            text.push(if is_behind {
                byte.to_ascii_uppercase()
            } else {
                *byte
            })?;
            is_behind = false;
            is_name = is_of_name(*byte);
            quote = if *byte == b'"' || *byte == b'\'' {
                *byte
            } else {
                0
            };
        }
    }
    let words = "names have letters and digits alone: write them without `_`";
    mends.put_known(begin, mends.source.bytes.len(), &text, words)
}

/// Ends a comment at the end of a line.
fn propose_comment_end(mends: &mut Mends<'_>, begin: usize) -> Result<(), AllocError> {
    let mut count: usize = 0;
    for (at, byte) in mends.source.bytes.iter().enumerate() {
        if *byte == b'\n' && at >= begin && count < MOST_LINES {
            count = count.saturating_add(1);
            mends.put_known(at, at, b" *)", "a comment is not closed: end it with `*)`")?;
        }
    }
    let end = begin.saturating_add(2);
    let words = "`(*` begins a comment: put a blank between `(` and `*`";
    mends.put_known(begin, end, b"( *", words)
}

/// The bytes up to the end of the line.
fn line_behind(text: &[u8], begin: usize) -> usize {
    rest(text, begin)
        .iter()
        .take_while(|byte| **byte != b'\n' && **byte != b'\r')
        .count()
}

/// Ends a string at a place.
fn put_quote(mends: &mut Mends<'_>, place: usize, quote: &[u8]) -> Result<(), AllocError> {
    let words = "a string is not closed: each begins and ends with a quote";
    mends.put_known(place, place, quote, words)
}

/// Ends a string in front of what its line ends with.
fn propose_quote_before(
    mends: &mut Mends<'_>,
    begin: usize,
    line: &[u8],
    quote: &[u8],
) -> Result<(), AllocError> {
    for ending in &BEHIND_STRINGS {
        if let Some(back) = find_last(line, ending) {
            put_quote(mends, begin.saturating_add(back), quote)?;
        }
    }
    Ok(())
}

/// Ends a string in front of a byte that may follow on one, or behind it.
fn propose_quote_at(
    mends: &mut Mends<'_>,
    place: usize,
    byte: u8,
    quote: &[u8],
) -> Result<(), AllocError> {
    if matches!(byte, b',' | b')' | b']' | b':' | b';' | b'(' | b' ' | b'=') {
        put_quote(mends, place, quote)?;
    }
    if matches!(byte, b' ' | b'(') {
        put_quote(mends, place.saturating_add(1), quote)?;
    }
    Ok(())
}

/// Ends a string in front of what its line ends with, at its end, or in front of what may follow on one, anywhere in the line.
fn propose_quote(mends: &mut Mends<'_>, begin: usize) -> Result<(), AllocError> {
    let bytes = mends.source.bytes;
    let end = begin.saturating_add(line_behind(bytes, begin));
    let line = part(bytes, begin, end);
    let quote = part(line, 0, 1);
    propose_quote_before(mends, begin, line, quote)?;
    put_quote(mends, end, quote)?;
    let first = begin.saturating_sub(begin_width(bytes, begin));
    for (at, byte) in part(bytes, first, end).iter().enumerate() {
        propose_quote_at(mends, first.saturating_add(at), *byte, quote)?;
    }
    Ok(())
}

/// The quote that a string with this one inside is written with.
fn other_quote(quote: u8) -> u8 {
    if quote == b'"' { b'\'' } else { b'"' }
}

/// Writes the other quote around what stands between two places with quotes.
fn put_other_quote(
    mends: &mut Mends<'_>,
    first: usize,
    last: usize,
    quote: u8,
) -> Result<(), AllocError> {
    let other = other_quote(quote);
    let mut text = Vec::new(mends.alloc);
    text.push(other)?;
    text.extend_from_slice(part(mends.source.bytes, first.saturating_add(1), last))?;
    text.push(other)?;
    let words =
        "a string is not closed: with its own quote inside it stands between quotes of the other kind";
    mends.put_known(first, last.saturating_add(1), &text, words)
}

/// Writes the other quote around a string that has its own inside, of which the last is the refused one.
fn propose_other_quote(mends: &mut Mends<'_>, last: usize) -> Result<(), AllocError> {
    let bytes = mends.source.bytes;
    let first = last.saturating_sub(begin_width(bytes, last));
    let quote = match rest(bytes, last) {
        [quote, ..] => *quote,
        [] => return Ok(()),
    };
    for (at, byte) in part(bytes, first, last).iter().enumerate() {
        if *byte == quote {
            put_other_quote(mends, first.saturating_add(at), last, quote)?;
        }
    }
    Ok(())
}

/// The bytes between the begin of a line and a place in it.
fn begin_width(text: &[u8], place: usize) -> usize {
    part(text, 0, place)
        .iter()
        .rev()
        .take_while(|byte| **byte != b'\n')
        .count()
}

/// Where a text stands last in a line.
fn find_last(line: &[u8], text: &[u8]) -> Option<usize> {
    let mut found = None;
    for at in 1..line.len() {
        if rest(line, at).starts_with(text) {
            found = Some(at);
        }
    }
    found
}

/// Writes digits behind `0x` as a hexadecimal number of the language.
fn put_hexadecimal(
    mends: &mut Mends<'_>,
    begin: usize,
    end: usize,
    digits: &[u8],
) -> Result<(), AllocError> {
    let digits = words_of(mends.alloc, digits)?.to_ascii_uppercase(mends.alloc)?;
    let text = format!(in mends.alloc; "0{digits}H")?;
    let words = format!(in mends.alloc; "a hexadecimal number ends with H: write `{text}`")?;
    mends.put(begin, end, text.as_bytes(), words)
}

/// Writes digits as a number of the language.
fn propose_number(mends: &mut Mends<'_>, begin: usize) -> Result<(), AllocError> {
    let bytes = mends.source.bytes;
    let width = word_width(rest(bytes, begin));
    let end = begin.saturating_add(width);
    let number = part(bytes, begin, end);
    if let [b'0', b'x' | b'X', digits @ ..] = number {
        put_hexadecimal(mends, begin, end, digits)?;
    }
    let digits = number.iter().take_while(|it| it.is_ascii_digit()).count();
    let place = begin.saturating_add(digits);
    mends.put_known(place, place, b" ", "put a blank behind the number")?;
    mends.put_known(end, end, b"H", "a hexadecimal number ends with H")
}

/// Mends where a rule of tokens is broken at a place.
pub fn propose_bytes(mends: &mut Mends<'_>, rule: u32, pos: Pos) -> Result<(), AllocError> {
    let begin = offset_of(mends.source.bytes, pos);
    match rule {
        BYTE => {
            if rest(mends.source.bytes, begin).starts_with(b"_") {
                return propose_names(mends, begin);
            }
            propose_sign(mends, begin)
        }
        COMMENT => propose_comment_end(mends, begin),
        STRING => {
            propose_quote(mends, begin)?;
            propose_other_quote(mends, begin)
        }
        NUMBER => propose_number(mends, begin),
        _ => Ok(()),
    }
}
