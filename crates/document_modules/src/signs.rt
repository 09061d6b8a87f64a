//! Bytes as they are written in Markdown and in HTML.

use std::alloc::AllocError;

/// The end of a line.
const LINE_FEED: u8 = b'\n';

/// What stands around code.
pub const BACKQUOTE: u8 = b'`';

/// A byte as it is shown: a blank for one that has no picture.
fn shown(byte: u8) -> u8 {
    match byte {
        LINE_FEED => byte,
        0..=31 | 127 => b' ',
        _ => byte,
    }
}

/// Whether Markdown would read more than itself from a sign.
fn is_mark(byte: u8) -> bool {
    matches!(
        byte,
        b'\\' | b'`' | b'*' | b'_' | b'<' | b'&' | b'[' | b']' | b'~' | b'$'
    )
}

/// Whether Markdown would read more than itself from a sign at the begin of a paragraph, or behind digits there.
fn is_first_mark(byte: u8) -> bool {
    matches!(byte, b'#' | b'>' | b'+' | b'-' | b'=' | b'.' | b')' | b'|')
}

/// Writes words, of which Markdown reads just these words.
pub fn put_markdown(out: &mut Vec<u8>, words: &[u8], is_first: bool) -> Result<(), AllocError> {
    let mut is_front = is_first;
    for byte in words {
        if is_mark(*byte) || (is_front && is_first_mark(*byte)) {
            out.push(b'\\')?;
        }
        out.push(shown(*byte))?;
        is_front = is_front && byte.is_ascii_digit();
    }
    Ok(())
}

/// Writes words, of which HTML reads just these words.
pub fn put_html(out: &mut Vec<u8>, words: &[u8]) -> Result<(), AllocError> {
    for byte in words {
        match *byte {
            b'&' => out.extend_from_slice(b"&amp;")?,
            b'<' => out.extend_from_slice(b"&lt;")?,
            b'>' => out.extend_from_slice(b"&gt;")?,
            b'"' => out.extend_from_slice(b"&quot;")?,
            b'\'' => out.extend_from_slice(b"&#39;")?,
            other => {
                out.push(shown(other))?;
            }
        }
    }
    Ok(())
}

/// Writes words as they are, but for bytes that have no picture.
pub fn put_bare(out: &mut Vec<u8>, words: &[u8]) -> Result<(), AllocError> {
    for byte in words {
        out.push(shown(*byte))?;
    }
    Ok(())
}

/// How many backquotes follow each other at most.
pub fn most_backquotes(words: &[u8]) -> usize {
    let mut most = 0usize;
    let mut count = 0usize;
    for byte in words {
        count = if *byte == BACKQUOTE {
            count.saturating_add(1)
        } else {
            0
        };
        most = most.max(count);
    }
    most
}
