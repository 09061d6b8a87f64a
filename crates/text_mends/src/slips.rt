//! Words and signs that people write who come from other languages, and what stands for them here.

use crate::list::Mends;
use refused_text::capitals;
use scan_tokens::word_of;
use std::alloc::AllocError;

/// What is written elsewhere, in small letters, and what is written here.
struct Slip {
    there: &'static str,
    here: &'static str,
}

/// Words of other languages.
const WORDS: [Slip; 44] = [
    Slip {
        there: "elseif",
        here: "ELSIF",
    },
    Slip {
        there: "elif",
        here: "ELSIF",
    },
    Slip {
        there: "function",
        here: "PROCEDURE",
    },
    Slip {
        there: "proc",
        here: "PROCEDURE",
    },
    Slip {
        there: "procedur",
        here: "PROCEDURE",
    },
    Slip {
        there: "def",
        here: "PROCEDURE",
    },
    Slip {
        there: "func",
        here: "PROCEDURE",
    },
    Slip {
        there: "void",
        here: "PROCEDURE",
    },
    Slip {
        there: "sub",
        here: "PROCEDURE",
    },
    Slip {
        there: "program",
        here: "MODULE",
    },
    Slip {
        there: "unit",
        here: "MODULE",
    },
    Slip {
        there: "interface",
        here: "DEFINITION",
    },
    Slip {
        there: "uses",
        here: "IMPORT",
    },
    Slip {
        there: "using",
        here: "IMPORT",
    },
    Slip {
        there: "include",
        here: "IMPORT",
    },
    Slip {
        there: "int",
        here: "INTEGER",
    },
    Slip {
        there: "longint",
        here: "INTEGER",
    },
    Slip {
        there: "shortint",
        here: "INTEGER",
    },
    Slip {
        there: "short",
        here: "INTEGER",
    },
    Slip {
        there: "long",
        here: "INTEGER",
    },
    Slip {
        there: "word",
        here: "CARDINAL",
    },
    Slip {
        there: "byte",
        here: "CARDINAL",
    },
    Slip {
        there: "unsigned",
        here: "CARDINAL",
    },
    Slip {
        there: "bool",
        here: "BOOLEAN",
    },
    Slip {
        there: "character",
        here: "CHAR",
    },
    Slip {
        there: "string",
        here: "ARRAY [0..79] OF CHAR",
    },
    Slip {
        there: "str",
        here: "ARRAY [0..79] OF CHAR",
    },
    Slip {
        there: "switch",
        here: "CASE",
    },
    Slip {
        there: "struct",
        here: "RECORD",
    },
    Slip {
        there: "break",
        here: "EXIT",
    },
    Slip {
        there: "downto",
        here: "TO",
    },
    Slip {
        there: "step",
        here: "BY",
    },
    Slip {
        there: "is",
        here: "=",
    },
    Slip {
        there: "mode",
        here: "MOD",
    },
    Slip {
        there: "fi",
        here: "END",
    },
    Slip {
        there: "od",
        here: "END",
    },
    Slip {
        there: "endif",
        here: "END",
    },
    Slip {
        there: "wend",
        here: "END",
    },
    Slip {
        there: "print",
        here: "WriteString",
    },
    Slip {
        there: "println",
        here: "WriteString",
    },
    Slip {
        there: "printf",
        here: "WriteString",
    },
    Slip {
        there: "write",
        here: "WriteString",
    },
    Slip {
        there: "exit",
        here: "HALT",
    },
    Slip {
        there: "length",
        here: "HIGH",
    },
];

/// Signs and words of the language that are written for others.
const SIGNS: [Slip; 47] = [
    Slip {
        there: "=",
        here: ":=",
    },
    Slip {
        there: ":=",
        here: "=",
    },
    Slip {
        there: ":=",
        here: ":",
    },
    Slip {
        there: "=",
        here: ":",
    },
    Slip {
        there: ":",
        here: ";",
    },
    Slip {
        there: ":",
        here: ":=",
    },
    Slip {
        there: ":",
        here: "=",
    },
    Slip {
        there: ":",
        here: ",",
    },
    Slip {
        there: ":",
        here: "..",
    },
    Slip {
        there: ";",
        here: ",",
    },
    Slip {
        there: ";",
        here: ":",
    },
    Slip {
        there: ";",
        here: ".",
    },
    Slip {
        there: ";",
        here: ")",
    },
    Slip {
        there: ";",
        here: "|",
    },
    Slip {
        there: ";",
        here: "DO",
    },
    Slip {
        there: ";",
        here: "THEN",
    },
    Slip {
        there: ",",
        here: ";",
    },
    Slip {
        there: ",",
        here: ".",
    },
    Slip {
        there: ",",
        here: "..",
    },
    Slip {
        there: ",",
        here: ":",
    },
    Slip {
        there: ".",
        here: ";",
    },
    Slip {
        there: ".",
        here: ",",
    },
    Slip {
        there: ".",
        here: "..",
    },
    Slip {
        there: "..",
        here: ".",
    },
    Slip {
        there: "..",
        here: ",",
    },
    Slip {
        there: "(",
        here: "[",
    },
    Slip {
        there: "[",
        here: "(",
    },
    Slip {
        there: "{",
        here: "(",
    },
    Slip {
        there: ")",
        here: "]",
    },
    Slip {
        there: ")",
        here: "}",
    },
    Slip {
        there: "]",
        here: ")",
    },
    Slip {
        there: "}",
        here: ")",
    },
    Slip {
        there: "}",
        here: "]",
    },
    Slip {
        there: "THEN",
        here: "DO",
    },
    Slip {
        there: "THEN",
        here: "OF",
    },
    Slip {
        there: "DO",
        here: "THEN",
    },
    Slip {
        there: "DO",
        here: "OF",
    },
    Slip {
        there: "OF",
        here: "DO",
    },
    Slip {
        there: "OF",
        here: "THEN",
    },
    Slip {
        there: "TO",
        here: "OF",
    },
    Slip {
        there: "UNTIL",
        here: "END",
    },
    Slip {
        there: "END",
        here: "BEGIN",
    },
    Slip {
        there: "BEGIN",
        here: "END",
    },
    Slip {
        there: "WHILE",
        here: "UNTIL",
    },
    Slip {
        there: "ELSE",
        here: "|",
    },
    Slip {
        there: "IF",
        here: "WHILE",
    },
    Slip {
        there: "WHILE",
        here: "IF",
    },
];

/// Two signs that stand side by side, and what is written here.
struct Pair {
    one: &'static str,
    other: &'static str,
    here: &'static str,
}

/// Signs of two tokens.
const PAIRS: [Pair; 10] = [
    Pair {
        one: "&",
        other: "&",
        here: "AND",
    },
    Pair {
        one: "|",
        other: "|",
        here: "OR",
    },
    Pair {
        one: "=",
        other: "=",
        here: "=",
    },
    Pair {
        one: "=",
        other: "=",
        here: ":=",
    },
    Pair {
        one: ":",
        other: "=",
        here: ":=",
    },
    Pair {
        one: "=",
        other: ":",
        here: ":=",
    },
    Pair {
        one: "=",
        other: "<",
        here: "<=",
    },
    Pair {
        one: "=",
        other: ">",
        here: ">=",
    },
    Pair {
        one: "<",
        other: "-",
        here: ":=",
    },
    Pair {
        one: "*",
        other: "*",
        here: "*",
    },
];

/// Writes two signs as the one that stands for them.
fn propose_pair(mends: &mut Mends<'_>, at: usize) -> Result<(), AllocError> {
    let next = at.saturating_add(1);
    for pair in &PAIRS {
        let is_pair = mends.source.spelling(at) == pair.one.as_bytes()
            && mends.source.spelling(next) == pair.other.as_bytes();
        if is_pair {
            let words = format!(in mends.alloc;
                "write `{}` in place of `{}{}`",
                pair.here, pair.one, pair.other
            )?;
            mends.replace_all(at, next, pair.here.as_bytes(), words)?;
        }
    }
    Ok(())
}

/// Writes two signs at a token, or at the one before it, as the one that stands for them.
pub fn propose_pairs(mends: &mut Mends<'_>, at: usize) -> Result<(), AllocError> {
    propose_pair(mends, at)?;
    propose_pair(mends, at.saturating_sub(1))
}

/// Whether a word is this one, in letters of either case.
fn is_word(word: &[u8], other: &str) -> bool {
    word.eq_ignore_ascii_case(other.as_bytes())
}

/// Writes a token, if it is a name, as the reserved word that it is in capital letters.
fn propose_capitals(mends: &mut Mends<'_>, at: usize) -> Result<(), AllocError> {
    let word = capitals(mends.alloc, mends.source.spelling(at))?;
    if word_of(&word).is_some() && mends.source.is_name(at) {
        mends.replace(at, &word)?;
    }
    Ok(())
}

/// Writes a name as the word of the language that stands for it.
pub fn propose_words(mends: &mut Mends<'_>, at: usize) -> Result<(), AllocError> {
    if !mends.source.is_name(at) {
        return Ok(());
    }
    propose_capitals(mends, at)?;
    for slip in &WORDS {
        if is_word(mends.source.spelling(at), slip.there) {
            mends.replace(at, slip.here.as_bytes())?;
        }
    }
    Ok(())
}

/// Writes a sign or a word of the language as another for which it may stand.
pub fn propose_signs(mends: &mut Mends<'_>, at: usize) -> Result<(), AllocError> {
    for slip in &SIGNS {
        if mends.source.spelling(at) == slip.there.as_bytes() {
            mends.replace(at, slip.here.as_bytes())?;
        }
    }
    Ok(())
}

/// Adds a text up to a token, and the word that stands for the token.
fn push_word(
    mends: &Mends<'_>,
    text: &mut Vec<u8>,
    from: usize,
    at: usize,
    word: &[u8],
) -> Result<(), AllocError> {
    let between = text_tokens::part(mends.source.bytes, from, mends.source.begin(at));
    text.extend_from_slice(between)?;
    text.extend_from_slice(word)?;
    Ok(())
}

/// Writes all names that are reserved words in capital letters so.
pub fn propose_all_capitals(mends: &mut Mends<'_>) -> Result<(), AllocError> {
    let mut first = None;
    let mut last = 0;
    let mut text = Vec::new(mends.alloc);
    for at in 0..mends.source.tokens.len() {
        let word = capitals(mends.alloc, mends.source.spelling(at))?;
        if word_of(&word).is_some() && mends.source.is_name(at) {
            let begin = mends.source.begin(at);
            let from = if first.is_some() { last } else { begin };
            push_word(mends, &mut text, from, at, &word)?;
            first = Some(first.unwrap_or(begin));
            last = mends.source.end(at);
        }
    }
    let Some(begin) = first else {
        return Ok(());
    };
    mends.put_known(
        begin,
        last,
        &text,
        "write all reserved words in capital letters",
    )
}
