//! Mends where a text breaks a rule of the grammar.

use crate::conversions::{is_relation, propose_comparisons};
use crate::names::names_around;
use m2_tree::Symbol;
use std::alloc::AllocError;
use text_mends::{
    Mends, propose_all_capitals, propose_blocks, propose_comment, propose_ends, propose_fewer_ends,
    propose_pairs, propose_signs, propose_steps, propose_words, words_of,
};
use text_tokens::{DESIGNATOR, bracket_around, operand_begin, operand_end, strength_of};

/// The rule of a closing name that is not the opening one.
const CLOSING_NAME: u32 = 11;

/// The rule of what is nested too deep.
const TOO_DEEP: u32 = 12;

/// Words and signs that may be missing in front of a token, the likeliest first.
const MISSING: [&str; 15] = [
    ";", ")", ",", ":=", "=", "(", ".", ":", "THEN", "DO", "OF", "]", "[", "|", "()",
];

/// Others, which are likely only if the whole is accepted then.
const MISSING_MAYBE: [&str; 23] = [
    "END",
    "BEGIN",
    "VAR",
    "CONST",
    "TYPE",
    "FROM",
    "+",
    "-",
    "*",
    "AND",
    "#",
    "<",
    "DIV",
    "OR",
    "TO",
    "..",
    "}",
    "{",
    "IF",
    "RETURN",
    "UNTIL",
    "IMPORT",
    "PROCEDURE",
];

/// Words that may be missing in front of the token before a refused one.
const MISSING_EARLIER: [&str; 24] = [
    "BEGIN",
    "VAR",
    "IF",
    "RETURN",
    "(",
    "WHILE",
    "FOR",
    "CASE",
    "CONST",
    "TYPE",
    "PROCEDURE",
    ";",
    "NOT",
    ",",
    ":=",
    "=",
    ":",
    "[",
    "END",
    "MODULE",
    "FROM",
    "IMPORT",
    ")",
    ".",
];

/// Words that may be missing at the begin of the statement that has a refused token.
const MISSING_IN_FRONT: [&str; 8] = [
    "IF", "WHILE", "FOR", "CASE", "WITH", "RETURN", "REPEAT", "LOOP",
];

/// The most tokens behind a bracket in front of which it may be closed.
const MOST_CLOSED: usize = 40;

/// The most tokens in front of a place in which one may stand twice.
const MOST_TWICE: usize = 60;

/// The most tokens that stand twice and are taken out.
const MOST_DOUBLES: usize = 4;

/// The word that the head of a statement in front of a token ends with, if it has not ended.
fn head_end(mends: &Mends<'_>, at: usize) -> Option<&'static str> {
    for back in 1..=at {
        match mends.source.symbol(at.saturating_sub(back)) {
            Some(Symbol::If | Symbol::Elsif) => return Some("THEN"),
            Some(Symbol::While | Symbol::For | Symbol::With) => return Some("DO"),
            Some(Symbol::Case | Symbol::Array) => return Some("OF"),
            Some(
                Symbol::Then
                | Symbol::Do
                | Symbol::Of
                | Symbol::Semicolon
                | Symbol::End
                | Symbol::Begin,
            ) => return None,
            _ => {}
        }
    }
    None
}

/// Puts the word in front of a token with which the head of a statement ends.
fn propose_head_end(mends: &mut Mends<'_>, at: usize) -> Result<(), AllocError> {
    match head_end(mends, at) {
        Some(word) => mends.insert(at, word),
        None => Ok(()),
    }
}

/// Takes a token out that stands twice in front of a place.
fn propose_doubles(mends: &mut Mends<'_>, at: usize) -> Result<(), AllocError> {
    let mut count: usize = 0;
    for back in 1..MOST_TWICE.min(at) {
        let number = at.saturating_sub(back);
        let before = number.saturating_sub(1);
        if count < MOST_DOUBLES && mends.source.spelling(number) == mends.source.spelling(before) {
            count = count.saturating_add(1);
            mends.remove(number)?;
        }
    }
    Ok(())
}

/// Writes `-3` in brackets behind an operator.
fn propose_brackets(mends: &mut Mends<'_>, at: usize) -> Result<(), AllocError> {
    let is_sign = mends.source.is(at, Symbol::Minus) || mends.source.is(at, Symbol::Plus);
    if !is_sign {
        return Ok(());
    }
    let behind = operand_end(&mends.source.tokens, at.saturating_add(1), DESIGNATOR);
    let last = behind.saturating_sub(1).max(at);
    let reason = "a sign behind an operator stands in brackets";
    mends.wrap(at, last, ("(", ")"), reason)
}

/// Writes `x := x + 1` for `x += 1`, of which the sign is this token.
fn put_update(
    mends: &mut Mends<'_>,
    begin: usize,
    at: usize,
    place: &str,
    sign: &str,
) -> Result<(), AllocError> {
    let text = format!(in mends.alloc; "{place} := {place} {sign}")?;
    let words = format!(in mends.alloc; "write `{text} ..` in place of `{place} {sign}= ..`")?;
    mends.replace_all(begin, at.saturating_add(1), text.as_bytes(), words)
}

/// Writes `INC(x)` for `x++`, of which the first sign is this token.
fn put_count(
    mends: &mut Mends<'_>,
    begin: usize,
    at: usize,
    place: &str,
    sign: &str,
) -> Result<(), AllocError> {
    let call = if mends.source.is(at, Symbol::Plus) {
        "INC"
    } else {
        "DEC"
    };
    let text = format!(in mends.alloc; "{call}({place})")?;
    let words = format!(in mends.alloc; "write `{text}` in place of `{place}{sign}{sign}`")?;
    mends.replace_all(begin, at.saturating_add(1), text.as_bytes(), words)
}

/// Writes `x := x + 1` for `x += 1` and `INC(x)` for `x++`.
fn propose_update(mends: &mut Mends<'_>, at: usize) -> Result<(), AllocError> {
    let next = at.saturating_add(1);
    let is_sign = matches!(
        mends.source.symbol(at),
        Some(Symbol::Plus | Symbol::Minus | Symbol::Star | Symbol::Slash)
    );
    let is_twice = mends.source.symbol(next) == mends.source.symbol(at);
    if !is_sign || !(is_twice || mends.source.is(next, Symbol::Equal)) {
        return Ok(());
    }
    let begin = operand_begin(mends.alloc, &mends.source.tokens, at, DESIGNATOR)?;
    let place = mends.source.between(begin, at.saturating_sub(1));
    let place = words_of(mends.alloc, place)?;
    let sign = words_of(mends.alloc, mends.source.spelling(at))?;
    if is_twice {
        return put_count(mends, begin, at, place.as_str(), sign.as_str());
    }
    put_update(mends, begin, at, place.as_str(), sign.as_str())
}

/// Adds the text between two tokens, and ELSIF.
fn push_elsif(
    mends: &Mends<'_>,
    text: &mut Vec<u8>,
    before: Option<usize>,
    number: usize,
) -> Result<(), AllocError> {
    if let Some(before) = before {
        let (end, begin) = (mends.source.end(before), mends.source.begin(number));
        text.extend_from_slice(text_tokens::part(mends.source.bytes, end, begin))?;
    }
    text.extend_from_slice(b"ELSIF")?;
    Ok(())
}

/// Writes the ELSE IF whose IF is this token as ELSIF.
fn put_elsif(mends: &mut Mends<'_>, last: usize) -> Result<(), AllocError> {
    let line = mends.source.line(last);
    let words = format!(in mends.alloc;
        "ELSE IF needs an END of its own: write ELSIF in line {line}"
    )?;
    mends.replace_all(last.saturating_sub(1), last, b"ELSIF", words)
}

/// Writes the last ELSE IF in front of a place, or all of them, as ELSIF.
fn propose_elsif(mends: &mut Mends<'_>, at: usize) -> Result<(), AllocError> {
    let mut last = None;
    let mut text = Vec::new(mends.alloc);
    let mut first = at;
    for number in 0..at {
        let next = number.saturating_add(1);
        if mends.source.is(number, Symbol::Else) && mends.source.is(next, Symbol::If) {
            push_elsif(mends, &mut text, last, number)?;
            first = first.min(number);
            last = Some(next);
        }
    }
    let Some(last) = last else {
        return Ok(());
    };
    put_elsif(mends, last)?;
    let words = "ELSE IF needs an END of its own: write ELSIF";
    mends.replace_known(first, last, &text, words)
}

/// The bracket that is open in front of a token.
fn bracket_before(mends: &Mends<'_>, at: usize) -> Result<Option<usize>, AllocError> {
    let found = bracket_around(mends.alloc, &mends.source.tokens, at)?;
    Ok(found.map(|it| it.token))
}

/// Writes the bracket that is open in front of a token as the one that the token closes.
fn propose_opener(mends: &mut Mends<'_>, at: usize) -> Result<(), AllocError> {
    let word: &[u8] = match mends.source.symbol(at) {
        Some(Symbol::RightParen) => b"(",
        Some(Symbol::RightBracket) => b"[",
        Some(Symbol::RightBrace) => b"{",
        _ => return Ok(()),
    };
    match bracket_before(mends, at)? {
        Some(open) => mends.replace(open, word),
        None => Ok(()),
    }
}

/// Closes the bracket that is open in front of a token, in front of each operator between them.
fn propose_closer(mends: &mut Mends<'_>, at: usize) -> Result<(), AllocError> {
    let Some(open) = bracket_before(mends, at)? else {
        return Ok(());
    };
    let word = match mends.source.symbol(open) {
        Some(Symbol::LeftBracket) => "]",
        Some(Symbol::LeftBrace) => "}",
        _ => ")",
    };
    mends.insert(at, word)?;
    for number in open.saturating_add(2)..at.min(open.saturating_add(MOST_CLOSED)) {
        let is_between = mends.source.symbol(number).is_some_and(|it| {
            strength_of(it).is_some()
                || matches!(it, Symbol::Comma | Symbol::Assign | Symbol::RightParen)
        });
        if is_between {
            mends.insert(number, word)?;
        }
    }
    Ok(())
}

/// Writes braces in front of a token as the words with which heads end.
fn propose_heads(mends: &mut Mends<'_>, at: usize) -> Result<(), AllocError> {
    for back in 1..MOST_TWICE.min(at) {
        let number = at.saturating_sub(back);
        if mends.source.is(number, Symbol::LeftBrace) {
            mends.replace_each(number, &["THEN", "DO"])?;
        }
    }
    Ok(())
}

/// Puts the name of another token in front of one.
fn put_near(mends: &mut Mends<'_>, at: usize, number: usize) -> Result<(), AllocError> {
    let name = Vec::from_slice(mends.alloc, mends.source.spelling(number))?;
    mends.insert_name(at, &name)
}

/// Puts names that stand near in front of a token.
pub fn propose_near_names(mends: &mut Mends<'_>, at: usize) -> Result<(), AllocError> {
    let near = names_around(mends, at)?;
    for number in &near {
        put_near(mends, at, *number)?;
    }
    mends.insert_name(at, b"0")?;
    mends.insert_name(at, b"1")
}

/// Writes square brackets for those at these tokens.
fn put_index(mends: &mut Mends<'_>, open: usize, close: usize) -> Result<(), AllocError> {
    let (first, last) = (open.saturating_add(1), close.saturating_sub(1));
    let inside = words_of(mends.alloc, mends.source.between(first, last))?;
    let text = format!(in mends.alloc; "[{inside}]")?;
    mends.write(
        open,
        close,
        text.as_str(),
        "an index stands in square brackets",
    )
}

/// Writes brackets of an index for those of a call in front of an assignment.
fn propose_index(mends: &mut Mends<'_>, at: usize) -> Result<(), AllocError> {
    let close = at.saturating_sub(1);
    let is_call = mends.source.is(at, Symbol::Assign) && mends.source.is(close, Symbol::RightParen);
    match bracket_before(mends, close)? {
        Some(open) if is_call => put_index(mends, open, close),
        _ => Ok(()),
    }
}

/// Writes the range of an array in brackets.
fn propose_range(mends: &mut Mends<'_>, at: usize) -> Result<(), AllocError> {
    let end = mends.next_of(at, Symbol::Of, Symbol::Semicolon);
    if !mends.source.is(at.saturating_sub(1), Symbol::Array) || end <= at {
        return Ok(());
    }
    let reason = "a range stands in square brackets";
    mends.wrap(at, end.saturating_sub(1), ("[", "]"), reason)
}

/// Words that may be missing in front of a token.
fn propose_missing(mends: &mut Mends<'_>, at: usize, missing: &[&str]) -> Result<(), AllocError> {
    for word in missing {
        mends.insert(at, word)?;
    }
    Ok(())
}

/// Writes the name behind END as that of the procedure or the module.
fn propose_closing(mends: &mut Mends<'_>, at: usize) -> Result<(), AllocError> {
    for back in 1..=at {
        let number = at.saturating_sub(back);
        let before = number.saturating_sub(1);
        let is_heading = mends.source.is(before, Symbol::Procedure)
            || mends.source.is(before, Symbol::Module);
        if is_heading && mends.source.is_name(number) {
            mends.replace_by(at, number)?;
            mends.replace_by(number, at)?;
        }
    }
    Ok(())
}

/// Puts the name at a token behind the END in front of another one.
fn put_closing(mends: &mut Mends<'_>, at: usize, number: usize) -> Result<(), AllocError> {
    let name = words_of(mends.alloc, mends.source.spelling(number))?;
    let place = mends.source.end(at.saturating_sub(1));
    let text = format!(in mends.alloc; " {name}")?;
    let words = format!(in mends.alloc; "the name is missing behind END: write `END {name}`")?;
    mends.put(place, place, text.as_bytes(), words)
}

/// Puts the name of a procedure or of the module behind its END.
fn propose_name(mends: &mut Mends<'_>, at: usize) -> Result<(), AllocError> {
    if !mends.source.is(at.saturating_sub(1), Symbol::End) {
        return Ok(());
    }
    for back in 1..=at {
        let number = at.saturating_sub(back);
        let before = number.saturating_sub(1);
        let is_heading = mends.source.is(before, Symbol::Procedure)
            || mends.source.is(before, Symbol::Module);
        if is_heading && mends.source.is_name(number) {
            put_closing(mends, at, number)?;
        }
    }
    Ok(())
}

/// Words that may be missing where a section of declarations begins, or in front of the range of an array.
fn propose_sections(mends: &mut Mends<'_>, at: usize) -> Result<(), AllocError> {
    for back in 1..MOST_TWICE.min(at) {
        let number = at.saturating_sub(back);
        match mends.source.symbol(number) {
            Some(Symbol::Equal) => {
                mends.insert(number.saturating_sub(1), "TYPE")?;
                return mends.insert(number.saturating_sub(1), "CONST");
            }
            Some(Symbol::LeftBracket) if mends.source.is(at, Symbol::Of) => {
                return mends.insert(number, "ARRAY");
            }
            Some(Symbol::Semicolon | Symbol::Begin) => return Ok(()),
            _ => {}
        }
    }
    Ok(())
}

/// AND or OR between two operands in brackets.
fn propose_between(mends: &mut Mends<'_>, at: usize) -> Result<(), AllocError> {
    let is_open = mends.source.is(at, Symbol::LeftParen) || mends.source.is(at, Symbol::Not);
    if is_open && mends.source.is(at.saturating_sub(1), Symbol::RightParen) {
        mends.insert(at, "AND")?;
        mends.insert(at, "OR")?;
    }
    Ok(())
}

/// What is written in another language in front of a token or at it.
fn propose_slips(mends: &mut Mends<'_>, at: usize) -> Result<(), AllocError> {
    propose_steps(mends, at)?;
    propose_comment(mends, at)?;
    propose_blocks(mends, at)?;
    propose_words(mends, at)?;
    propose_words(mends, at.saturating_sub(1))?;
    let begin = mends.statement_begin(at);
    propose_words(mends, begin)?;
    if mends.source.symbol(at).is_some_and(is_relation) {
        propose_comparisons(mends, at)?;
    }
    propose_index(mends, at)?;
    propose_range(mends, at)?;
    propose_brackets(mends, at)?;
    propose_update(mends, at)?;
    propose_opener(mends, at)?;
    propose_signs(mends, at)
}

/// What may be missing, too many or the wrong way round at a token.
fn propose_around(mends: &mut Mends<'_>, at: usize) -> Result<(), AllocError> {
    let before = at.saturating_sub(1);
    propose_missing(mends, before, &MISSING_EARLIER)?;
    let begin = mends.statement_begin(at);
    propose_missing(mends, begin, &MISSING_IN_FRONT)?;
    mends.exchange(before)?;
    mends.exchange(at)?;
    mends.exchange(before.saturating_sub(1))?;
    mends.remove(at)?;
    propose_signs(mends, before)?;
    mends.remove(before)?;
    propose_doubles(mends, at)?;
    propose_closer(mends, at)?;
    propose_heads(mends, at)?;
    propose_near_names(mends, at)
}

/// Mends of a token with which no module goes on.
fn propose_unfit(mends: &mut Mends<'_>, at: usize) -> Result<(), AllocError> {
    let before = at.saturating_sub(1);
    propose_pairs(mends, at)?;
    if mends.source.spelling(at) == mends.source.spelling(before) {
        mends.remove(at)?;
    }
    propose_slips(mends, at)?;
    propose_between(mends, at)?;
    propose_head_end(mends, at)?;
    propose_elsif(mends, at)?;
    propose_ends(mends, at)?;
    propose_name(mends, at)?;
    propose_missing(mends, at, &MISSING)?;
    mends.is_bold = true;
    propose_missing(mends, at, &MISSING_MAYBE)?;
    propose_sections(mends, at)?;
    propose_around(mends, at)?;
    propose_fewer_ends(mends, at)?;
    propose_all_capitals(mends)
}

/// Mends where a rule of the grammar is broken at a token.
pub fn propose_tokens(mends: &mut Mends<'_>, rule: u32, at: usize) -> Result<(), AllocError> {
    match rule {
        TOO_DEEP => Ok(()),
        CLOSING_NAME => {
            propose_closing(mends, at)?;
            propose_ends(mends, at)?;
            propose_fewer_ends(mends, at)
        }
        _ => propose_unfit(mends, at),
    }
}
