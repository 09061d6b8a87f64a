//! Mends where a text breaks a rule of names, types or statements.

use crate::conversions::{convert_sides, convert_value, propose_comparisons, propose_operators};
use crate::grammar::propose_near_names;
use crate::imports::{propose_exported, propose_import_of};
use crate::names::{is_part, propose_alike, propose_exports};
use crate::scopes::{
    propose_heading, propose_once, propose_procedures, propose_var_formal, propose_variable,
};
use m2_tree::Symbol;
use refused_text::Export;
use std::alloc::AllocError;
use text_mends::{Mends, propose_signs, propose_words};
use text_tokens::{Call, call_at, depth_behind};

/// Rules that have mends of their own.
const UNDECLARED: u32 = 30;

const TWICE: u32 = 31;

const NOT_EXPORTED: u32 = 32;

const WRONG_TYPE: u32 = 40;

const ARGUMENT_COUNT: u32 = 42;

const NO_VARIABLE: u32 = 44;

const EXIT_OUTSIDE: u32 = 45;

const RETURN_VALUE: u32 = 46;

const HEADING: u32 = 50;

const LACKING: u32 = 51;

/// Values that may be missing behind RETURN or in a call.
const VALUES: [&str; 4] = ["0", "1", "TRUE", "\" \""];

/// Words that may be missing in front of a token whose type does not fit.
const MISSING: [&str; 9] = ["NOT", "-", "RETURN", ";", "+", "=", "*", "AND", "."];

/// Mends of a name that is not declared.
fn propose_undeclared(
    mends: &mut Mends<'_>,
    at: usize,
    exports: &[Export],
) -> Result<(), AllocError> {
    if !is_part(mends, at) {
        propose_import_of(mends, at, exports)?;
    }
    propose_words(mends, at)?;
    propose_alike(mends, at, exports)?;
    propose_text(mends, at)?;
    let is_called = mends.statement_begin(at) == at
        && !mends.source.is(at.saturating_add(1), Symbol::Assign);
    if !is_part(mends, at) && !is_called {
        propose_variable(mends, at)?;
    }
    propose_generic(mends, at)
}

/// Writes a name as a string.
fn propose_text(mends: &mut Mends<'_>, at: usize) -> Result<(), AllocError> {
    mends.wrap(at, at, ("\"", "\""), "a string stands between quotes")
}

/// Writes a value as one more argument in front of a place.
fn put_argument(
    mends: &mut Mends<'_>,
    place: usize,
    between: &str,
    value: &str,
) -> Result<(), AllocError> {
    let text = format!(in mends.alloc; "{between}{value}")?;
    let words = format!(in mends.alloc; "an argument is missing: write one more, as `{value}`")?;
    mends.put(place, place, text.as_bytes(), words)
}

/// Mends of a call whose bracket opens at a token.
fn propose_arguments_of(mends: &mut Mends<'_>, open: usize) -> Result<(), AllocError> {
    let close = close_of(mends, open);
    let place = mends.source.begin(close);
    let is_empty = close == open.saturating_add(1);
    for value in &VALUES {
        put_argument(mends, place, if is_empty { "" } else { ", " }, value)?;
    }
    let from = mends.source.begin(last_comma(mends, open, close));
    let words = "the call has an argument too many: take the last one out";
    mends.put_known(from, place, b"", words)
}

/// Mends of a call with a wrong number of arguments.
fn propose_arguments(mends: &mut Mends<'_>, at: usize) -> Result<(), AllocError> {
    let Call { open, name, .. } = call_at(&mends.source.tokens, at);
    match open {
        Some(open) => propose_arguments_of(mends, open),
        None => {
            let place = mends.source.end(name);
            mends.put_known(place, place, b"(1)", "the call lacks its argument")
        }
    }
}

/// The bracket that closes the one of this number, or the end.
fn close_of(mends: &Mends<'_>, open: usize) -> usize {
    let mut depth: usize = 0;
    for (number, token) in mends.source.tokens.iter().enumerate() {
        if number >= open {
            depth = depth_behind(token, depth).unwrap_or(0);
            if depth == 0 {
                return number;
            }
        }
    }
    mends.source.tokens.len().saturating_sub(1)
}

/// The last comma of an argument list, or the token behind its bracket.
fn last_comma(mends: &Mends<'_>, open: usize, close: usize) -> usize {
    for back in 1..=close.saturating_sub(open) {
        let number = close.saturating_sub(back);
        if mends.source.is(number, Symbol::Comma) {
            return number;
        }
    }
    open.saturating_add(1)
}

/// Writes a value behind a RETURN.
fn put_returned(mends: &mut Mends<'_>, at: usize, value: &str) -> Result<(), AllocError> {
    let place = mends.source.end(at);
    let text = format!(in mends.alloc; " {value}")?;
    let words = format!(in mends.alloc;
        "a function returns a value: write one, as `RETURN {value}`"
    )?;
    mends.put(place, place, text.as_bytes(), words)
}

/// Mends of a RETURN that has a value or lacks one.
fn propose_return(mends: &mut Mends<'_>, at: usize) -> Result<(), AllocError> {
    let end = mends.next_of(at, Symbol::Semicolon, Symbol::End);
    let words = "a proper procedure returns no value: write RETURN alone";
    mends.replace_known(at, end.saturating_sub(1).max(at), b"RETURN", words)?;
    for value in &VALUES {
        put_returned(mends, at, value)?;
    }
    Ok(())
}

/// Mends of what does not fit, whatever it is.
fn propose_generic(mends: &mut Mends<'_>, at: usize) -> Result<(), AllocError> {
    mends.is_bold = true;
    let before = at.saturating_sub(1);
    for word in &MISSING {
        mends.insert(at, word)?;
    }
    for word in &["[", "(", ".", ":="] {
        mends.insert(at.saturating_add(1), word)?;
    }
    propose_signs(mends, at)?;
    propose_signs(mends, before)?;
    mends.exchange(at)?;
    mends.exchange(before)?;
    if !mends.source.is_name(at) {
        mends.remove(at)?;
    }
    mends.remove(before)?;
    if mends.source.is(at, Symbol::LeftParen) {
        propose_near_names(mends, at)?;
    }
    Ok(())
}

/// Mends where types do not fit.
fn propose_fit(mends: &mut Mends<'_>, at: usize, exports: &[Export]) -> Result<(), AllocError> {
    if mends.source.is(at, Symbol::Slash) {
        mends.replace(at, b"DIV")?;
    }
    propose_comparisons(mends, at)?;
    convert_sides(mends, at)?;
    convert_value(mends, at)?;
    propose_operators(mends, at)?;
    propose_words(mends, at)?;
    if mends.source.is_name(at) {
        propose_alike(mends, at, exports)?;
    }
    propose_generic(mends, at)
}

/// Mends where a rule of names, types or statements is broken at a token.
pub fn propose_types(
    mends: &mut Mends<'_>,
    rule: u32,
    at: usize,
    exports: &[Export],
    partner: &[u8],
) -> Result<(), AllocError> {
    match rule {
        UNDECLARED => propose_undeclared(mends, at, exports),
        TWICE => propose_once(mends, at),
        NOT_EXPORTED => {
            propose_exported(mends, at, exports)?;
            propose_exports(mends, at, exports)
        }
        ARGUMENT_COUNT => {
            propose_arguments(mends, at)?;
            propose_generic(mends, at)
        }
        EXIT_OUTSIDE => mends.replace(at, b"RETURN"),
        RETURN_VALUE => propose_return(mends, at),
        HEADING => propose_heading(mends, at, partner),
        LACKING => propose_procedures(mends, partner),
        NO_VARIABLE => {
            propose_var_formal(mends, at)?;
            propose_fit(mends, at, exports)
        }
        WRONG_TYPE => propose_fit(mends, at, exports),
        _ => propose_fit(mends, at, exports),
    }
}
