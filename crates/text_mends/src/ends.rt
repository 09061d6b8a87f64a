//! Where an END, a BEGIN or an UNTIL may be missing, as lines are indented.

use crate::list::{Mends, words_of};
use m2_tree::Symbol;
use std::alloc::AllocError;

/// The most constructs of which an END is tried.
const MOST_OPEN: usize = 12;

/// The most ENDs that are taken out.
const MOST_ENDS: usize = 6;

/// Whether a construct begins with this that an END or an UNTIL closes.
fn is_closed_by_end(symbol: Symbol) -> bool {
    matches!(
        symbol,
        Symbol::If
            | Symbol::Case
            | Symbol::While
            | Symbol::Loop
            | Symbol::For
            | Symbol::With
            | Symbol::Record
            | Symbol::Repeat
    )
}

/// Whether a construct goes on with this.
fn is_inside(symbol: Symbol) -> bool {
    matches!(
        symbol,
        Symbol::Else
            | Symbol::Elsif
            | Symbol::Bar
            | Symbol::Then
            | Symbol::Do
            | Symbol::Of
            | Symbol::Begin
    )
}

/// What closes a construct that begins with this.
fn closing_word(symbol: Symbol, is_before_end: bool) -> &'static str {
    match symbol {
        Symbol::Repeat if is_before_end => "UNTIL TRUE",
        Symbol::Repeat => "UNTIL TRUE;",
        _ if is_before_end => "END",
        _ => "END;",
    }
}

/// The constructs that begin before a token, the last first, at most so many: the numbers of their tokens.
fn openers(mends: &Mends<'_>, at: usize) -> Result<Vec<usize>, AllocError> {
    let mut all = Vec::new(mends.alloc);
    for back in 1..=at {
        let number = at.saturating_sub(back);
        let is_open = mends
            .source
            .symbol(number)
            .is_some_and(|it| is_closed_by_end(it) || it == Symbol::Procedure);
        if is_open && all.len() < MOST_OPEN {
            all.push(number)?;
        }
    }
    Ok(all)
}

/// The first token of a line behind a construct that stands no deeper than it, or a token if none is in front of that.
fn line_behind(mends: &Mends<'_>, opener: usize, at: usize) -> usize {
    let column = mends.source.column(opener);
    for number in opener.saturating_add(1)..at {
        let goes_on = mends.source.symbol(number).is_some_and(is_inside);
        if mends.source.is_first(number) && !goes_on && mends.source.column(number) <= column {
            return number;
        }
    }
    at
}

/// Whether the construct of an opener is closed in front of a token.
fn is_closed(mends: &Mends<'_>, opener: usize, at: usize) -> bool {
    let mut depth: usize = 0;
    for number in opener..at {
        match mends.source.symbol(number) {
            Some(Symbol::End | Symbol::Until) => depth = depth.saturating_sub(1),
            Some(symbol) if is_closed_by_end(symbol) => depth = depth.saturating_add(1),
            _ => {}
        }
    }
    depth == 0
}

/// Where the END of a construct stands if the next line does not belong to it: in front of the semicolon of its own line.
fn end_place(mends: &Mends<'_>, opener: usize, place: usize) -> usize {
    let before = place.saturating_sub(1);
    let is_own = mends.source.line(before) == mends.source.line(opener);
    let is_open = before > opener && !is_closed(mends, opener, before);
    if is_own && is_open && mends.source.is(before, Symbol::Semicolon) {
        before
    } else {
        place
    }
}

/// Where something is put that stands in front of a token, in words.
fn words_before(mends: &Mends<'_>, place: usize) -> Result<String, AllocError> {
    if mends.source.is_first(place) {
        return format!(in mends.alloc; "before line {}", mends.source.line(place));
    }
    let there = words_of(mends.alloc, mends.source.spelling(place))?;
    format!(in mends.alloc; "before `{there}`")
}

/// Puts an END of a construct in front of a token.
fn put_end(
    mends: &mut Mends<'_>,
    opener: usize,
    place: usize,
    word: &str,
) -> Result<(), AllocError> {
    let kind = words_of(mends.alloc, mends.source.spelling(opener))?;
    let line = mends.source.line(opener);
    let before = words_before(mends, place)?;
    let words = format!(in mends.alloc;
        "an {} is missing for the {kind} of line {line}: put it {before}",
        if mends.source.is(opener, Symbol::Repeat) {
            "UNTIL"
        } else {
            "END"
        }
    )?;
    put_line(mends, place, word, words)
}

/// Puts a word in front of a token, on a line of its own if the token begins one.
pub fn put_line(
    mends: &mut Mends<'_>,
    place: usize,
    word: &str,
    words: String,
) -> Result<(), AllocError> {
    let begin = mends.source.begin(place);
    let text = if mends.source.is(place, Symbol::Semicolon) {
        format!(in mends.alloc; " {word}")?
    } else {
        mends.leading(place, word, mends.source.is_first(place))?
    };
    mends.put(begin, begin, text.as_bytes(), words)
}

/// The END of a construct where indentation says that it may be missing.
fn propose_end_of(mends: &mut Mends<'_>, opener: usize, at: usize) -> Result<(), AllocError> {
    let place = end_place(mends, opener, line_behind(mends, opener, at));
    let is_aligned = mends.source.column(place) == mends.source.column(opener);
    let is_closed = mends.source.is(place, Symbol::End) || mends.source.is(place, Symbol::Until);
    if place < at && is_aligned && is_closed {
        return Ok(());
    }
    let is_before_end = mends.source.symbol(place).is_some_and(|it| matches!(
        it,
        Symbol::End | Symbol::Else | Symbol::Elsif | Symbol::Until | Symbol::Semicolon | Symbol::Bar
    ));
    if mends.source.is(opener, Symbol::Procedure) {
        return propose_procedure_end(mends, opener, place);
    }
    match mends.source.symbol(opener) {
        Some(symbol) => put_end(mends, opener, place, closing_word(symbol, is_before_end)),
        None => Ok(()),
    }
}

/// The END of a procedure, with its name.
fn propose_procedure_end(
    mends: &mut Mends<'_>,
    opener: usize,
    place: usize,
) -> Result<(), AllocError> {
    let name = words_of(mends.alloc, mends.source.spelling(opener.saturating_add(1)))?;
    let line = mends.source.line(opener);
    let word = format!(in mends.alloc; "END {name};")?;
    let words = format!(in mends.alloc;
        "`END {name};` is missing for the PROCEDURE of line {line}: put it before line {}",
        mends.source.line(place)
    )?;
    put_line(mends, place, word.as_str(), words)
}

/// ENDs that may be missing in front of a token.
pub fn propose_ends(mends: &mut Mends<'_>, at: usize) -> Result<(), AllocError> {
    let before = at.saturating_sub(1);
    let last = if mends.source.is(before, Symbol::End) {
        before
    } else {
        at
    };
    let all = openers(mends, at)?;
    for opener in &all {
        let place = line_behind(mends, *opener, last);
        if end_place(mends, *opener, place) != place {
            propose_end_of(mends, *opener, last)?;
        }
    }
    for opener in &all {
        propose_end_of(mends, *opener, last)?;
    }
    Ok(())
}

/// ENDs that may be too many in front of a token.
pub fn propose_fewer_ends(mends: &mut Mends<'_>, at: usize) -> Result<(), AllocError> {
    let mut count: usize = 0;
    for back in 1..=at {
        let number = at.saturating_sub(back);
        if mends.source.is(number, Symbol::End) && count < MOST_ENDS {
            count = count.saturating_add(1);
            let line = mends.source.line(number);
            let words = format!(in mends.alloc; "take the END of line {line} out")?;
            mends.replace_all(number, number, b"", words)?;
        }
    }
    Ok(())
}
