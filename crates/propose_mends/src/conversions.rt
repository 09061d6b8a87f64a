//! Conversions and brackets that may make types fit.

use m2_tree::Symbol;
use std::alloc::AllocError;
use text_mends::{Mends, words_of};
use text_tokens::{ASSIGNMENT, DESIGNATOR, Strength, operand_begin, operand_end, strength_of};

/// What is written around a value so that it has another type.
struct Conversion {
    front: &'static str,
    reason: &'static str,
}

/// The conversions that are tried.
const CONVERSIONS: [Conversion; 5] = [
    Conversion {
        front: "VAL(INTEGER, ",
        reason: "take it as an INTEGER",
    },
    Conversion {
        front: "VAL(CARDINAL, ",
        reason: "take it as a CARDINAL",
    },
    Conversion {
        front: "ORD(",
        reason: "take it as a number",
    },
    Conversion {
        front: "CHR(",
        reason: "take it as a character",
    },
    Conversion {
        front: "VAL(BOOLEAN, ",
        reason: "take it as a BOOLEAN",
    },
];

/// Whether a symbol compares.
pub fn is_relation(symbol: Symbol) -> bool {
    matches!(
        symbol,
        Symbol::Equal
            | Symbol::Unequal
            | Symbol::Less
            | Symbol::Greater
            | Symbol::AtMost
            | Symbol::AtLeast
            | Symbol::In
    )
}

/// Operators of which one may be meant for another.
const OPERATORS: [&str; 15] = [
    "DIV", "=", "AND", "OR", "+", "-", "*", "MOD", "/", "#", "<", ">", "<=", ">=", "IN",
];

/// Writes the tokens from one to another in each conversion.
fn convert(mends: &mut Mends<'_>, first: usize, last: usize) -> Result<(), AllocError> {
    if last < first || mends.source.between(first, last).is_empty() {
        return Ok(());
    }
    for conversion in &CONVERSIONS {
        mends.wrap(first, last, (conversion.front, ")"), conversion.reason)?;
    }
    Ok(())
}

/// Converts the value that begins at a token.
pub fn convert_value(mends: &mut Mends<'_>, at: usize) -> Result<(), AllocError> {
    let end = operand_end(&mends.source.tokens, at, ASSIGNMENT);
    convert(mends, at, end.saturating_sub(1))?;
    let end = operand_end(&mends.source.tokens, at, DESIGNATOR);
    convert(mends, at, end.saturating_sub(1))
}

/// Converts the side in front of an operator, as far as operators of this strength go.
fn convert_before(mends: &mut Mends<'_>, at: usize, strength: Strength) -> Result<(), AllocError> {
    let begin = operand_begin(mends.alloc, &mends.source.tokens, at, strength)?;
    convert(mends, begin, at.saturating_sub(1))
}

/// Converts the side behind an operator, as far as operators of this strength go.
fn convert_behind(mends: &mut Mends<'_>, at: usize, strength: Strength) -> Result<(), AllocError> {
    let behind = at.saturating_add(1);
    let end = operand_end(&mends.source.tokens, behind, strength);
    convert(mends, behind, end.saturating_sub(1))
}

/// Converts one of the sides of an operator.
pub fn convert_sides(mends: &mut Mends<'_>, at: usize) -> Result<(), AllocError> {
    let Some(strength) = mends.source.symbol(at).and_then(strength_of) else {
        return Ok(());
    };
    convert_before(mends, at, strength)?;
    convert_behind(mends, at, strength)?;
    convert_behind(mends, at, DESIGNATOR)?;
    convert_before(mends, at, DESIGNATOR)
}

/// Writes another operator.
pub fn propose_operators(mends: &mut Mends<'_>, at: usize) -> Result<(), AllocError> {
    if mends.source.symbol(at).and_then(strength_of).is_none() {
        return Ok(());
    }
    mends.replace_each(at, &OPERATORS)
}

/// Adds an operand of AND or OR, and the operator behind it.
fn push_operator(
    mends: &Mends<'_>,
    text: &mut Vec<u8>,
    first: usize,
    operator: usize,
) -> Result<(), AllocError> {
    push_comparison(mends, text, first, operator)?;
    text.extend_from_slice(b" ")?;
    text.extend_from_slice(mends.source.spelling(operator))?;
    text.extend_from_slice(b" ")?;
    Ok(())
}

/// Adds the operands of AND and OR from one token to another, but for the last one. Where that begins.
fn push_operators(
    mends: &Mends<'_>,
    text: &mut Vec<u8>,
    begin: usize,
    end: usize,
) -> Result<usize, AllocError> {
    let mut first = begin;
    let mut depth: usize = 0;
    for number in begin..end {
        match mends.source.symbol(number) {
            Some(Symbol::LeftParen | Symbol::LeftBracket) => depth = depth.saturating_add(1),
            Some(Symbol::RightParen | Symbol::RightBracket) => depth = depth.saturating_sub(1),
            Some(Symbol::And | Symbol::Or) if depth == 0 => {
                push_operator(mends, text, first, number)?;
                first = number.saturating_add(1);
            }
            _ => {}
        }
    }
    Ok(first)
}

/// Writes the comparisons of a condition in brackets.
pub fn propose_comparisons(mends: &mut Mends<'_>, at: usize) -> Result<(), AllocError> {
    let begin = operand_begin(mends.alloc, &mends.source.tokens, at, ASSIGNMENT)?;
    let end = operand_end(&mends.source.tokens, begin, ASSIGNMENT);
    let mut text = Vec::new(mends.alloc);
    let first = push_operators(mends, &mut text, begin, end)?;
    if first == begin {
        return propose_negation(mends, at, end);
    }
    push_comparison(mends, &mut text, first, end)?;
    let shown = words_of(mends.alloc, &text)?;
    let words = format!(in mends.alloc; "AND and OR bind more than comparisons: write `{shown}`")?;
    mends.replace_all(begin, end.saturating_sub(1), &text, words)
}

/// Adds an operand of AND or OR, in brackets if it compares.
fn push_comparison(
    mends: &Mends<'_>,
    text: &mut Vec<u8>,
    first: usize,
    behind: usize,
) -> Result<(), AllocError> {
    let operand = mends.source.between(first, behind.saturating_sub(1));
    let is_comparison = (first..behind).any(|it| mends.source.symbol(it).is_some_and(is_relation));
    text.extend_from_slice(if is_comparison { b"(" } else { b"" })?;
    text.extend_from_slice(operand)?;
    text.extend_from_slice(if is_comparison { b")" } else { b"" })?;
    Ok(())
}

/// Writes what stands behind NOT in brackets.
fn propose_negation(mends: &mut Mends<'_>, at: usize, end: usize) -> Result<(), AllocError> {
    let begin = if mends.source.is(at, Symbol::Not) {
        at
    } else {
        not_before(mends, at)
    };
    if !mends.source.is(begin, Symbol::Not) {
        return Ok(());
    }
    put_negation(mends, begin, end.saturating_sub(1))
}

/// Writes what stands behind a NOT up to a token in brackets.
fn put_negation(mends: &mut Mends<'_>, begin: usize, last: usize) -> Result<(), AllocError> {
    let inside = mends.source.between(begin.saturating_add(1), last);
    let inside = words_of(mends.alloc, inside)?;
    let text = format!(in mends.alloc; "NOT ({inside})")?;
    mends.write(
        begin,
        last,
        text.as_str(),
        "NOT binds more than a comparison",
    )
}

/// The last NOT in front of a token.
fn not_before(mends: &Mends<'_>, at: usize) -> usize {
    for back in 1..=at {
        let number = at.saturating_sub(back);
        if mends.source.is(number, Symbol::Not) {
            return number;
        }
        if mends.source.is(number, Symbol::Semicolon) {
            return at;
        }
    }
    at
}
