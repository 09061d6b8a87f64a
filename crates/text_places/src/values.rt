//! What a refused value is given to.

use crate::sides::{Side, Sides, value_side};
use m2_tree::{Symbol, Token};
use std::alloc::{AllocError, Global};
use text_tokens::{
    ASSIGNMENT, Bracket, DESIGNATOR, bracket_around, case_around, operand_begin, symbol_at,
};

/// An index: the array before its bracket, and the value.
#[derive(Clone, Copy)]
pub struct Index {
    pub array: Side,
    /// How many indices of this array stand before it.
    pub number: usize,
    pub value: Side,
}

/// What a value is given to.
#[derive(Clone, Copy)]
pub enum ValuePlace {
    /// A variable, by an assignment or as the start of a FOR.
    Assigned(Sides),
    /// The control variable of a FOR, as its limit.
    Limit(Sides),
    /// The result of a function.
    Result(Side),
    /// An array, as an index.
    Index(Index),
}

/// The value of an assignment that begins at the token of this number.
fn assignment_sides(alloc: Global, tokens: &[Token], at: usize) -> Result<Sides, AllocError> {
    let to = at.saturating_sub(1);
    let from = operand_begin(alloc, tokens, to, ASSIGNMENT)?;
    Ok(Sides {
        left: Side { from, to },
        right: value_side(tokens, at),
    })
}

/// The number of the last FOR in front of a token.
fn for_before(tokens: &[Token], at: usize) -> Option<usize> {
    (0..at)
        .rev()
        .find(|it| symbol_at(tokens, *it) == Some(Symbol::For))
}

/// The limit of a FOR that begins at the token of this number.
fn limit_sides(tokens: &[Token], at: usize) -> Option<Sides> {
    let name = for_before(tokens, at)?.saturating_add(1);
    Some(Sides {
        left: Side {
            from: name,
            to: name.saturating_add(1),
        },
        right: value_side(tokens, at),
    })
}

/// The index that begins at the token of this number in a bracket.
fn index_in(
    alloc: Global,
    tokens: &[Token],
    at: usize,
    bracket: Bracket,
) -> Result<Option<Index>, AllocError> {
    if symbol_at(tokens, bracket.token) != Some(Symbol::LeftBracket) {
        return Ok(None);
    }
    let to = bracket.token;
    let from = operand_begin(alloc, tokens, to, DESIGNATOR)?;
    Ok(Some(Index {
        array: Side { from, to },
        number: bracket.commas,
        value: value_side(tokens, at),
    }))
}

/// What the value is given to as an index that begins at the token of this number, if it is one.
fn index_place(
    alloc: Global,
    tokens: &[Token],
    at: usize,
) -> Result<Option<ValuePlace>, AllocError> {
    let Some(bracket) = bracket_around(alloc, tokens, at)? else {
        return Ok(None);
    };
    Ok(index_in(alloc, tokens, at, bracket)?.map(ValuePlace::Index))
}

/// What the value is given to that begins at the token of this number, if that is known.
pub fn value_place(
    alloc: Global,
    tokens: &[Token],
    at: usize,
) -> Result<Option<ValuePlace>, AllocError> {
    match symbol_at(tokens, at.saturating_sub(1)) {
        Some(Symbol::Assign) => {
            Ok(Some(ValuePlace::Assigned(assignment_sides(alloc, tokens, at)?)))
        }
        Some(Symbol::To) => Ok(limit_sides(tokens, at).map(ValuePlace::Limit)),
        Some(Symbol::Return) => Ok(Some(ValuePlace::Result(value_side(tokens, at)))),
        Some(Symbol::LeftBracket | Symbol::Comma) => index_place(alloc, tokens, at),
        _ => Ok(None),
    }
}

/// Whether a label of a CASE may begin behind a symbol.
fn stands_before_label(symbol: Symbol) -> bool {
    matches!(
        symbol,
        Symbol::Of | Symbol::Bar | Symbol::Comma | Symbol::DotDot
    )
}

/// The selector of a CASE and its label that begins at the token of this number, if one does.
pub fn label_sides(
    alloc: Global,
    tokens: &[Token],
    at: usize,
) -> Result<Option<Sides>, AllocError> {
    if !symbol_at(tokens, at.saturating_sub(1)).is_some_and(stands_before_label) {
        return Ok(None);
    }
    let Some(case) = case_around(alloc, tokens, at)? else {
        return Ok(None);
    };
    Ok(Some(Sides {
        left: value_side(tokens, case.saturating_add(1)),
        right: value_side(tokens, at),
    }))
}
