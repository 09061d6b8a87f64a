//! Where statements begin.

use crate::symbols::symbol_of;
use m2_tree::{Symbol, Token};
use std::alloc::{AllocError, Global};

/// Whether a symbol is the first of a statement.
pub fn begins_statement(symbol: Symbol) -> bool {
    matches!(
        symbol,
        Symbol::If
            | Symbol::Case
            | Symbol::While
            | Symbol::Repeat
            | Symbol::Loop
            | Symbol::For
            | Symbol::With
            | Symbol::Exit
            | Symbol::Return
    )
}

/// Whether a statement may begin behind a symbol.
pub fn stands_before_statement(symbol: Symbol) -> bool {
    matches!(
        symbol,
        Symbol::Semicolon
            | Symbol::Begin
            | Symbol::Then
            | Symbol::Else
            | Symbol::Do
            | Symbol::Loop
            | Symbol::Repeat
            | Symbol::Colon
    )
}

/// Where a statement may be put in front of the one that has a token.
#[derive(Clone, Copy, PartialEq, Eq)]
pub struct Front {
    /// The number of the token in front of which it may be put.
    pub token: usize,
    /// Whether a condition begins there, so that a semicolon has to stand before the statement.
    pub is_condition: bool,
}

/// Where a statement may be put if the symbol of this number stands before it.
fn front_at(symbol: Symbol, number: usize) -> Option<Front> {
    if stands_before_statement(symbol) {
        Some(Front {
            token: number.saturating_add(1),
            is_condition: false,
        })
    } else if matches!(symbol, Symbol::Elsif | Symbol::Until) {
        Some(Front {
            token: number,
            is_condition: true,
        })
    } else {
        None
    }
}

/// The place in front of the statement that has the token of this number.
pub fn front_of(tokens: &[Token], at: usize) -> Option<Front> {
    let mut front = None;
    for (number, token) in tokens.iter().enumerate() {
        if number < at {
            let here = symbol_of(token).and_then(|it| front_at(it, number));
            front = here.or(front);
        }
    }
    front
}

/// Whether an END closes what begins with a symbol.
fn is_closed_by_end(symbol: Symbol) -> bool {
    matches!(
        symbol,
        Symbol::If
            | Symbol::Case
            | Symbol::While
            | Symbol::Loop
            | Symbol::For
            | Symbol::With
            | Symbol::Record
    )
}

/// The number of the CASE in whose arms the token of this number stands, and not deeper in another statement.
pub fn case_around(
    alloc: Global,
    tokens: &[Token],
    at: usize,
) -> Result<Option<usize>, AllocError> {
    let mut open = Vec::new(alloc);
    for (number, token) in tokens.iter().enumerate() {
        if let Some(symbol) = symbol_of(token).filter(|_| number < at) {
            if is_closed_by_end(symbol) {
                open.push((number, symbol == Symbol::Case))?;
            } else if symbol == Symbol::End {
                let _ = open.pop();
            }
        }
    }
    match open.pop() {
        Some((number, true)) => Ok(Some(number)),
        _ => Ok(None),
    }
}
