//! The operands of an operator, by their tokens.

use crate::symbols::{closes, depth_behind, opens, symbol_of};
use m2_tree::{Lexeme, Symbol, Token};
use std::alloc::{AllocError, Global};

/// How strongly an operator binds its operands: a relation least, and an operator between factors most.
#[derive(Clone, Copy, PartialEq, Eq)]
pub struct Strength(u8);

/// What stands on both sides of `:=` binds less than any operator.
pub const ASSIGNMENT: Strength = Strength(0);

const RELATION: Strength = Strength(1);

const TERM: Strength = Strength(2);

const FACTOR: Strength = Strength(3);

/// A variable with its selectors binds more than any operator.
pub const DESIGNATOR: Strength = Strength(4);

/// How strongly a symbol binds, if it is an operator between two operands.
pub fn strength_of(symbol: Symbol) -> Option<Strength> {
    match symbol {
        Symbol::Equal
        | Symbol::Unequal
        | Symbol::Less
        | Symbol::Greater
        | Symbol::AtMost
        | Symbol::AtLeast
        | Symbol::In => Some(RELATION),
        Symbol::Plus | Symbol::Minus | Symbol::Or => Some(TERM),
        Symbol::Star | Symbol::Slash | Symbol::Div | Symbol::Mod | Symbol::And => Some(FACTOR),
        _ => None,
    }
}

/// Whether an operand of this strength ends in front of a symbol that stands outside of its brackets.
fn ends_before(symbol: Symbol, strength: Strength) -> bool {
    match strength_of(symbol) {
        Some(other) => other.0 <= strength.0,
        None => !matches!(symbol, Symbol::Dot | Symbol::Not),
    }
}

/// Whether an operand of this strength begins behind a symbol that stands outside of its brackets.
fn begins_behind(symbol: Symbol, strength: Strength) -> bool {
    match strength_of(symbol) {
        Some(other) => other.0 < strength.0,
        None => match symbol {
            Symbol::Dot => false,
            Symbol::Not => strength == DESIGNATOR,
            _ => true,
        },
    }
}

/// Whether an operand of this strength ends in front of this token, outside of its brackets. A sign may stand at its begin.
fn ends_at(token: &Token, is_first: bool, strength: Strength) -> bool {
    match symbol_of(token) {
        None => token.lexeme == Lexeme::End,
        Some(symbol) => {
            let is_sign = is_first && matches!(symbol, Symbol::Plus | Symbol::Minus);
            !is_sign && !opens(symbol) && !closes(symbol) && ends_before(symbol, strength)
        }
    }
}

/// The number of the token behind an operand of this strength that begins at the token of this number.
pub fn operand_end(tokens: &[Token], from: usize, strength: Strength) -> usize {
    let mut depth = 0;
    for (number, token) in tokens.iter().enumerate() {
        if number >= from {
            if depth == 0 && ends_at(token, number == from, strength) {
                return number;
            }
            match depth_behind(token, depth) {
                Some(behind) => depth = behind,
                None => return number,
            }
        }
    }
    tokens.len()
}

/// The begins of the operands around a token: one for each bracket that is open, the outermost first.
#[derive(Drop)]
struct Begins {
    begins: Vec<usize>,
    last: usize,
}

impl Begins {
    /// What begins behind this token.
    fn pass(&mut self, token: &Token, number: usize, strength: Strength) -> Result<(), AllocError> {
        let behind = number.saturating_add(1);
        if let Some(symbol) = symbol_of(token) {
            if opens(symbol) {
                self.begins.push(self.last)?;
                self.last = behind;
            } else if closes(symbol) {
                self.last = self.begins.pop().unwrap_or(behind);
            } else if begins_behind(symbol, strength) {
                self.last = behind;
            }
        }
        Ok(())
    }
}

/// The number of the token at which the operand of this strength begins that ends in front of the token of this number.
pub fn operand_begin(
    alloc: Global,
    tokens: &[Token],
    to: usize,
    strength: Strength,
) -> Result<usize, AllocError> {
    let mut begins = Begins {
        begins: Vec::new(alloc),
        last: 0,
    };
    for (number, token) in tokens.iter().enumerate() {
        if number < to {
            begins.pass(token, number, strength)?;
        }
    }
    Ok(begins.last)
}
