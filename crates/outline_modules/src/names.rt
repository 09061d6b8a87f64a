//! The names that a declaration exports.

use crate::pieces::{Piece, What};
use crate::units::{Sort, Unit};
use m2_tree::Symbol;
use std::alloc::{AllocError, Global};

/// The pieces of a unit, by their numbers.
fn numbers_of(unit: &Unit) -> std::ops::Range<usize> {
    unit.begin..unit.end
}

/// The names of a declaration itself: one, or those of the variables of a list.
pub fn own_names(alloc: Global, pieces: &[Piece], unit: &Unit) -> Result<Vec<usize>, AllocError> {
    let mut names = Vec::new(alloc);
    for number in numbers_of(unit) {
        match pieces.get(number).map(|piece| piece.what) {
            Some(What::Name) => {
                names.push(number)?;
                if unit.sort != Sort::Variables {
                    break;
                }
            }
            Some(What::Symbol(Symbol::Colon)) => break,
            _ => {}
        }
    }
    Ok(names)
}

/// Whether the names of an enumeration stand in a bracket behind this symbol.
fn stands_before_enumeration(symbol: Symbol) -> bool {
    matches!(
        symbol,
        Symbol::Equal | Symbol::Of | Symbol::Colon | Symbol::Array | Symbol::Comma
    )
}

/// A walk through a type: the symbol that it has passed, the square brackets that are open, and whether an enumeration is.
#[derive(Clone, Copy)]
struct Walk {
    before: Option<Symbol>,
    depth: usize,
    is_inside: bool,
}

impl Walk {
    /// The walk behind a piece.
    fn behind(self, what: What) -> Walk {
        let symbol = match what {
            What::Comment => return self,
            What::Symbol(symbol) => Some(symbol),
            What::Name | What::Literal => None,
        };
        Walk {
            before: symbol,
            depth: match symbol {
                Some(Symbol::LeftBracket) => self.depth.saturating_add(1),
                Some(Symbol::RightBracket) => self.depth.saturating_sub(1),
                _ => self.depth,
            },
            is_inside: match symbol {
                Some(Symbol::LeftParen) => {
                    self.depth == 0 && self.before.is_some_and(stands_before_enumeration)
                }
                Some(Symbol::RightParen) => false,
                _ => self.is_inside,
            },
        }
    }
}

/// The constants of the enumerations of a declaration.
pub fn enumerated(alloc: Global, pieces: &[Piece], unit: &Unit) -> Result<Vec<usize>, AllocError> {
    let mut names = Vec::new(alloc);
    let mut walk = Walk {
        before: None,
        depth: 0,
        is_inside: false,
    };
    if !matches!(unit.sort, Sort::Type | Sort::Variables) {
        return Ok(names);
    }
    for number in numbers_of(unit) {
        if let Some(piece) = pieces.get(number) {
            walk = walk.behind(piece.what);
            if walk.is_inside && piece.is_name() {
                names.push(number)?;
            }
        }
    }
    Ok(names)
}
