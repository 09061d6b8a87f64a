//! The sides of a refused place, and where its text may be changed.

use crate::texts::Text;
use m2_tree::{Symbol, Token};
use std::alloc::{AllocError, Global};
use text_tokens::{
    ASSIGNMENT, DESIGNATOR, Front, bytes_between, front_of, offset_of, operand_begin, operand_end,
    strength_of, symbol_of,
};

/// Where a text may be changed.
#[derive(Clone, Copy)]
pub struct Spots {
    /// In front of which byte a procedure may be declared.
    pub body: usize,
    /// In front of which byte a statement may be put.
    pub front: usize,
    /// Whether a semicolon has to stand before this statement.
    pub is_condition: bool,
}

/// A part of a text, by the numbers of tokens: the first, and the one behind the last.
#[derive(Clone, Copy)]
pub struct Side {
    pub from: usize,
    pub to: usize,
}

impl Side {
    /// The bytes of this part.
    pub fn bytes<'a>(&self, text: Text<'a>) -> &'a [u8] {
        bytes_between(text.bytes, text.tokens, self.from, self.to)
    }

    /// Whether it has no token.
    pub fn is_empty(&self) -> bool {
        self.from >= self.to
    }

    /// Whether it is one token.
    pub fn is_single(&self) -> bool {
        self.from.saturating_add(1) == self.to
    }
}

/// What stands on both sides of an operator or an assignment.
#[derive(Clone, Copy)]
pub struct Sides {
    pub left: Side,
    pub right: Side,
}

/// The sides of what stands at a token, if the left one begins and the right one ends so.
fn around(begin: usize, at: usize, end: usize) -> Sides {
    Sides {
        left: Side {
            from: begin,
            to: at,
        },
        right: Side {
            from: at.saturating_add(1),
            to: end,
        },
    }
}

/// The sides of an operator.
pub fn operator_sides(
    alloc: Global,
    tokens: &[Token],
    at: usize,
) -> Result<Option<Sides>, AllocError> {
    let Some(token) = tokens.get(at) else {
        return Ok(None);
    };
    let Some(strength) = symbol_of(token).and_then(strength_of) else {
        return Ok(None);
    };
    let end = operand_end(tokens, at.saturating_add(1), strength);
    let begin = operand_begin(alloc, tokens, at, strength)?;
    Ok(Some(around(begin, at, end)))
}

/// The value that begins at the token of this number.
pub fn value_side(tokens: &[Token], at: usize) -> Side {
    Side {
        from: at,
        to: operand_end(tokens, at, ASSIGNMENT),
    }
}

/// The operand of a NOT or a sign that begins at the token of this number.
pub fn operand_side(tokens: &[Token], at: usize) -> Side {
    Side {
        from: at,
        to: operand_end(tokens, at, DESIGNATOR),
    }
}

/// The number of the last BEGIN in front of a token.
fn begin_before(tokens: &[Token], at: usize) -> Option<usize> {
    let mut begin = None;
    for (number, token) in tokens.iter().enumerate() {
        if number < at && symbol_of(token) == Some(Symbol::Begin) {
            begin = Some(number);
        }
    }
    begin
}

/// In front of which byte the token of this number stands.
fn byte_of(text: Text<'_>, number: usize) -> Option<usize> {
    Some(offset_of(text.bytes, text.tokens.get(number)?.pos))
}

/// Where a text may be changed in front of the statement that has the token of this number.
pub fn spots_at(text: Text<'_>, at: usize) -> Option<Spots> {
    let Front {
        token,
        is_condition,
    } = front_of(text.tokens, at)?;
    Some(Spots {
        body: byte_of(text, begin_before(text.tokens, token)?)?,
        front: byte_of(text, token)?,
        is_condition,
    })
}
