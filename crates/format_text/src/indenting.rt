//! Pieces, with the spaces in front of them.

use crate::nest::Nest;
use crate::pieces::{Kind, Piece};
use crate::spacing::{is_sign, spaces_between};
use std::alloc::{AllocError, Global};

/// A piece, and where it is to stand.
#[derive(Clone, Copy)]
pub struct Placed<'a> {
    pub piece: Piece<'a>,
    /// The level of the line, if the piece begins one.
    pub level: usize,
    /// The spaces in front of it, if it begins no line.
    pub spaces: usize,
}

/// The level of a line that begins with this piece.
fn level_of(nest: &Nest, piece: &Piece<'_>) -> usize {
    match piece.kind {
        Kind::Comment(next) => nest.comment_level(next),
        _ => nest.level(piece.symbol()),
    }
}

/// Where each of these pieces is to stand.
pub fn place_all<'a>(alloc: Global, pieces: &[Piece<'a>]) -> Result<Vec<Placed<'a>>, AllocError> {
    let mut placed = Vec::new(alloc);
    let mut nest = Nest::new(alloc);
    let mut before = Piece {
        bytes: b"",
        kind: Kind::Comment(None),
        breaks: 0,
        blanks: 0,
    };
    let mut is_behind_sign = false;
    for piece in pieces {
        let spaces = spaces_between(&before, piece);
        placed.push(Placed {
            piece: *piece,
            level: level_of(&nest, piece),
            spaces: if is_behind_sign { 0 } else { spaces },
        })?;
        is_behind_sign = is_sign(&before, piece);
        if !piece.is_comment() {
            nest.pass(piece.symbol())?;
        }
        before = *piece;
    }
    Ok(placed)
}
