//! The declarations of a definition module, with the comments that belong to them.

use crate::pieces::{Piece, What};
use m2_tree::Symbol;
use std::alloc::{AllocError, Global};

/// What a part of a definition module is.
#[derive(Clone, Copy, PartialEq, Eq)]
pub enum Sort {
    /// The words in front of the first semicolon.
    Heading,
    Import,
    Constant,
    Type,
    Variables,
    Procedure,
    /// The words behind the last semicolon.
    End,
}

impl Sort {
    /// Whether names are exported by it.
    pub fn is_export(self) -> bool {
        !matches!(self, Sort::Heading | Sort::Import | Sort::End)
    }
}

/// A part of a definition module, by the numbers of pieces.
#[derive(Clone, Copy)]
pub struct Unit {
    pub sort: Sort,
    /// The first piece that is not farther in front of it than its comments.
    pub front: usize,
    pub begin: usize,
    /// The piece behind its last token, or behind a comment in its last line if it has several.
    pub end: usize,
    /// The piece behind the comments that follow.
    pub behind: usize,
}

/// A walk through pieces: the section that is open, and the unit.
#[derive(Clone, Copy)]
struct Walk {
    section: Sort,
    open: Option<(Sort, usize)>,
    depth: usize,
}

/// What begins with a symbol where no unit is open.
fn sort_begun(symbol: Symbol) -> Option<Sort> {
    match symbol {
        Symbol::Definition => Some(Sort::Heading),
        Symbol::From | Symbol::Import => Some(Sort::Import),
        Symbol::Procedure => Some(Sort::Procedure),
        Symbol::End => Some(Sort::End),
        _ => None,
    }
}

/// The section that a symbol begins.
fn section_begun(symbol: Symbol) -> Option<Sort> {
    match symbol {
        Symbol::Const => Some(Sort::Constant),
        Symbol::Type => Some(Sort::Type),
        Symbol::Var => Some(Sort::Variables),
        _ => None,
    }
}

/// The walk behind a piece where no unit is open.
fn opened(walk: Walk, what: What, number: usize) -> Walk {
    match what {
        What::Name => Walk {
            open: Some((walk.section, number)),
            ..walk
        },
        What::Symbol(symbol) => Walk {
            section: section_begun(symbol).unwrap_or(walk.section),
            open: sort_begun(symbol).map(|sort| (sort, number)),
            depth: 0,
        },
        What::Comment | What::Literal => walk,
    }
}

/// How many brackets and records are open behind a piece.
fn depth_behind(depth: usize, what: What) -> usize {
    match what {
        What::Symbol(Symbol::LeftParen | Symbol::Record) => depth.saturating_add(1),
        What::Symbol(Symbol::RightParen | Symbol::End) => depth.saturating_sub(1),
        _ => depth,
    }
}

/// Whether a unit ends with a piece.
fn is_last(sort: Sort, depth: usize, what: What) -> bool {
    match what {
        What::Symbol(Symbol::Semicolon) => depth == 0,
        What::Symbol(Symbol::Dot) => sort == Sort::End,
        _ => false,
    }
}

/// The units, from each its tokens alone.
fn bare_units(alloc: Global, pieces: &[Piece]) -> Result<Vec<Unit>, AllocError> {
    let mut units = Vec::new(alloc);
    let mut walk = Walk {
        section: Sort::Constant,
        open: None,
        depth: 0,
    };
    for (number, piece) in pieces.iter().enumerate() {
        let Some((sort, begin)) = walk.open else {
            walk = opened(walk, piece.what, number);
            continue;
        };
        walk.depth = depth_behind(walk.depth, piece.what);
        if is_last(sort, walk.depth, piece.what) {
            let end = number.saturating_add(1);
            units.push(Unit {
                sort,
                front: begin,
                begin,
                end,
                behind: end,
            })?;
            walk.open = None;
            walk.depth = 0;
        }
    }
    Ok(units)
}

/// Whether the piece of this number stands behind an empty line.
fn is_apart(pieces: &[Piece], number: usize) -> bool {
    pieces.get(number).is_none_or(|piece| piece.is_apart)
}

/// The piece behind the comments that follow here, up to the first empty line.
fn behind_comments(pieces: &[Piece], from: usize) -> usize {
    for number in from..pieces.len() {
        let is_near = pieces
            .get(number)
            .is_some_and(|it| it.is_comment() && !it.is_apart);
        if !is_near {
            return number;
        }
    }
    pieces.len().max(from)
}

/// The piece behind the comments of a heading. One that would stand alone is one of them.
fn behind_heading(pieces: &[Piece], end: usize) -> usize {
    let behind = behind_comments(pieces, end);
    let next = end.saturating_add(1);
    let is_alone = pieces.get(end).is_some_and(|piece| piece.is_comment())
        && is_apart(pieces, next);
    if behind == end && is_alone {
        return next;
    }
    behind
}

/// The first piece from a place on behind which no empty line stands up to a unit.
fn front_of(pieces: &[Piece], from: usize, begin: usize) -> usize {
    let mut front = from;
    for number in from..begin.saturating_add(1) {
        if is_apart(pieces, number) {
            front = number;
        }
    }
    front
}

/// The piece behind a unit. If it has several lines, a comment in the last of them is a part of it.
fn end_of(pieces: &[Piece], unit: &Unit) -> usize {
    let last = unit.end.saturating_sub(1);
    match (
        pieces.get(unit.begin),
        pieces.get(last),
        pieces.get(unit.end),
    ) {
        (Some(first), Some(last), Some(next)) => {
            let is_within = next.is_comment() && next.line() == last.line();
            if is_within && first.line() != last.line() {
                unit.end.saturating_add(1)
            } else {
                unit.end
            }
        }
        _ => unit.end,
    }
}

/// The unit with its comments, where those of the unit in front end at this piece.
fn with_comments(pieces: &[Piece], unit: Unit, from: usize) -> Unit {
    let end = end_of(pieces, &unit);
    Unit {
        end,
        front: match unit.sort {
            Sort::Heading => 0,
            Sort::End => unit.begin,
            _ => front_of(pieces, from, unit.begin),
        },
        behind: match unit.sort {
            Sort::Heading => behind_heading(pieces, end),
            _ => behind_comments(pieces, end),
        },
        ..unit
    }
}

/// The parts of a definition module, with their comments.
pub fn units_of(alloc: Global, pieces: &[Piece]) -> Result<Vec<Unit>, AllocError> {
    let mut units = Vec::new(alloc);
    let mut from = 0usize;
    for bare in &bare_units(alloc, pieces)? {
        let unit = with_comments(pieces, *bare, from);
        from = unit.behind;
        units.push(unit)?;
    }
    Ok(units)
}
