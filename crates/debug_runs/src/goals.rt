//! What a command goes to.

use crate::breaks::{Break, Places, Statement};
use debug_history::{Frame, Goal, Piece, Record, State};
use std::alloc::{AllocError, Global};

/// How far a command goes.
#[derive(Clone, Copy)]
pub enum Way {
    /// To the next statement.
    Statement,
    /// To the next statement with so many functions at most.
    NoDeeper(usize),
    /// Up to fewer functions.
    Shallower(usize),
    /// To a breakpoint alone.
    Break,
    /// To where so many bytes from an address on changed, or to fewer functions.
    Change(u32, u32, usize),
}

/// What a command goes to: a way, or a breakpoint.
#[derive(Clone, Copy)]
pub struct Goals<'a> {
    pub alloc: Global,
    pub places: Places<'a>,
    pub breaks: &'a [Break],
    pub way: Way,
}

/// Whether bytes that were written changed some of these.
fn is_changed(state: &State, piece: Piece, address: u32, size: u32) -> bool {
    let width = u32::from(piece.width);
    let begin = piece.address.max(address);
    let end = piece
        .address
        .saturating_add(width)
        .min(address.saturating_add(size));
    let before = piece.value.to_le_bytes();
    for at in begin..end {
        let place = at.saturating_sub(piece.address) as usize;
        if before.get(place).map(|byte| *byte) != Some(state.byte(at)) {
            return true;
        }
    }
    false
}

impl Goals<'_> {
    /// The statement to which a function came last.
    fn statement_of(&self, frame: Frame) -> Option<Statement> {
        let function = self.places.names.functions.get(frame.function as usize)?;
        let mark = function.marks.get(frame.mark? as usize)?;
        Some(Statement {
            function: frame.function,
            pos: mark.pos,
        })
    }

    /// The breakpoint at which a run is that came to a statement just now.
    pub fn hit(&self, state: &State) -> Result<Option<u64>, AllocError> {
        let Some(frame) = state.frames.last() else {
            return Ok(None);
        };
        let Some(statement) = self.statement_of(*frame) else {
            return Ok(None);
        };
        for it in self.breaks {
            if it.statement == statement {
                let holds = match &it.condition {
                    None => true,
                    Some(condition) => {
                        self.places
                            .views
                            .holds(self.alloc, state, Some(*frame), condition)?
                    }
                };
                if holds {
                    return Ok(Some(it.number));
                }
            }
        }
        Ok(None)
    }

    /// Whether the way ends here.
    fn is_way_over(&self, state: &State, record: Record) -> bool {
        let depth = state.frames.len();
        match self.way {
            Way::Statement => matches!(record, Record::Met(_)),
            Way::NoDeeper(most) => matches!(record, Record::Met(_)) && depth <= most,
            Way::Shallower(most) => depth < most,
            Way::Break => false,
            Way::Change(address, size, least) => match record {
                Record::Wrote(piece) => is_changed(state, piece, address, size),
                _ => depth < least,
            },
        }
    }
}

impl Goal for Goals<'_> {
    fn is_met(&self, state: &State, record: Record) -> Result<bool, AllocError> {
        if self.is_way_over(state, record) {
            return Ok(true);
        }
        if self.breaks.is_empty() || !matches!(record, Record::Met(_)) {
            return Ok(false);
        }
        Ok(self.hit(state)?.is_some())
    }
}
