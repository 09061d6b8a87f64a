//! A walk over the code of a function and the same code with marks, side by side.

use crate::sizes::Ruler;
use m2_tree::Pos;
use map_files::Row;
use mark_statements::{Mark, MarkKind};
use std::alloc::{AllocError, Global};
use wasm_tree::{EncodeError, Op};
use watch_code::{MARK_OPERATIONS, is_mark};

/// A block in which the walk is.
#[derive(Clone, Copy)]
struct Block {
    /// The number of the operation behind it, among those with marks.
    end: usize,
    /// Whether it is the first side of an IF, behind which the other stands.
    is_side: bool,
    /// The place of the statement that it is a part of.
    pos: Pos,
}

/// Where the walk is.
#[derive(Drop)]
struct Walk<'a> {
    code: &'a [Op],
    marked: &'a [Op],
    marks: &'a [Mark],
    ruler: Ruler,
    rows: Vec<Row>,
    blocks: Vec<Block>,
    /// The place of the statement from which the code comes here.
    pos: Pos,
    /// How many operations of the code were come to, and in front of which byte of the file the next one stands.
    number: usize,
    offset: usize,
    /// How many marks were come to.
    met: usize,
    /// How many operations of a mark are still passed over.
    passed: usize,
    /// Whether both codes were alike up to here.
    is_alike: bool,
}

/// Whether operations are the same, but for how many others stand inside of them.
fn are_alike(op: Op, other: Op) -> bool {
    match (op, other) {
        (Op::Block(kind, _), Op::Block(same, _))
        | (Op::Loop(kind, _), Op::Loop(same, _))
        | (Op::If(kind, _), Op::If(same, _))
        | (Op::IfElse(kind, _, _), Op::IfElse(same, _, _)) => kind == same,
        _ => op == other,
    }
}

/// A number of a row.
fn small(number: usize) -> u32 {
    u32::try_from(number).unwrap_or(u32::MAX)
}

impl Walk<'_> {
    /// From here on the code comes of the statement at a place.
    fn put_row(&mut self, pos: Pos) -> Result<(), AllocError> {
        self.pos = pos;
        let row = Row {
            offset: small(self.offset),
            number: small(self.number),
            pos,
        };
        match self.rows.last_mut() {
            Some(last) if last.number == row.number => *last = row,
            _ => self.rows.push(row)?,
        }
        Ok(())
    }

    /// The kind of the next mark.
    fn next_kind(&self) -> Option<MarkKind> {
        self.marks.get(self.met).map(|mark| mark.kind)
    }

    /// The next mark is come to.
    fn meet(&mut self) -> Result<(), AllocError> {
        match self.marks.get(self.met).map(|mark| mark.pos) {
            Some(pos) => self.put_row(pos)?,
            None => self.is_alike = false,
        }
        self.met = self.met.saturating_add(1);
        Ok(())
    }

    /// A block is left. Behind it the code comes of the statement of which the block is a part.
    fn leave(&mut self, block: Block) -> Result<(), AllocError> {
        self.offset = self.offset.saturating_add(1);
        if block.pos != self.pos {
            self.put_row(block.pos)?;
        }
        if block.is_side && self.next_kind() == Some(MarkKind::Condition) {
            self.meet()?;
        }
        Ok(())
    }

    /// The blocks that end in front of the operation of this number are left.
    fn leave_all(&mut self, at: usize) -> Result<(), AllocError> {
        for _ in 0..self.blocks.len() {
            match self.blocks.last().map(|it| *it) {
                Some(block) if block.end <= at => {
                    let _ = self.blocks.pop();
                    self.leave(block)?;
                }
                _ => break,
            }
        }
        Ok(())
    }

    /// A block begins that ends here.
    fn enter(&mut self, end: usize, is_side: bool) -> Result<(), AllocError> {
        let pos = self.pos;
        self.blocks.push(Block { end, is_side, pos })?;
        Ok(())
    }

    /// The operation of this number may begin blocks.
    fn enter_all(&mut self, at: usize, op: Op) -> Result<(), AllocError> {
        let inside = at.saturating_add(1);
        match op {
            Op::Block(_, count) | Op::Loop(_, count) | Op::If(_, count) => {
                self.enter(inside.saturating_add(count as usize), false)
            }
            Op::IfElse(kind, count, others) => {
                let side = inside.saturating_add(count as usize);
                self.enter(side.saturating_add(others as usize), false)?;
                self.enter(side, kind.is_none() && others > 0)
            }
            _ => Ok(()),
        }
    }

    /// An operation that is no part of a mark.
    fn pass_op(&mut self, at: usize, op: Op) -> Result<(), EncodeError> {
        let is_same = self
            .code
            .get(self.number)
            .is_some_and(|it| are_alike(*it, op));
        self.is_alike = self.is_alike && is_same;
        let marked = self.marked;
        let size = self.ruler.first(&marked[at.min(marked.len())..])?;
        self.number = self.number.saturating_add(1);
        self.offset = self.offset.saturating_add(size);
        self.enter_all(at, op)?;
        Ok(())
    }

    /// The operation of this number among those with marks.
    fn pass(&mut self, at: usize, op: Op) -> Result<(), EncodeError> {
        if self.passed > 0 {
            self.passed = self.passed.saturating_sub(1);
            return Ok(());
        }
        self.leave_all(at)?;
        if is_mark(self.marked, at) {
            self.is_alike = self.is_alike && self.next_kind() != Some(MarkKind::Condition);
            self.passed = MARK_OPERATIONS.saturating_sub(1);
            self.meet()?;
            return Ok(());
        }
        self.pass_op(at, op)
    }

    /// All operations.
    fn pass_all(&mut self) -> Result<(), EncodeError> {
        let marked = self.marked;
        for (at, op) in marked.iter().enumerate() {
            self.pass(at, *op)?;
        }
        Ok(())
    }
}

/// The rows of a function whose name stands at a place. Its code begins with this byte of the file. The marked code is the same code
/// with these marks. Nothing if it is not.
///
/// An error if memory ran out. The code of a module has an encoding.
pub fn rows_of(
    alloc: Global,
    pos: Pos,
    begin: usize,
    code: &[Op],
    marked: &[Op],
    marks: &[Mark],
) -> Result<Option<Vec<Row>>, EncodeError> {
    let mut walk = Walk {
        code,
        marked,
        marks,
        ruler: Ruler::new(alloc),
        rows: Vec::new(alloc),
        blocks: Vec::new(alloc),
        pos,
        number: 0,
        offset: begin,
        met: 0,
        passed: 0,
        is_alike: true,
    };
    walk.pass_all()?;
    if !walk.is_alike || walk.number != code.len() || walk.met != marks.len() {
        return Ok(None);
    }
    let Walk { rows, .. } = walk;
    let mut rows = rows;
    rows.retain(|row| (row.number as usize) < code.len());
    Ok(Some(rows))
}
