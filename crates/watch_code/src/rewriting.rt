//! Code with operations added in front of others. The numbers that say how many operations stand inside of one are mended.

use crate::signals::{PUT, byte_op};
use std::alloc::{AllocError, Global};
use wasm_tree::Op;

/// Code in the making.
#[derive(Drop)]
pub struct Rewriting {
    made: Vec<Op>,
    /// How many operations stand in front of what is made of each.
    begins: Vec<usize>,
}

/// A number of operations.
fn count_between(from: usize, to: usize) -> u32 {
    u32::try_from(to.saturating_sub(from)).unwrap_or(u32::MAX)
}

impl Rewriting {
    /// No code.
    pub fn new(alloc: Global) -> Rewriting {
        Rewriting {
            made: Vec::new(alloc),
            begins: Vec::new(alloc),
        }
    }

    /// What follows is made of the next operation.
    pub fn begin(&mut self) -> Result<(), AllocError> {
        self.begins.push(self.made.len())?;
        Ok(())
    }

    /// Puts an operation at the end.
    pub fn put(&mut self, op: Op) -> Result<(), AllocError> {
        self.made.push(op)?;
        Ok(())
    }

    /// Puts operations that print bytes.
    pub fn signal(&mut self, bytes: &[u8]) -> Result<(), AllocError> {
        for byte in bytes {
            self.put(byte_op(*byte))?;
            self.put(Op::Call(PUT))?;
        }
        Ok(())
    }

    /// The last operation.
    pub fn last(&self) -> Option<Op> {
        self.made.last().map(|op| *op)
    }

    /// In front of which operation stands what is made of the operation of this number.
    fn begin_of(&self, number: usize) -> usize {
        match self.begins.get(number) {
            Some(begin) => *begin,
            None => self.made.len(),
        }
    }

    /// How many operations are made of so many from one on.
    fn span(&self, from: usize, count: u32) -> u32 {
        let to = from.saturating_add(count as usize);
        count_between(self.begin_of(from), self.begin_of(to))
    }

    /// The operation of this number with mended numbers, if it has some.
    fn mended(&self, number: usize, op: Op) -> Option<Op> {
        let inside = number.saturating_add(1);
        match op {
            Op::Block(given, count) => Some(Op::Block(given, self.span(inside, count))),
            Op::Loop(given, count) => Some(Op::Loop(given, self.span(inside, count))),
            Op::If(given, count) => Some(Op::If(given, self.span(inside, count))),
            Op::IfElse(given, count, others) => {
                let behind = inside.saturating_add(count as usize);
                let first = self.span(inside, count);
                Some(Op::IfElse(given, first, self.span(behind, others)))
            }
            _ => None,
        }
    }

    /// Mends the operation of this number, if it still stands there as the last of what is made of it.
    fn mend(&mut self, number: usize, op: Op) {
        let begin = self.begin_of(number);
        let end = self.begin_of(number.saturating_add(1));
        if begin >= end {
            return;
        }
        if let Some(mended) = self.mended(number, op) {
            if let Some(place) = self.made.get_mut(end.saturating_sub(1)) {
                *place = mended;
            }
        }
    }

    /// The code that is made of these operations, each of which had its begin. The last of what is made of one is it.
    pub fn finish(mut self, ops: &[Op]) -> Vec<Op> {
        for (number, op) in ops.iter().enumerate() {
            self.mend(number, *op);
        }
        let Rewriting { made, .. } = self;
        made
    }
}
