//! How many bytes operations take.

use std::alloc::Global;
use wasm_code::{Writer, write_code};
use wasm_tree::{EncodeError, Op, split_ops};

/// How many bytes stand in front of what is inside of a block: its opcode and its type.
const BLOCK: usize = 2;

/// How many bytes the end of code takes.
const END: usize = 1;

/// Measures operations, one behind another.
#[derive(Drop)]
pub struct Ruler {
    out: Writer,
    /// How many operations that come next are labels of a table.
    labels: u32,
}

impl Ruler {
    /// Nothing is measured.
    pub fn new(alloc: Global) -> Ruler {
        Ruler {
            out: Writer::new(alloc),
            labels: 0,
        }
    }

    /// How many bytes this code takes without its end.
    fn length(&mut self, code: &[Op]) -> Result<usize, EncodeError> {
        let before = self.out.len().saturating_add(END);
        write_code(&mut self.out, code)?;
        Ok(self.out.len().saturating_sub(before))
    }

    /// How many bytes the first of these operations takes, without what is inside of it. The labels of a table are a part of it.
    pub fn first(&mut self, ops: &[Op]) -> Result<usize, EncodeError> {
        if self.labels > 0 {
            self.labels = self.labels.saturating_sub(1);
            return Ok(0);
        }
        match ops.first().map(|op| *op) {
            None => Ok(0),
            Some(Op::Block(_, _) | Op::Loop(_, _) | Op::If(_, _) | Op::IfElse(_, _, _)) => Ok(
                BLOCK,
            ),
            Some(Op::BrTable(count, _)) => {
                self.labels = count;
                self.length(split_ops(ops, count.saturating_add(1)).0)
            }
            Some(_) => self.length(split_ops(ops, 1).0),
        }
    }
}
