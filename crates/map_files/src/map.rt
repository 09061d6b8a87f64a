//! What a map says.

use crate::sums::sum_of;
use m2_tree::Pos;
use std::alloc::{AllocError, Global};

/// From here on the code of a function comes of a statement, up to the next row of the function.
#[derive(Clone, Copy, PartialEq, Eq)]
pub struct Row {
    /// The byte of the module's file with which the code begins, from 0.
    pub offset: u32,
    /// The number of the instruction in the function, from 0. Instructions are counted in the order of the code, each label of a
    /// `br_table` but the last as one more.
    pub number: u32,
    /// The place of the statement in the source.
    pub pos: Pos,
}

/// A function of a module that is a procedure, or the module's body.
#[derive(Drop)]
pub struct Mapped {
    /// The number of the function in the module.
    pub number: u32,
    pub is_body: bool,
    /// The name of the procedure, or of the module.
    pub name: String,
    /// The place of this name in the source. The code in front of the first row comes of the heading.
    pub pos: Pos,
    /// The rows, in the order of the code.
    pub rows: Vec<Row>,
}

/// What a file M.map says.
#[derive(Drop)]
pub struct Map {
    /// The name of the module.
    pub module: String,
    /// How many bytes the file M.wasm has, and their checksum.
    pub length: u64,
    pub code_sum: String,
    /// The file of the source, as it was named for the compiler, and its checksum.
    pub source: String,
    pub source_sum: String,
    /// The body, and the procedures behind it.
    pub functions: Vec<Mapped>,
}

impl Map {
    /// Whether this is the map of the module with these bytes. The only error is that memory ran out.
    pub fn is_of(&self, alloc: Global, code: &[u8]) -> Result<bool, AllocError> {
        if self.length != code.len() as u64 {
            return Ok(false);
        }
        let sum = sum_of(alloc, code)?;
        Ok(sum.as_bytes() == self.code_sum.as_bytes())
    }

    /// Whether the map was made of a source with these bytes. The only error is that memory ran out.
    pub fn is_from(&self, alloc: Global, source: &[u8]) -> Result<bool, AllocError> {
        let sum = sum_of(alloc, source)?;
        Ok(sum.as_bytes() == self.source_sum.as_bytes())
    }
}
