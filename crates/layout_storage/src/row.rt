//! Parts that stand one after another.

ghost use Rattle.std.specs.Prelude.{◌≡◌, ◌+◌, ◌∷◌, [], ℕ, List, map, IfOk};
ghost use Rattle.layout_storage.specs.Capped.{cap_size};
ghost use Rattle.layout_storage.specs.Types.{Ty, row as row_type};
ghost use Rattle.layout_storage.specs.Sizes.{size, offset};
ghost use Rattle.layout_storage.specs.Extents.{begin_row, with_part, row_of, start_in};

use crate::capped::sum;
use std::alloc::{AllocError, Global};
use tree_parts::Items;

/// The parts of a record, of a module's variables, or of a frame.
#[derive(Drop)]
pub struct Row {
    /// Where each part begins.
    pub starts: Items<u32>,
    /// Where the last part ends.
    pub size: u32,
}

/// A row without parts, which begins here.
pub fn begin_row(alloc: Global, at: u32) -> Row
    ensures { result ≡ begin_row at }
{
    Row {
        starts: Items::new(alloc),
        size: at,
    }
}

/// The row with one more part of this size. The only error is that memory ran out.
pub fn with_part(row: Row, part: u32) -> Result<Row, AllocError>
    ensures { IfOk result (λ r. r ≡ with_part row part) }
{
    let Row { mut starts, size } = row;
    starts.push(size)?;
    Ok(Row {
        starts,
        size: sum(size, part),
    })
}

fn start_in(row: &Row, part: usize) -> u32
    ensures { result ≡ start_in row.now part }
{
    match row.starts.get(part) {
        None => row.size,
        Some(start) => *start,
    }
}

/// Where a part begins, and of one that is not there where the last ends.
pub fn start_of(row: &Row, part: usize) -> u32
    ensures start { result ≡ start_in row.now part }
    ensures offset { (at : ℕ) (ts : List Ty) → row.now ≡ row_of at (map size ts)
        → result ≡ cap_size (at + offset (row_type ts) (part ∷ [])) }
{
    start_in(row, part)
}
