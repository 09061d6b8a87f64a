//! The text of a map.

use crate::map::{Map, Mapped};
use crate::sums::sum_of;
use std::alloc::{AllocError, Global};
use std::fmt::Write;

/// What the first line of each version begins with.
pub const KIND: &str = "m2c map ";

/// The version of this form.
pub const VERSION: &str = "1";

/// What the last line begins with.
pub const LAST: &str = "end ";

/// The words with which the lines of functions begin.
pub const BODY: &str = "body";

pub const PROCEDURE: &str = "procedure";

/// Puts the lines that each map has once.
fn push_head(page: &mut String, map: &Map) -> Result<(), AllocError> {
    write!(*page, "{KIND}{VERSION}\nmodule {}\n", map.module)?;
    write!(*page, "code {} {}\n", map.length, map.code_sum)?;
    write!(*page, "source {} {}\n", map.source_sum, map.source)
}

/// Puts the line of a function.
fn push_heading(page: &mut String, function: &Mapped) -> Result<(), AllocError> {
    let word = if function.is_body { BODY } else { PROCEDURE };
    let (number, pos) = (function.number, function.pos);
    write!(
        *page,
        "{word} {} {number} {} {}\n",
        function.name, pos.line, pos.col
    )
}

/// Puts the lines of a function.
fn push_function(page: &mut String, function: &Mapped) -> Result<(), AllocError> {
    push_heading(page, function)?;
    for row in &function.rows {
        let pos = row.pos;
        write!(
            *page,
            "{} {} {} {}\n",
            row.offset, row.number, pos.line, pos.col
        )?;
    }
    Ok(())
}

/// The text of a file M.map. The only error is that memory ran out.
pub fn write_map(alloc: Global, map: &Map) -> Result<String, AllocError> {
    let mut page = String::new(alloc);
    push_head(&mut page, map)?;
    for function in &map.functions {
        push_function(&mut page, function)?;
    }
    let sum = sum_of(alloc, page.as_bytes())?;
    write!(page, "{LAST}{sum}\n")?;
    Ok(page)
}
