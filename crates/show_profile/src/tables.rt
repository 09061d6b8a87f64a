//! What ran, as tables.

use crate::lines::{Line, lines_of, procedures_of};
use build_jobs::SourceFile;
use explain_runs::{Counted, Tally};
use std::alloc::{AllocError, Global};
use std::fmt::Write;
use text_tokens::{part, shorten};

/// The text of the line at a byte, without the blanks at its ends.
fn text_at(alloc: Global, text: &[u8], offset: usize) -> Result<String, AllocError> {
    let behind = part(text, offset, text.len());
    let end = match behind.iter().position(|byte| *byte == b'\n') {
        Some(count) => offset.saturating_add(count),
        None => text.len(),
    };
    String::from_utf8_lossy(alloc, &shorten(alloc, part(text, offset, end))?)
}

/// Writes a row.
fn push_row(text: &mut String, tally: Tally, name: &str) -> Result<(), AllocError> {
    let Tally { times, reductions } = tally;
    write!(text, "{reductions:>14} {times:>12}  {name}\n")
}

/// The place and the text of a line.
fn name_of(alloc: Global, files: &[SourceFile], line: &Line) -> Result<String, AllocError> {
    let Some(file) = files.get(line.file) else {
        return Ok(String::new(alloc));
    };
    let text = text_at(alloc, &file.bytes, line.offset)?;
    let (name, number) = (&file.name, line.line);
    format!(in alloc; "{name}:{number}  {text}")
}

/// Writes the procedures that ran, most reductions first.
fn push_procedures(alloc: Global, text: &mut String, counted: &Counted) -> Result<(), AllocError> {
    let mut rows = procedures_of(alloc, counted)?;
    rows.sort_by_key(|row| u64::MAX - row.tally.reductions)?;
    for row in &rows {
        if row.tally.times > 0 {
            push_row(text, row.tally, row.of.name.as_str())?;
        }
    }
    Ok(())
}

/// The reductions and the times of each procedure that ran, most reductions first, and of each line. The only error is that memory
/// ran out.
pub fn profile_table(
    alloc: Global,
    files: &[SourceFile],
    counted: &Counted,
) -> Result<String, AllocError> {
    let mut text = String::from_str(alloc, "    reductions        times  procedure\n")?;
    push_procedures(alloc, &mut text, counted)?;
    text.push_str("    reductions        times  line\n")?;
    for line in &lines_of(alloc, counted)? {
        push_row(&mut text, line.tally, name_of(alloc, files, line)?.as_str())?;
    }
    Ok(text)
}

/// The lines on which nothing ran, and how many ran. The only error is that memory ran out.
pub fn coverage_table(
    alloc: Global,
    files: &[SourceFile],
    counted: &Counted,
) -> Result<String, AllocError> {
    let lines = lines_of(alloc, counted)?;
    let mut text = String::new(alloc);
    let mut ran: usize = 0;
    for line in &lines {
        if line.tally.times > 0 {
            ran = ran.saturating_add(1);
        } else {
            let name = name_of(alloc, files, line)?;
            write!(text, "never ran: {name}\n")?;
        }
    }
    let all = lines.len();
    write!(text, "{ran} of {all} lines ran\n")?;
    Ok(text)
}
