//! The source, with what ran in front of each line.

use crate::lines::{Line, lines_of};
use build_jobs::SourceFile;
use explain_runs::{Counted, Tally};
use std::alloc::{AllocError, Global};
use std::fmt::Write;

/// What stands in front of a line on which nothing can run: as many blanks as two counts take.
const BARE: &str = "                           ";

/// Writes a line of a text, with what ran on it.
fn push_line(
    alloc: Global,
    page: &mut String,
    line: Option<&Line>,
    number: usize,
    text: &[u8],
) -> Result<(), AllocError> {
    match line {
        Some(line) => {
            let Tally { times, reductions } = line.tally;
            write!(page, "{reductions:>14} {times:>12}")?;
        }
        None => page.push_str(BARE)?,
    }
    let text = String::from_utf8_lossy(alloc, text.trim_ascii_end())?;
    write!(page, " {number:>6}  {text}\n")
}

/// Writes the text of a file, of which these are the lines on which something can run.
fn push_file(
    alloc: Global,
    page: &mut String,
    file: &SourceFile,
    lines: &[Line],
) -> Result<(), AllocError> {
    let mut left = lines;
    let name = &file.name;
    write!(page, "    reductions        times  {name}\n")?;
    for (number, text) in file.bytes.split(|byte| *byte == b'\n').enumerate() {
        let number = number.saturating_add(1);
        match left {
            [line, others @ ..] if line.line as usize == number => {
                push_line(alloc, page, Some(line), number, text)?;
                left = others;
            }
            _ => push_line(alloc, page, None, number, text)?,
        }
    }
    Ok(())
}

/// The lines of the file of this number, which stand first, and those of the others.
fn split_lines(lines: &[Line], file: usize) -> (&[Line], &[Line]) {
    let count = lines.iter().take_while(|line| line.file == file).count();
    lines.split_at(count.min(lines.len()))
}

/// The source of the files in which something can run, with the reductions and the times of each line in front of it.
pub fn counted_source(
    alloc: Global,
    files: &[SourceFile],
    counted: &Counted,
) -> Result<String, AllocError> {
    let lines = lines_of(alloc, counted)?;
    let mut left = lines.as_slice();
    let mut page = String::new(alloc);
    for (number, file) in files.iter().enumerate() {
        let (own, others) = split_lines(left, number);
        left = others;
        if !own.is_empty() {
            push_file(alloc, &mut page, file, own)?;
        }
    }
    Ok(page)
}
