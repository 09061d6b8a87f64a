//! What ran, in the format of lcov.

use crate::lines::{Line, lines_of};
use build_jobs::SourceFile;
use explain_runs::{Counted, FunctionCount};
use std::alloc::{AllocError, Global};
use std::fmt::Write;

/// Writes where the functions of the file of this number stand, and how often each was called.
fn push_functions(
    page: &mut String,
    functions: &[FunctionCount],
    file: usize,
) -> Result<(), AllocError> {
    let mut all: usize = 0;
    let mut ran: usize = 0;
    for of in functions.iter().filter(|it| it.file == file) {
        let (line, name, times) = (of.line, &of.name, of.begin.times);
        write!(page, "FN:{line},{name}\nFNDA:{times},{name}\n")?;
        all = all.saturating_add(1);
        ran = ran.saturating_add(usize::from(times > 0));
    }
    write!(page, "FNF:{all}\nFNH:{ran}\n")
}

/// Writes how often each line of the file of this number ran.
fn push_lines(page: &mut String, lines: &[Line], file: usize) -> Result<(), AllocError> {
    let mut all: usize = 0;
    let mut ran: usize = 0;
    for line in lines.iter().filter(|it| it.file == file) {
        let (number, times) = (line.line, line.tally.times);
        write!(page, "DA:{number},{times}\n")?;
        all = all.saturating_add(1);
        ran = ran.saturating_add(usize::from(times > 0));
    }
    write!(page, "LF:{all}\nLH:{ran}\n")
}

/// A record for each file in which something can run.
pub fn lcov_records(
    alloc: Global,
    files: &[SourceFile],
    counted: &Counted,
) -> Result<String, AllocError> {
    let lines = lines_of(alloc, counted)?;
    let mut page = String::new(alloc);
    for (number, file) in files.iter().enumerate() {
        if lines.iter().any(|line| line.file == number) {
            let name = &file.name;
            write!(page, "TN:\nSF:{name}\n")?;
            push_functions(&mut page, &counted.functions, number)?;
            push_lines(&mut page, &lines, number)?;
            page.push_str("end_of_record\n")?;
        }
    }
    Ok(page)
}
