//! Programs in which a thing has another name.

use build_jobs::SourceFile;
use serve_programs::{Mark, Program, View};
use std::alloc::{AllocError, Global};

/// A text in which other bytes stand at the marks of its file, which are in order.
fn text_with(
    alloc: Global,
    text: &[u8],
    number: Option<usize>,
    marks: &[Mark],
    new: &[u8],
) -> Result<Vec<u8>, AllocError> {
    let mut all = Vec::new(alloc);
    let mut from = 0;
    for mark in marks {
        if Some(mark.file) == number {
            all.extend_from_slice(text.get(from..mark.begin).unwrap_or(b""))?;
            all.extend_from_slice(new)?;
            from = mark.end;
        }
    }
    all.extend_from_slice(text.get(from..).unwrap_or(b""))?;
    Ok(all)
}

/// A file with other bytes at its marks.
fn file_with(
    alloc: Global,
    view: &View,
    file: &SourceFile,
    marks: &[Mark],
    new: &[u8],
) -> Result<SourceFile, AllocError> {
    let number = view.file_number(file.name.as_str());
    let bytes = text_with(alloc, &file.bytes, number, marks, new)?;
    let name = String::from_str(alloc, file.name.as_str())?;
    Ok(SourceFile { name, bytes })
}

/// A program with other bytes at these marks.
pub fn program_with(
    alloc: Global,
    view: &View,
    program: &Program,
    marks: &[Mark],
    new: &[u8],
) -> Result<Program, AllocError> {
    let mut files = Vec::new(alloc);
    for file in &program.files {
        files.push(file_with(alloc, view, file, marks, new)?)?;
    }
    Ok(Program {
        files,
        is_made: program.is_made,
    })
}
