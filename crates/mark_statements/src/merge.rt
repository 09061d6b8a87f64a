//! The rows of code with the statements from which they come.

use crate::lines::Lines;
use crate::statements::{Statement, Statements};
use itoa::Buffer;
use m2_tree::Pos;
use std::alloc::{AllocError, Global};

/// The code of a mark, without the blanks in front of its rows.
const MARK_ROWS: [&[u8]; 8] = [
    b"i64.const 0\n",
    b"i32.wrap_i64\n",
    b"if\n",
    b"i64.const 0\n",
    b"i32.wrap_i64\n",
    b"if\n",
    b"end\n",
    b"end\n",
];

/// A row without the blanks in front of it.
fn without_blanks(row: &[u8]) -> &[u8] {
    match row.iter().position(|byte| *byte != b' ') {
        Some(at) => &row[at.min(row.len())..],
        None => row,
    }
}

/// Whether the code of a mark begins with the row of this number.
fn is_mark(rows: &Lines<'_>, at: usize) -> bool {
    for (number, row) in MARK_ROWS.iter().enumerate() {
        if without_blanks(rows.line(at.saturating_add(number))) != *row {
            return false;
        }
    }
    true
}

/// Puts the blanks of a row at the end of a text.
fn put_blanks(text: &mut Vec<u8>, row: &[u8]) -> Result<(), AllocError> {
    let count = row.len().saturating_sub(without_blanks(row).len());
    for _ in 0..count {
        text.push(b' ')?;
    }
    Ok(())
}

/// Puts a comment on a statement at the end of a text, with the blanks of this row.
fn put_comment(text: &mut Vec<u8>, row: &[u8], statement: &Statement) -> Result<(), AllocError> {
    let mut digits = Buffer::new();
    put_blanks(text, row)?;
    text.extend_from_slice(b";; line ")?;
    text.extend_from_slice(digits.format(u64::from(statement.pos.line)).as_bytes())?;
    text.extend_from_slice(b": ")?;
    text.extend_from_slice(&statement.words)?;
    text.extend_from_slice(b"\n")
}

/// Rows that are put together: how many of the code and how many comments stand there already, how many rows of a mark are passed
/// over, and whether both codes were alike up to here.
#[derive(Drop)]
struct Merge {
    text: Vec<u8>,
    rows: usize,
    comments: usize,
    passed: usize,
    is_alike: bool,
}

impl Merge {
    /// A row of the marked code.
    fn put(
        &mut self,
        code: &Lines<'_>,
        marked: &Lines<'_>,
        number: usize,
        statements: &[&Statement],
    ) -> Result<(), AllocError> {
        if self.passed > 0 {
            self.passed = self.passed.saturating_sub(1);
            return Ok(());
        }
        let row = marked.line(number);
        if let Some(statement) = statements.get(self.comments) {
            if is_mark(marked, number) {
                self.comments = self.comments.saturating_add(1);
                self.passed = MARK_ROWS.len().saturating_sub(1);
                return put_comment(&mut self.text, row, statement);
            }
        }
        if code.line(self.rows) != row {
            self.is_alike = false;
            return Ok(());
        }
        self.rows = self.rows.saturating_add(1);
        self.text.extend_from_slice(row)
    }
}

/// Adds statements.
fn push_all<'a>(all: &mut Vec<&'a Statement>, more: &'a [Statement]) -> Result<(), AllocError> {
    for statement in more {
        all.push(statement)?;
    }
    Ok(())
}

/// The statements of the functions whose names stand at these places, one function after another.
fn in_order<'a>(
    alloc: Global,
    statements: &'a Statements,
    places: &[Pos],
) -> Result<Vec<&'a Statement>, AllocError> {
    let mut all = Vec::new(alloc);
    for pos in places {
        push_all(&mut all, statements.of_name(*pos))?;
    }
    Ok(all)
}

/// Both codes put together, if they are alike.
fn merge_codes(
    alloc: Global,
    code: &Lines<'_>,
    marked: &Lines<'_>,
    statements: &[&Statement],
) -> Result<Option<Vec<u8>>, AllocError> {
    let mut merge = Merge {
        text: Vec::new(alloc),
        rows: 0,
        comments: 0,
        passed: 0,
        is_alike: true,
    };
    for number in 0..marked.count() {
        merge.put(code, marked, number, statements)?;
        if !merge.is_alike {
            return Ok(None);
        }
    }
    if merge.rows != code.count() || merge.comments != statements.len() {
        return Ok(None);
    }
    let Merge { text, .. } = merge;
    Ok(Some(text))
}

/// The rows of code, with a comment in front of the rows of each statement. The marked code is the code of the same
/// text with marks. The functions of the code have their names at these places, in this order. Nothing if the marked
/// code without its marks is not the code.
///
/// The only error is that memory ran out.
pub fn with_statements(
    alloc: Global,
    code: &[u8],
    marked: &[u8],
    statements: &Statements,
    places: &[Pos],
) -> Result<Option<Vec<u8>>, AllocError> {
    let ordered = in_order(alloc, statements, places)?;
    merge_codes(
        alloc,
        &Lines::of(alloc, code)?,
        &Lines::of(alloc, marked)?,
        &ordered,
    )
}
