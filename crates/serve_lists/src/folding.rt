//! Lines that belong together.

use crate::ask::Ask;
use m2_tree::Symbol;
use propose_mends::Source;
use serve_names::{Declaration, Kind, Range};
use serve_programs::source_of;
use std::alloc::{AllocError, Global};
use write_json::Json;

/// Lines from one to another, from 1.
#[derive(Clone, Copy, PartialEq, Eq, PartialOrd, Ord)]
struct Lines {
    first: u32,
    last: u32,
}

/// Whether a symbol begins what an END or an UNTIL closes.
fn opens_lines(symbol: Symbol) -> bool {
    matches!(
        symbol,
        Symbol::If
            | Symbol::Case
            | Symbol::While
            | Symbol::Repeat
            | Symbol::Loop
            | Symbol::For
            | Symbol::With
            | Symbol::Record
    )
}

/// Adds lines, if there are two or more.
fn add_lines(all: &mut Vec<Lines>, first: u32, last: u32) -> Result<(), AllocError> {
    if first < last {
        all.push(Lines { first, last })?;
    }
    Ok(())
}

/// Adds the lines of statements and records.
fn add_statements(
    alloc: Global,
    source: &Source<'_>,
    all: &mut Vec<Lines>,
) -> Result<(), AllocError> {
    let mut open = Vec::new(alloc);
    for at in 0..source.tokens.len() {
        let line = source.line(at);
        match source.symbol(at) {
            Some(symbol) if opens_lines(symbol) => open.push(line)?,
            Some(Symbol::End | Symbol::Until) => {
                if let Some(first) = open.pop() {
                    add_lines(all, first, line.saturating_sub(1))?;
                }
            }
            _ => {}
        }
    }
    Ok(())
}

/// The range of a declaration in the file.
fn range_here(ask: &Ask<'_>, declaration: &Declaration) -> Option<Range> {
    if declaration.place.file == ask.file {
        return Some(declaration.range);
    }
    let _place = declaration.implementation.filter(|it| it.file == ask.file)?;
    declaration.implementation_range
}

/// The lines of a procedure of the file as they stand now.
fn procedure_lines(ask: &Ask<'_>, declaration: &Declaration) -> Option<Lines> {
    if declaration.kind != Kind::Procedure {
        return None;
    }
    let range = range_here(ask, declaration)?;
    let mark = ask.view.mark_of_range(ask.file, range)?;
    let text = &ask.here()?.now;
    Some(Lines {
        first: text.pos_of_offset(mark.begin).line,
        last: text.pos_of_offset(mark.end).line,
    })
}

/// Adds the lines of procedures.
fn add_procedures(ask: &Ask<'_>, all: &mut Vec<Lines>) -> Result<(), AllocError> {
    for declaration in ask.view.index.declarations() {
        if let Some(lines) = procedure_lines(ask, declaration) {
            add_lines(all, lines.first, lines.last)?;
        }
    }
    Ok(())
}

/// The lines of procedures, statements and records, in order.
fn all_lines(ask: &Ask<'_>) -> Result<Vec<Lines>, AllocError> {
    let alloc = ask.alloc;
    let mut all = Vec::new(alloc);
    add_procedures(ask, &mut all)?;
    add_statements(alloc, &source_of(alloc, ask.bytes())?, &mut all)?;
    all.sort()?;
    Ok(all)
}

/// Writes lines, from 0.
fn put_lines(lines: Lines, json: &mut Json) {
    json.begin_object();
    json.number_member("endLine", u64::from(lines.last.saturating_sub(1)));
    json.number_member("startLine", u64::from(lines.first.saturating_sub(1)));
    json.end_object();
}

/// Writes the lines of procedures, statements and records, which an editor can fold.
pub fn folding_ranges(ask: &Ask<'_>, json: &mut Json) -> Result<(), AllocError> {
    let all = all_lines(ask)?;
    json.begin_list();
    for lines in &all {
        put_lines(*lines, json);
    }
    json.end_list();
    Ok(())
}
