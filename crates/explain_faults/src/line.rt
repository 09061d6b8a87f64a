//! The line of a statement.

use crate::places::Place;
use m2_tree::Pos;
use run_directory::InDir;
use std::alloc::{AllocError, Global};
use text_tokens::{offset_of, part, rest};

/// The name of a file without the folders in front of it.
fn base_of(path: &str) -> &str {
    match path.rsplit_once('/') {
        Some((_, name)) => name,
        None => path,
    }
}

/// The bytes of a source as it is named in a map, or in the folder of the modules.
fn source_of<D: InDir, S: InDir>(
    alloc: Global,
    dir: &mut D,
    sources: &mut S,
    name: &str,
) -> Option<Vec<u8>> {
    match sources.read(alloc, name) {
        Some(bytes) => Some(bytes),
        None => dir.read(alloc, base_of(name)),
    }
}

/// The bytes of a line up to its end.
fn line_from(text: &[u8]) -> &[u8] {
    match text
        .iter()
        .position(|byte| *byte == b'\n' || *byte == b'\r')
    {
        Some(end) => part(text, 0, end),
        None => text,
    }
}

/// The line at a place with its number, and below it a mark at the column.
fn marked(alloc: Global, text: &[u8], pos: Pos) -> Result<String, AllocError> {
    let begin = offset_of(text, Pos { col: 1, ..pos });
    let shown = String::from_utf8_lossy(alloc, line_from(rest(text, begin)))?;
    let number = pos.line;
    let mut lines = format!(in alloc; "{number} | ")?;
    let gutter = lines.len();
    lines.push_str(shown.as_str())?;
    lines.push('\n')?;
    for _ in 0..gutter {
        lines.push(' ')?;
    }
    for byte in part(text, begin, offset_of(text, pos)) {
        lines.push(if *byte == b'\t' { '\t' } else { ' ' })?;
    }
    lines.push_str("^\n")?;
    Ok(lines)
}

/// The line of the source at a place with a mark below it. A sentence if the source is not that of which the map was made, and nothing
/// if it is not found. The only error is that memory ran out.
pub fn line_at<D: InDir, S: InDir>(
    alloc: Global,
    dir: &mut D,
    sources: &mut S,
    place: Place<'_>,
) -> Result<String, AllocError> {
    let source = place.map.source.as_str();
    let Some(bytes) = source_of(alloc, dir, sources, source) else {
        return Ok(String::new(alloc));
    };
    if place.map.is_from(alloc, &bytes)? {
        return marked(alloc, &bytes, place.pos);
    }
    let module = &place.map.module;
    format!(in alloc; "  {source} has changed since {module}.map was made\n")
}
