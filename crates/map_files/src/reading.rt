//! What is read of a map.

use crate::fault::MapFault;
use crate::map::{Map, Mapped, Row};
use crate::sums::sum_of;
use crate::writing::{BODY, KIND, LAST, PROCEDURE, VERSION};
use m2_tree::Pos;
use std::alloc::Global;
use std::str;

/// A map of which nothing is read yet.
fn nothing(alloc: Global) -> Map {
    Map {
        module: String::new(alloc),
        length: 0,
        code_sum: String::new(alloc),
        source: String::new(alloc),
        source_sum: String::new(alloc),
        functions: Vec::new(alloc),
    }
}

/// The first word of a line, and what stands behind the blank after it.
fn word_of(line: &str) -> (&str, &str) {
    match line.split_once(' ') {
        Some(parts) => parts,
        None => (line, ""),
    }
}

/// The number with which a line begins, and what stands behind it.
fn number_of(line: &str) -> Result<(u32, &str), MapFault> {
    let (word, behind) = word_of(line);
    match word.parse::<u32>() {
        Ok(number) => Ok((number, behind)),
        Err(_) => Err(MapFault::Altered),
    }
}

/// The place that ends a line.
fn place_in(line: &str) -> Result<Pos, MapFault> {
    let (line, behind) = number_of(line)?;
    let (col, _) = number_of(behind)?;
    Ok(Pos { line, col })
}

/// The row in a line.
fn row_in(line: &str) -> Result<Row, MapFault> {
    let (offset, behind) = number_of(line)?;
    let (number, behind) = number_of(behind)?;
    let pos = place_in(behind)?;
    Ok(Row {
        offset,
        number,
        pos,
    })
}

/// The function whose line has this behind its first word.
fn function_in(alloc: Global, is_body: bool, value: &str) -> Result<Mapped, MapFault> {
    let (name, behind) = word_of(value);
    let (number, behind) = number_of(behind)?;
    let pos = place_in(behind)?;
    let name = String::from_str(alloc, name)?;
    Ok(Mapped {
        number,
        is_body,
        name,
        pos,
        rows: Vec::new(alloc),
    })
}

/// Reads the length of the code and its checksum.
fn add_code(alloc: Global, value: &str, map: &mut Map) -> Result<(), MapFault> {
    let (length, sum) = number_of(value)?;
    map.length = u64::from(length);
    map.code_sum = String::from_str(alloc, sum)?;
    Ok(())
}

/// Reads the checksum of the source and its name.
fn add_source(alloc: Global, value: &str, map: &mut Map) -> Result<(), MapFault> {
    let (sum, name) = word_of(value);
    map.source_sum = String::from_str(alloc, sum)?;
    map.source = String::from_str(alloc, name)?;
    Ok(())
}

/// Reads a row of the last function.
fn add_row(line: &str, map: &mut Map) -> Result<(), MapFault> {
    let row = row_in(line)?;
    match map.functions.last_mut() {
        Some(function) => function.rows.push(row)?,
        None => return Err(MapFault::Altered),
    }
    Ok(())
}

/// Reads a line.
fn add_line(alloc: Global, line: &str, map: &mut Map) -> Result<(), MapFault> {
    let (word, value) = word_of(line);
    match word {
        "module" => map.module = String::from_str(alloc, value)?,
        "code" => add_code(alloc, value, map)?,
        "source" => add_source(alloc, value, map)?,
        BODY => map.functions.push(function_in(alloc, true, value)?)?,
        PROCEDURE => map.functions.push(function_in(alloc, false, value)?)?,
        _ => add_row(line, map)?,
    }
    Ok(())
}

/// Reads lines.
fn map_of(alloc: Global, lines: &str) -> Result<Map, MapFault> {
    let mut map = nothing(alloc);
    for line in lines.lines() {
        add_line(alloc, line, &mut map)?;
    }
    Ok(map)
}

/// What stands in front of the last line, if this has the checksum of it.
fn checked(alloc: Global, text: &str) -> Result<&str, MapFault> {
    let Some(whole) = text.strip_suffix('\n') else {
        return Err(MapFault::Altered);
    };
    let at = whole.rfind('\n').map_or(0, |it| it.saturating_add(1));
    let (front, last) = (text.get(..at).unwrap_or(""), whole.get(at..).unwrap_or(""));
    let sum = sum_of(alloc, front.as_bytes())?;
    match last.strip_prefix(LAST) {
        Some(found) if found.as_bytes() == sum.as_bytes() => Ok(front),
        _ => Err(MapFault::Altered),
    }
}

/// What is read of the text of a file M.map.
///
/// `Version` if its first line is that of another version, else `Altered` if the checksum in its last line is not that of the text in
/// front of it, or a line is none that `write_map` writes. `NoMemory` if memory ran out.
pub fn read_map(alloc: Global, text: &[u8]) -> Result<Map, MapFault> {
    let Ok(text) = str::from_utf8(text) else {
        return Err(MapFault::Altered);
    };
    let (first, _) = text.split_once('\n').unwrap_or((text, ""));
    match first.strip_prefix(KIND) {
        None => return Err(MapFault::Altered),
        Some(version) => {
            if version.as_bytes() != VERSION.as_bytes() {
                return Err(MapFault::Version);
            }
        }
    }
    let lines = checked(alloc, text)?;
    let behind = lines.split_once('\n').map_or("", |it| it.1);
    map_of(alloc, behind)
}
