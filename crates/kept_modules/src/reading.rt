//! What is read of the text that was kept.

use crate::kept::{Definition, Kept};
use crate::sums::short_sum;
use crate::writing::{BETWEEN, FORM};
use link_parts::{PartFault, behind_first, name_in, part_of, unsealed};
use std::alloc::Global;

/// Reads a line of this word and this value.
fn add_value(
    alloc: Global,
    word: &str,
    value: &str,
    definition: &mut Definition,
) -> Result<(), PartFault> {
    match word {
        "definition" => definition.name = name_in(alloc, value)?,
        "text" => definition.text = String::from_str(alloc, value)?,
        "tokens" => definition.tokens = String::from_str(alloc, value)?,
        "import" => definition.imports.push(name_in(alloc, value)?)?,
        _ => return Err(PartFault::Altered),
    }
    Ok(())
}

/// The definition of these lines.
fn definition_of(alloc: Global, lines: &str) -> Result<Definition, PartFault> {
    let mut definition = Definition {
        name: String::new(alloc),
        text: String::new(alloc),
        tokens: String::new(alloc),
        imports: Vec::new(alloc),
    };
    for line in lines.lines() {
        let Some((word, value)) = line.split_once(' ') else {
            return Err(PartFault::Altered);
        };
        add_value(alloc, word, value, &mut definition)?;
    }
    Ok(definition)
}

/// Adds the module of these lines, if there are any.
fn add_module(alloc: Global, lines: &str, kept: &mut Kept) -> Result<(), PartFault> {
    if lines.is_empty() {
        return Ok(());
    }
    if lines.starts_with("definition ") {
        kept.definitions.push(definition_of(alloc, lines)?)?;
    } else {
        kept.bodies.push(part_of(alloc, lines)?)?;
    }
    Ok(())
}

/// What is read of the text that was kept.
///
/// `Version` if its first line is that of another form or version, else `Altered` if the checksum in its last line is not that of the
/// text in front of it, or a line is none that `write_kept` writes. `NoMemory` if memory ran out.
pub fn read_kept(alloc: Global, version: &str, text: &[u8]) -> Result<Kept, PartFault> {
    let (front, found) = unsealed(FORM, version, text)?;
    let sum = short_sum(alloc, front.as_bytes())?;
    if found.as_bytes() != sum.as_bytes() {
        return Err(PartFault::Altered);
    }
    let mut kept = Kept {
        definitions: Vec::new(alloc),
        bodies: Vec::new(alloc),
    };
    for module in behind_first(front).split(BETWEEN) {
        add_module(alloc, module, &mut kept)?;
    }
    Ok(kept)
}
