//! What is read of a file M.link.

use crate::fault::PartFault;
use crate::part::{Interface, Part, Sizes, is_name};
use crate::sealing::opened;
use crate::writing::FORM;
use std::alloc::Global;

/// A module of which nothing is read yet.
fn nothing(alloc: Global) -> Part {
    Part {
        name: String::new(alloc),
        is_program: false,
        sizes: Sizes {
            variables: 0,
            texts: 0,
            slots: 0,
        },
        text: String::new(alloc),
        code: String::new(alloc),
        imports: Vec::new(alloc),
        interfaces: Vec::new(alloc),
    }
}

/// The name of a module. `Altered` if it is none.
pub fn name_in(alloc: Global, value: &str) -> Result<String, PartFault> {
    if !is_name(value) {
        return Err(PartFault::Altered);
    }
    Ok(String::from_str(alloc, value)?)
}

/// A number of 32 bits.
fn number_in(value: &str) -> Result<u32, PartFault> {
    match value.parse::<u32>() {
        Ok(number) => Ok(number),
        Err(_) => Err(PartFault::Altered),
    }
}

/// Adds a definition.
fn add_interface(alloc: Global, value: &str, part: &mut Part) -> Result<(), PartFault> {
    let Some((name, sum)) = value.split_once(' ') else {
        return Err(PartFault::Altered);
    };
    part.interfaces.push(Interface {
        name: name_in(alloc, name)?,
        sum: String::from_str(alloc, sum)?,
    })?;
    Ok(())
}

/// Reads a line of this word and this value.
fn add_value(alloc: Global, word: &str, value: &str, part: &mut Part) -> Result<(), PartFault> {
    match word {
        "program" => {
            part.is_program = true;
            part.name = name_in(alloc, value)?;
        }
        "implementation" => part.name = name_in(alloc, value)?,
        "text" => part.text = String::from_str(alloc, value)?,
        "code" => part.code = String::from_str(alloc, value)?,
        "variables" => part.sizes.variables = number_in(value)?,
        "texts" => part.sizes.texts = number_in(value)?,
        "slots" => part.sizes.slots = number_in(value)?,
        "import" => part.imports.push(name_in(alloc, value)?)?,
        "interface" => add_interface(alloc, value, part)?,
        _ => return Err(PartFault::Altered),
    }
    Ok(())
}

/// The module of these lines, each of a word and a value, as `push_part` puts them. `Altered` if a line is none of these.
pub fn part_of(alloc: Global, lines: &str) -> Result<Part, PartFault> {
    let mut part = nothing(alloc);
    for line in lines.lines() {
        let Some((word, value)) = line.split_once(' ') else {
            return Err(PartFault::Altered);
        };
        add_value(alloc, word, value, &mut part)?;
    }
    if part.name.is_empty() {
        return Err(PartFault::Altered);
    }
    Ok(part)
}

/// What is read of the text of a file M.link.
///
/// `Version` if its first line is that of another form or version, else `Altered` if the checksum in its last line is not that of the
/// text in front of it, or a line is none that `write_part` writes. `NoMemory` if memory ran out.
pub fn read_part(alloc: Global, version: &str, text: &[u8]) -> Result<Part, PartFault> {
    let lines = opened(alloc, FORM, version, text)?;
    part_of(alloc, lines)
}
