//! What the thing at a place means, in words.

use m2_tree::{Module, Pos};
use serve_lists::{Ask, Program};
use serve_meanings::{Meant, Wanted, meaning_of};
use serve_names::{Declaration, Kind, Parsed, read};
use std::alloc::{AllocError, Global};

/// The most declarations around another: a text has no more levels.
const MOST_LEVELS: usize = 4096;

/// What a declared thing means, in words. Either is empty if it is not known.
#[derive(Drop)]
pub struct Meaning {
    /// What stands behind the declaration of a constant, in the language.
    pub value: String,
    /// The size and the place of a variable or a field, in a sentence.
    pub storage: String,
}

/// What stands around a declaration, the innermost first.
#[derive(Drop)]
struct Around<'a> {
    procedures: Vec<Pos>,
    names: Vec<&'a [u8]>,
}

/// Where the name of a procedure stands in a file.
fn place_in(procedure: &Declaration, file: usize) -> Option<Pos> {
    if procedure.place.file == file {
        return Some(procedure.place.pos);
    }
    let place = procedure.implementation?;
    if place.file == file {
        Some(place.pos)
    } else {
        None
    }
}

impl<'a> Around<'a> {
    /// Adds a declaration that stands around another in a file.
    fn add(
        &mut self,
        file: usize,
        outer: &'a Declaration,
        is_part: bool,
    ) -> Result<(), AllocError> {
        match outer.kind {
            Kind::Module => {}
            Kind::Procedure => {
                if let Some(pos) = place_in(outer, file) {
                    self.procedures.push(pos)?;
                }
            }
            _ => {
                if is_part {
                    self.names.push(outer.name.as_slice())?;
                }
            }
        }
        Ok(())
    }

    /// What stands around a declaration. Of what is no field, the name alone stands for it in its block.
    fn of(ask: &Ask<'a>, declaration: &'a Declaration) -> Result<Around<'a>, AllocError> {
        let mut around = Around {
            procedures: Vec::new(ask.alloc),
            names: Vec::new(ask.alloc),
        };
        around.names.push(declaration.name.as_slice())?;
        let is_part = declaration.kind == Kind::Field;
        let mut parent = declaration.parent;
        for _ in 0..MOST_LEVELS {
            let Some(outer) = parent.and_then(|it| ask.view.index.declaration(it)) else {
                break;
            };
            around.add(declaration.place.file, outer, is_part)?;
            parent = outer.parent;
        }
        around.procedures.reverse();
        around.names.reverse();
        Ok(around)
    }
}

/// The tokens and trees of the files of a program, or nothing if one has none.
fn parsed_of(alloc: Global, program: &Program) -> Result<Option<Vec<Parsed>>, AllocError> {
    let mut all = Vec::new(alloc);
    for file in &program.files {
        let Some(parsed) = read(alloc, &file.bytes)? else {
            return Ok(None);
        };
        all.push(parsed)?;
    }
    Ok(Some(all))
}

/// The trees of a program's files, each with the file's name.
fn trees_of<'a>(
    alloc: Global,
    program: &'a Program,
    parsed: &'a [Parsed],
) -> Result<Vec<(&'a str, &'a Module)>, AllocError> {
    let mut trees = Vec::new(alloc);
    for (file, one) in program.files.iter().zip(parsed) {
        trees.push((file.name.as_str(), &one.tree))?;
    }
    Ok(trees)
}

/// What a declaration of a file of this path means in the first program that was built and has the file.
fn meant_in(
    ask: &Ask<'_>,
    path: &str,
    declaration: &Declaration,
) -> Result<Option<Meant>, AllocError> {
    let Some(program) = ask.built_with(path) else {
        return Ok(None);
    };
    let number = program.files.iter().position(|it| it.name.as_str() == path);
    let (Some(file), Some(parsed)) = (number, parsed_of(ask.alloc, program)?) else {
        return Ok(None);
    };
    let around = Around::of(ask, declaration)?;
    let wanted = Wanted {
        file,
        procedures: &around.procedures,
        names: &around.names,
    };
    meaning_of(ask.alloc, &trees_of(ask.alloc, program, &parsed)?, wanted)
}

/// A number of bytes in words.
fn bytes_in(alloc: Global, count: u32) -> Result<String, AllocError> {
    let unit = if count == 1 { "byte" } else { "bytes" };
    format!(in alloc; "{count} {unit}")
}

/// Where something is kept, in a sentence.
fn storage_words(alloc: Global, meant: &Meant) -> Result<String, AllocError> {
    match meant {
        Meant::Constant(_, _) => Ok(String::new(alloc)),
        Meant::OfModule(size, start) => {
            let size = bytes_in(alloc, *size)?;
            format!(in alloc; "{size}, at offset {start} of the module's data")
        }
        Meant::OfProcedure(size, start) => {
            let size = bytes_in(alloc, *size)?;
            format!(in alloc; "{size}, at offset {start} of the frame")
        }
        Meant::ByValue(size, start) => {
            let size = bytes_in(alloc, *size)?;
            format!(in alloc; "{size}, passed by value, at offset {start} of the frame")
        }
        Meant::ByReference(size, start) => {
            let size = bytes_in(alloc, *size)?;
            format!(in alloc;
                "{size}, passed by reference: its address is at offset {start} of the frame"
            )
        }
        Meant::Open(size, start) => {
            let size = bytes_in(alloc, *size)?;
            format!(in alloc;
                "an open array, each element {size}: its address and HIGH are at offset {start} of the frame"
            )
        }
        Meant::Field(size, start) => {
            let size = bytes_in(alloc, *size)?;
            format!(in alloc; "{size}, at offset {start} of the record")
        }
    }
}

/// What stands behind the declaration of a constant: its value, or of a constant of an enumeration its number.
fn value_words(
    alloc: Global,
    declaration: &Declaration,
    meant: &Meant,
) -> Result<String, AllocError> {
    match (declaration.kind, meant) {
        (Kind::EnumerationConstant, Meant::Constant(words, Some(number))) => {
            format!(in alloc; "ORD({words}) = {number}")
        }
        (_, Meant::Constant(words, _)) => format!(in alloc; "= {words}"),
        _ => Ok(String::new(alloc)),
    }
}

/// Whether a thing of this kind has a value or a place.
fn has_meaning(kind: Kind) -> bool {
    match kind {
        Kind::Module | Kind::Type | Kind::Procedure => false,
        Kind::Constant | Kind::Variable | Kind::Formal | Kind::Field | Kind::EnumerationConstant =>
            true,
    }
}

/// What a declared thing means, as far as a program that was built has it. The only error is want of memory.
pub fn meaning_here(ask: &Ask<'_>, declaration: &Declaration) -> Result<Meaning, AllocError> {
    let alloc = ask.alloc;
    let none = Meaning {
        value: String::new(alloc),
        storage: String::new(alloc),
    };
    let file = ask.view.files.get(declaration.place.file);
    let Some(file) = file.filter(|_| has_meaning(declaration.kind)) else {
        return Ok(none);
    };
    match meant_in(ask, file.path.as_str(), declaration)? {
        Some(meant) => {
            let value = value_words(alloc, declaration, &meant)?;
            let storage = storage_words(alloc, &meant)?;
            Ok(Meaning { value, storage })
        }
        None => Ok(none),
    }
}
