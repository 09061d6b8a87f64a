//! Texts with places to fill: calls of procedures, and procedures that an implementation lacks.

use crate::completing::{Choice, MOST_BYTES};
use crate::items::{Insert, put_item};
use m2_tree::Pos;
use serve_hovers::Ask;
use serve_names::{Declaration, Kind, Place, Range, words_of};
use std::alloc::{AllocError, Global};
use write_json::Json;

/// The number that the protocol has for what is no name.
const SNIPPET: u32 = 15;

/// The word in front of a procedure's name.
const LEAD: &[u8] = b"PROCEDURE ";

/// Whether the word PROCEDURE stands in front of the place.
#[derive(Clone, Copy, PartialEq, Eq)]
pub enum Lead {
    Written,
    Missing,
}

/// The formals of procedures.
#[derive(Drop)]
pub struct Formals {
    /// For each declaration the numbers of its formals, in the order of its heading.
    of: Vec<Vec<usize>>,
}

/// The procedure in whose first heading a formal stands.
fn procedure_of(declarations: &[Declaration], formal: &Declaration) -> Option<usize> {
    let number = formal.parent.filter(|_| formal.kind == Kind::Formal)?;
    let procedure = declarations.get(number)?;
    if procedure.place.file == formal.place.file {
        Some(number)
    } else {
        None
    }
}

impl Formals {
    /// The formals of all procedures. The only error is want of memory.
    pub fn of(ask: &Ask<'_>) -> Result<Formals, AllocError> {
        let declarations = ask.view.index.declarations();
        let mut of = Vec::new(ask.alloc);
        for _one in declarations {
            of.push(Vec::new(ask.alloc))?;
        }
        let mut formals = Formals { of };
        for (number, formal) in declarations.iter().enumerate() {
            if let Some(procedure) = procedure_of(declarations, formal) {
                formals.add(procedure, number)?;
            }
        }
        Ok(formals)
    }

    /// Adds a formal of a procedure.
    fn add(&mut self, procedure: usize, formal: usize) -> Result<(), AllocError> {
        if let Some(formals) = self.of.get_mut(procedure) {
            formals.push(formal)?;
        }
        Ok(())
    }
}

/// A call of this name with a place for each formal.
fn call_text(ask: &Ask<'_>, name: &[u8], formals: &[usize]) -> Result<String, AllocError> {
    let mut text = String::from_utf8_lossy(ask.alloc, name)?;
    text.push('(')?;
    for (at, number) in formals.iter().enumerate() {
        if at > 0 {
            text.push_str(", ")?;
        }
        let formal = ask.view.index.declaration(*number);
        let formal = formal.map_or(&b""[..], |it| it.name.as_slice());
        let formal = String::from_utf8_lossy(ask.alloc, formal)?;
        let place = at.saturating_add(1);
        text.push_str(format!(in ask.alloc; "${{{place}:{formal}}}")?.as_str())?;
    }
    text.push(')')?;
    Ok(text)
}

/// The call that is written for a procedure: with a place for each formal. Nothing for one without formals that is written as it is
/// called, and for what is no procedure.
pub fn call_of(
    ask: &Ask<'_>,
    number: usize,
    declaration: &Declaration,
    formals: &Formals,
) -> Result<Option<Insert>, AllocError> {
    let own = formals.of.get(number).map_or(&[][..], |it| it.as_slice());
    let has_places = !own.is_empty();
    let is_function = declaration.of.is_some();
    if declaration.kind != Kind::Procedure || (!has_places && !is_function) {
        return Ok(None);
    }
    let text = call_text(ask, &declaration.name, own)?;
    Ok(Some(Insert { text, has_places }))
}

/// Whether a place of a file lies in a stretch of it.
fn has_place(stretch: Option<(Place, Range)>, file: usize, pos: Pos) -> bool {
    stretch.is_some_and(|it| it.0.file == file && it.1.has(pos))
}

/// Whether a place lies in a procedure.
fn is_in_procedure(ask: &Ask<'_>, pos: Pos) -> bool {
    ask.view.index.declarations().iter().any(|it| {
        it.kind == Kind::Procedure
            && (has_place(Some((it.place, it.range)), ask.file, pos)
                || has_place(
                    it.implementation.zip(it.implementation_range),
                    ask.file,
                    pos,
                ))
    })
}

/// The number of the module whose implementation the file is.
fn implemented(ask: &Ask<'_>) -> Option<usize> {
    ask.view.index.declarations().iter().position(|it| {
        it.kind == Kind::Module
            && it
                .implementation
                .is_some_and(|place| place.file == ask.file)
    })
}

/// A procedure with this heading and an empty body.
fn procedure_text(
    ask: &Ask<'_>,
    heading: &[u8],
    name: &[u8],
    has_places: bool,
) -> Result<String, AllocError> {
    let heading = String::from_utf8_lossy(ask.alloc, heading)?;
    let name = String::from_utf8_lossy(ask.alloc, name)?;
    let body = if has_places { "  $0\n" } else { "" };
    format!(in ask.alloc; "{heading};\nBEGIN\n{body}END {name};")
}

/// How a procedure that an implementation lacks is shown: behind PROCEDURE, if this is missing.
fn lacking_label(alloc: Global, lead: Lead, name: &[u8]) -> Result<Vec<u8>, AllocError> {
    let mut label = Vec::new(alloc);
    match lead {
        Lead::Missing => label.extend_from_slice(LEAD)?,
        Lead::Written => {}
    }
    label.extend_from_slice(name)?;
    Ok(label)
}

/// Writes the object of a procedure that an implementation lacks.
fn put_procedure(
    ask: &Ask<'_>,
    choice: &Choice<'_>,
    lead: Lead,
    declaration: &Declaration,
    json: &mut Json,
) -> Result<(), AllocError> {
    let text = ask.known_bytes(declaration.place.file);
    let words = words_of(ask.alloc, text, declaration)?;
    let heading = match lead {
        Lead::Missing => words.as_slice(),
        Lead::Written => words.strip_prefix(LEAD).unwrap_or(words.as_slice()),
    };
    let has_places = choice.has_snippets;
    let text = procedure_text(ask, heading, &declaration.name, has_places)?;
    let label = lacking_label(ask.alloc, lead, &declaration.name)?;
    let insert = Insert { text, has_places };
    put_item(&label, SNIPPET, &words, Some(&insert), json);
    Ok(())
}

/// Whether an implementation lacks what its definition declares.
fn is_lacking(ask: &Ask<'_>, declaration: &Declaration) -> bool {
    let text = ask.known_bytes(declaration.place.file);
    declaration.kind == Kind::Procedure
        && declaration.implementation.is_none()
        && text.len() <= MOST_BYTES
}

/// Writes the procedures that the implementation at a place outside of procedures lacks, each with its heading and an empty body.
/// Those of a definition of more than 65536 bytes are left out.
pub fn put_lacking(
    ask: &Ask<'_>,
    choice: &Choice<'_>,
    lead: Lead,
    pos: Pos,
    json: &mut Json,
) -> Result<(), AllocError> {
    let Some(module) = implemented(ask).filter(|_| !is_in_procedure(ask, pos)) else {
        return Ok(());
    };
    for number in ask.view.index.exports_of(ask.alloc, module)? {
        if let Some(declaration) = ask.view.index.declaration(number) {
            if is_lacking(ask, declaration) {
                put_procedure(ask, choice, lead, declaration, json)?;
            }
        }
    }
    Ok(())
}
