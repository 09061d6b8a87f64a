//! `m2 doc`: pages of the definitions of a folder.

use command_words::{Exit, FAILED};
use document_modules::{DocumentFault, Kind, Outline, Page, read_definition, write_pages};
use find_files::text_of;
use std::alloc::AllocError;
use std::rt::Files;
use std::{fs, io};
use tool_output::refuse;
use tool_words::{PROGRAM, Style};

/// The status if the pages are written.
const WRITTEN: u8 = 0;

/// How the name of the file of a definition ends.
const DEFINITION: &str = ".def";

/// The file of a definition.
#[derive(Drop)]
struct Definition {
    path: String,
    /// The name of the module that it is to be.
    name: String,
    text: Vec<u8>,
}

/// Says that a folder cannot be read.
fn unread<R: Eprint>(rt: &R, folder: &str, error: &io::Error) -> Exit {
    let _ = eprintln!(rt; "{PROGRAM}: cannot read {folder}: {error}");
    Exit::Reported(FAILED)
}

/// The names of the definitions of a folder, in order. A folder that cannot be read is reported.
fn names_in<R>(rt: &R, folder: &str) -> Result<Vec<String>, Exit>
where
    R: Files + Eprint + AllocGlobal + Clone + Drop,
{
    let mut names = Vec::new(rt.alloc());
    let entries = match fs::read_dir(rt, folder) {
        Ok(entries) => entries,
        Err(error) => return Err(unread(rt, folder, &error)),
    };
    for entry in entries {
        let entry = match entry {
            Ok(entry) => entry,
            Err(error) => return Err(unread(rt, folder, &error)),
        };
        if let Some(name) = entry.file_name().strip_suffix(DEFINITION) {
            names.push(String::from_str(rt.alloc(), name)?)?;
        }
    }
    names.sort_unstable();
    Ok(names)
}

/// The definitions of a folder, in the order of their names. What cannot be read is reported.
fn definitions_in<R>(rt: &R, folder: &str) -> Result<Vec<Definition>, Exit>
where
    R: Files + Eprint + AllocGlobal + Clone + Drop,
{
    let mut definitions = Vec::new(rt.alloc());
    for name in names_in(rt, folder)? {
        let path = format!(in rt.alloc(); "{folder}/{name}{DEFINITION}")?;
        let text = text_of(rt, path.as_str())?;
        definitions.push(Definition { path, name, text })?;
    }
    Ok(definitions)
}

/// Says why a definition has no page. The status.
fn say_fault<R>(
    rt: &R,
    style: Style,
    definition: &Definition,
    fault: DocumentFault,
) -> Result<u8, Exit>
where
    R: Print + Eprint + AllocGlobal,
{
    let path = definition.path.as_str();
    match fault {
        DocumentFault::Refused(pos, number) => {
            let text = definition.text.clone()?;
            Ok(refuse(rt, style, path, text, pos, number)?)
        }
        DocumentFault::OtherModule => {
            let name = definition.name.as_str();
            let _ = eprintln!(rt; "{PROGRAM}: {path} is not the definition of {name}");
            Ok(FAILED)
        }
        DocumentFault::NoMemory => {
            let _ = eprintln!(rt; "{PROGRAM}: no memory left (90)");
            Ok(FAILED)
        }
    }
}

/// Adds the outline of a definition, or says why it has none. The status.
fn add_outline<'a, R>(
    rt: &R,
    style: Style,
    definition: &'a Definition,
    outlines: &mut Vec<Outline<'a>>,
) -> Result<u8, Exit>
where
    R: Print + Eprint + AllocGlobal,
{
    match read_definition(rt.alloc(), definition.name.as_str(), &definition.text) {
        Ok(outline) => {
            outlines.push(outline)?;
            Ok(WRITTEN)
        }
        Err(fault) => say_fault(rt, style, definition, fault),
    }
}

/// Says that a file or a folder cannot be written. The status.
fn unwritten<R: Eprint>(rt: &R, path: &str, error: &io::Error) -> u8 {
    let _ = eprintln!(rt; "{PROGRAM}: cannot write {path}: {error}");
    FAILED
}

/// Writes pages into a folder, which is made if it is not there. The status.
fn save_pages<R>(rt: &R, out: &str, pages: &[Page]) -> Result<u8, AllocError>
where
    R: Files + Eprint + AllocGlobal,
{
    if let Err(error) = fs::create_dir_all(rt, out) {
        return Ok(unwritten(rt, out, &error));
    }
    for page in pages {
        let file = page.file.as_str();
        let path = format!(in rt.alloc(); "{out}/{file}")?;
        if let Err(error) = fs::write(rt, path.as_str(), page.text.as_bytes()) {
            return Ok(unwritten(rt, path.as_str(), &error));
        }
    }
    Ok(WRITTEN)
}

/// Writes a page for each definition of a folder, and an index, into another folder. If a text is refused, nothing is written.
/// The status.
pub fn document_folder<R>(
    rt: &R,
    style: Style,
    folder: &str,
    out: &str,
    kind: Kind,
) -> Result<u8, Exit>
where
    R: Files + Print + Eprint + AllocGlobal + Clone + Drop,
{
    let definitions = definitions_in(rt, folder)?;
    if definitions.is_empty() {
        let _ = eprintln!(rt; "{PROGRAM}: {folder} has no definition: no file NAME{DEFINITION}");
        return Ok(FAILED);
    }
    let mut outlines = Vec::new(rt.alloc());
    let mut greatest = WRITTEN;
    for definition in &definitions {
        greatest = greatest.max(add_outline(rt, style, definition, &mut outlines)?);
    }
    if greatest != WRITTEN {
        return Ok(greatest);
    }
    let pages = write_pages(rt.alloc(), &outlines, kind)?;
    Ok(save_pages(rt, out, &pages)?)
}
