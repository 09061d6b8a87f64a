//! What `m2 compile` wrote of the modules of a program.

use command_words::{Exit, FAILED, VERSION};
use indexmap::IndexMap;
use link_parts::{Part, PartFault, read_part, sum_of};
use std::alloc::{AllocError, Global};
use std::io::ErrorKind;
use std::rt::Files;
use std::{fs, io};
use tool_words::PROGRAM;

/// The status of modules that do not make a program.
pub const REFUSED: u8 = 1;

/// The most modules that are read: as many as a program may have files, so one with more is refused.
const MOST_MODULES: usize = 1024;

/// A module that is wanted, and the one that imports it.
#[derive(Drop)]
struct Wanted {
    name: String,
    by: Option<String>,
}

/// The modules that are wanted, in order, each once.
#[derive(Drop)]
struct List {
    all: Vec<Wanted>,
    known: IndexMap<Vec<u8>, usize>,
}

impl List {
    /// Adds a module, unless it is there.
    fn add(&mut self, alloc: Global, name: &str, by: Option<&str>) -> Result<(), AllocError> {
        if self.known.contains_key(name.as_bytes()) {
            return Ok(());
        }
        let number = self.all.len();
        self.known
            .insert(Vec::from_slice(alloc, name.as_bytes())?, number)?;
        let by = match by {
            None => None,
            Some(by) => Some(String::from_str(alloc, by)?),
        };
        let name = String::from_str(alloc, name)?;
        self.all.push(Wanted { name, by })?;
        Ok(())
    }

    /// Adds the modules that a module imports.
    fn add_imports(&mut self, alloc: Global, part: &Part) -> Result<(), AllocError> {
        for import in &part.imports {
            self.add(alloc, import.as_str(), Some(part.name.as_str()))?;
        }
        Ok(())
    }
}

/// Says that a file cannot be read, and who wants it.
fn unread<R: Eprint>(rt: &R, path: &str, wanted: &Wanted, error: &io::Error) -> Exit {
    let name = &wanted.name;
    if error.kind() != ErrorKind::NotFound {
        let _ = eprintln!(rt; "{PROGRAM}: cannot read {path}: {error}");
        return Exit::Reported(FAILED);
    }
    let _ = match &wanted.by {
        None => eprintln!(rt; "{PROGRAM}: {path} is missing; compile {name}"),
        Some(by) => {
            eprintln!(rt; "{PROGRAM}: {path} is missing; compile {name}, which {by} imports")
        }
    };
    Exit::Reported(REFUSED)
}

/// The bytes of a file of a module. One that cannot be read is reported.
fn bytes_of<R: Files + Eprint + AllocGlobal>(
    rt: &R,
    path: &str,
    wanted: &Wanted,
) -> Result<Vec<u8>, Exit> {
    match fs::read(rt, path) {
        Ok(bytes) => Ok(bytes),
        Err(error) => Err(unread(rt, path, wanted, &error)),
    }
}

/// Reports what is wrong with a file.
fn refuse<R: Eprint>(rt: &R, path: &str, words: &str, name: &str) -> Exit {
    let _ = eprintln!(rt; "{PROGRAM}: {path}: {words}; compile {name} again");
    Exit::Reported(REFUSED)
}

/// What the file M.link of a module says. What is wrong with it is reported.
fn part_in<R: Files + Eprint + AllocGlobal>(
    rt: &R,
    out: &str,
    wanted: &Wanted,
) -> Result<Part, Exit> {
    let name = wanted.name.as_str();
    let path = format!(in rt.alloc(); "{out}/{name}.link")?;
    let text = bytes_of(rt, path.as_str(), wanted)?;
    let part = match read_part(rt.alloc(), VERSION, &text) {
        Ok(part) => part,
        Err(PartFault::NoMemory) => return Err(Exit::from(anyhow::Error::from(AllocError))),
        Err(PartFault::Version) => {
            let words = "it was written by another version of m2";
            return Err(refuse(rt, path.as_str(), words, name));
        }
        Err(PartFault::Altered) => {
            return Err(refuse(rt, path.as_str(), "it was cut or altered", name));
        }
    };
    if part.name.as_bytes() != name.as_bytes() {
        let other = &part.name;
        let _ = eprintln!(rt;
            "{PROGRAM}: {path}: it is the file of {other}, and there may not be two of one module"
        );
        return Err(Exit::Reported(REFUSED));
    }
    Ok(part)
}

/// Whether the file M.wasm of a module is the one that was written with its M.link. Else it is reported.
fn check_code<R: Files + Eprint + AllocGlobal>(
    rt: &R,
    out: &str,
    wanted: &Wanted,
    part: &Part,
) -> Result<(), Exit> {
    let name = wanted.name.as_str();
    let path = format!(in rt.alloc(); "{out}/{name}.wasm")?;
    let code = bytes_of(rt, path.as_str(), wanted)?;
    let sum = sum_of(rt.alloc(), &code)?;
    if sum.as_bytes() == part.code.as_bytes() {
        return Ok(());
    }
    let words = format!(in rt.alloc();
        "it is not the one that was written with {out}/{name}.link"
    )?;
    Err(refuse(rt, path.as_str(), words.as_str(), name))
}

/// Reads the next module, and adds those that it imports.
fn add_part<R: Files + Eprint + AllocGlobal>(
    rt: &R,
    out: &str,
    number: usize,
    list: &mut List,
    parts: &mut Vec<Part>,
) -> Result<(), Exit> {
    if let Some(wanted) = list.all.get(number) {
        let part = part_in(rt, out, wanted)?;
        check_code(rt, out, wanted, &part)?;
        list.add_imports(rt.alloc(), &part)?;
        parts.push(part)?;
    }
    Ok(())
}

/// The program module of this name in a folder, and behind it the modules that it imports, directly and through others. What cannot be
/// read, and a file that is not as it was written, is reported.
pub fn parts_in<R: Files + Eprint + AllocGlobal>(
    rt: &R,
    out: &str,
    program: &str,
) -> Result<Vec<Part>, Exit> {
    let mut list = List {
        all: Vec::new(rt.alloc()),
        known: IndexMap::new(rt.alloc()),
    };
    list.add(rt.alloc(), program, None)?;
    let mut parts = Vec::new(rt.alloc());
    for number in 0..MOST_MODULES {
        if number >= list.all.len() {
            break;
        }
        add_part(rt, out, number, &mut list, &mut parts)?;
    }
    Ok(parts)
}
