//! The files of a program.

use crate::places::Places;
use anyhow::Result;
use build_jobs::SourceFile;
use command_words::{Exit, FAILED};
use find_modules::{FindFault, FoundModule, Part, Sources, find, folder_of};
use m2_rule::Rule;
use m2_tree::{Lexeme, Name, Refusal, Symbol};
use propose_mends::importing_program;
use scan_tokens::{ScanError, scan};
use std::alloc::{AllocError, Global};
use std::rt::Files;
use system_streams::read_text;
use tool_words::{PROGRAM, Setting};

/// The files of a program, and the modules that it lacks.
pub struct Program {
    /// Its own file, and those that were found.
    pub files: Vec<SourceFile>,
    /// The names of the modules whose definition is in no folder.
    pub lacking: Vec<String>,
    /// The folders that were searched.
    pub searched: Vec<String>,
}

// Written by hand, so that proofs above take a drop as one call.
impl Drop for Program {
    fn drop(self) {
        let Program {
            files,
            lacking,
            searched,
        } = self;
        drop(files);
        drop(lacking);
        drop(searched);
    }
}

impl Program {
    /// The files alone.
    pub fn into_files(self) -> Vec<SourceFile> {
        let Program {
            files,
            lacking: _lacking,
            searched: _searched,
        } = self;
        files
    }
}

/// Adds a file that was found.
pub fn add_file<R: Files + Eprint + AllocGlobal>(
    rt: &R,
    is_verbose: bool,
    name: String,
    bytes: Vec<u8>,
    files: &mut Vec<SourceFile>,
) -> Result<(), AllocError> {
    if is_verbose {
        let _ = eprintln!(rt; "{PROGRAM}: found {name}");
    }
    files.push(SourceFile { name, bytes })?;
    Ok(())
}

/// Adds the files of a module.
fn add_sources<R: Files + Eprint + AllocGlobal>(
    rt: &R,
    is_verbose: bool,
    places: &Places<'_, R>,
    name: &Name,
    sources: Sources,
    files: &mut Vec<SourceFile>,
) -> Result<(), AllocError> {
    let Sources {
        folder,
        definition,
        implementation,
    } = sources;
    let path = places.path_of(folder, name, Part::Definition)?;
    add_file(rt, is_verbose, path, definition, files)?;
    if let Some(text) = implementation {
        let path = places.path_of(folder, name, Part::Implementation)?;
        add_file(rt, is_verbose, path, text, files)?;
    }
    Ok(())
}

/// Adds a module, or the name of one that is nowhere.
fn add_module<R: Files + Eprint + AllocGlobal>(
    rt: &R,
    is_verbose: bool,
    places: &Places<'_, R>,
    module: FoundModule,
    program: &mut Program,
) -> Result<(), AllocError> {
    let FoundModule { name, sources } = module;
    match sources {
        Some(sources) => add_sources(rt, is_verbose, places, &name, sources, &mut program.files),
        None => {
            let name = String::from_utf8_lossy(rt.alloc(), name.as_bytes())?;
            program.lacking.push(name)?;
            Ok(())
        }
    }
}

/// The folder of this front, for people: the front without its slash.
fn add_searched<R: AllocGlobal>(
    rt: &R,
    front: &str,
    searched: &mut Vec<String>,
) -> Result<(), AllocError> {
    let shown = match front.strip_suffix('/') {
        None => ".",
        Some("") => "/",
        Some(folder) => folder,
    };
    searched.push(String::from_str(rt.alloc(), shown)?)?;
    Ok(())
}

/// The folders that are searched, for people.
pub fn searched_by<R: Files + AllocGlobal>(
    rt: &R,
    places: &Places<'_, R>,
) -> Result<Vec<String>, AllocError> {
    let mut searched = Vec::new(rt.alloc());
    for front in places.fronts() {
        add_searched(rt, front.as_str(), &mut searched)?;
    }
    Ok(searched)
}

/// The program of this text alone, for which no folder was searched.
pub fn alone(alloc: Global, path: &str, bytes: Vec<u8>) -> Result<Program, AllocError> {
    let mut files = Vec::new(alloc);
    let name = String::from_str(alloc, path)?;
    files.push(SourceFile { name, bytes })?;
    Ok(Program {
        files,
        lacking: Vec::new(alloc),
        searched: Vec::new(alloc),
    })
}

/// A program with these modules.
fn with_modules<R: Files + Eprint + AllocGlobal>(
    rt: &R,
    is_verbose: bool,
    places: &Places<'_, R>,
    modules: Vec<FoundModule>,
    program: Program,
) -> Result<Program, AllocError> {
    let mut program = program;
    for module in modules {
        add_module(rt, is_verbose, places, module, &mut program)?;
    }
    Ok(program)
}

/// Says why modules were not found.
pub fn say_find_fault<R: Eprint>(rt: &R, fault: FindFault) -> Exit {
    let _ = match fault {
        FindFault::NoMemory => eprintln!(rt; "{PROGRAM}: no memory left (90)"),
        FindFault::Unread(words) => eprintln!(rt; "{PROGRAM}: cannot read {words}"),
    };
    Exit::Reported(FAILED)
}

/// The program of this text, with the modules that were found in these places.
pub fn program_of_modules<R: Files + Eprint + AllocGlobal>(
    rt: &R,
    setting: &Setting,
    path: &str,
    text: Vec<u8>,
    places: &Places<'_, R>,
    modules: Vec<FoundModule>,
) -> Result<Program, AllocError> {
    let mut program = alone(rt.alloc(), path, text)?;
    program.searched = searched_by(rt, places)?;
    with_modules(rt, setting.is_verbose, places, modules, program)
}

/// The program of this text, with the modules that it imports. A file that is there and cannot be read is reported.
pub fn program_of_text<R: Files + Eprint + AllocGlobal>(
    rt: &R,
    setting: &Setting,
    path: &str,
    text: Vec<u8>,
) -> Result<Program, Exit> {
    let places = Places::of(rt, path, &setting.libraries)?;
    match find(rt.alloc(), &places, &text) {
        Ok(modules) => Ok(program_of_modules(rt, setting, path, text, &places, modules)?),
        Err(fault) => Err(say_find_fault(rt, fault)),
    }
}

/// The modules of the library, from which a program may import what it lacks.
const LIBRARY: [&str; 7] = [
    "InOut", "Input", "Numbers", "Random", "Sets", "Strings", "Terminal",
];

/// Files that a program with refused texts may need.
#[derive(Drop)]
pub struct Spare {
    /// Its files, and those that its texts name behind FROM and IMPORT, whatever else stands in them.
    pub files: Vec<SourceFile>,
    /// The other files of the library.
    pub library: Vec<SourceFile>,
}

/// Copies the files of a program that are not among others.
fn copy_new(
    alloc: Global,
    files: &[SourceFile],
    known: &[SourceFile],
    all: &mut Vec<SourceFile>,
) -> Result<(), AllocError> {
    for file in files {
        let is_new = known
            .iter()
            .all(|it| it.name.as_str() != file.name.as_str());
        if is_new {
            let name = String::from_str(alloc, file.name.as_str())?;
            let bytes = Vec::from_slice(alloc, &file.bytes)?;
            all.push(SourceFile { name, bytes })?;
        }
    }
    Ok(())
}

/// The files of the modules that a text imports, none of them reported. Nothing of a file that cannot be read.
fn files_of_text<R: Files + Eprint + AllocGlobal>(
    rt: &R,
    setting: &Setting,
    path: &str,
    text: &[u8],
) -> Result<Vec<SourceFile>, AllocError> {
    let places = Places::of(rt, path, &setting.libraries)?;
    let program = alone(rt.alloc(), "", Vec::new(rt.alloc()))?;
    match find(rt.alloc(), &places, text) {
        Ok(modules) => {
            let found = with_modules(rt, false, &places, modules, program)?;
            let mut all = Vec::new(rt.alloc());
            copy_new(rt.alloc(), &found.files, &[], &mut all)?;
            Ok(all)
        }
        Err(FindFault::NoMemory) => Err(AllocError),
        Err(FindFault::Unread(_)) => Ok(Vec::new(rt.alloc())),
    }
}

/// A program that imports each module that is named in these files.
fn program_of_names(alloc: Global, files: &[SourceFile]) -> Result<Vec<u8>, AllocError> {
    let mut texts = Vec::new(alloc);
    for file in files {
        texts.push(file.bytes.as_slice())?;
    }
    importing_program(alloc, &texts, &[])
}

/// The files that the program of this file may need if its texts are mended.
pub fn spare_files<R: Files + Eprint + AllocGlobal>(
    rt: &R,
    setting: &Setting,
    path: &str,
    files: &[SourceFile],
) -> Result<Spare, AllocError> {
    let alloc = rt.alloc();
    let mut all = Vec::new(alloc);
    copy_new(alloc, files, &[], &mut all)?;
    let named = program_of_names(alloc, files)?;
    let found = files_of_text(rt, setting, path, &named)?;
    copy_new(alloc, &found, files, &mut all)?;
    let whole = importing_program(alloc, &[], &LIBRARY)?;
    let found = files_of_text(rt, setting, path, &whole)?;
    let mut library = Vec::new(alloc);
    copy_new(alloc, &found, &all, &mut library)?;
    all.retain(|it| !it.name.is_empty());
    library.retain(|it| !it.name.is_empty());
    Ok(Spare {
        files: all,
        library,
    })
}

/// The text of a file. If it cannot be read, that is reported.
pub fn text_of<R: Files + Eprint + AllocGlobal>(rt: &R, path: &str) -> Result<Vec<u8>, Exit> {
    match read_text(rt, path) {
        Ok(text) => Ok(text),
        Err(error) => {
            let _ = eprintln!(rt; "{PROGRAM}: cannot read {path}: {error}");
            Err(Exit::Reported(FAILED))
        }
    }
}

/// The text of a file, or of one whose name has `.mod` behind it, with the path of the one that is there. If neither
/// can be read, that is reported of the first.
pub fn text_of_program<R: Files + Eprint + AllocGlobal>(
    rt: &R,
    path: &str,
) -> Result<(String, Vec<u8>), Exit> {
    let named = format!(in rt.alloc(); "{path}.mod")?;
    match read_text(rt, path) {
        Ok(text) => Ok((String::from_str(rt.alloc(), path)?, text)),
        Err(_) => match read_text(rt, named.as_str()) {
            Ok(text) => Ok((named, text)),
            Err(_) => Ok((String::from_str(rt.alloc(), path)?, text_of(rt, path)?)),
        },
    }
}

/// The program of this file, or of the one whose name has `.mod` behind it, with the modules that it imports. A file
/// that cannot be read is reported.
pub fn find_program<R: Files + Eprint + AllocGlobal>(
    rt: &R,
    setting: &Setting,
    path: &str,
) -> Result<Program, Exit> {
    let (path, text) = text_of_program(rt, path)?;
    program_of_text(rt, setting, path.as_str(), text)
}

/// The name of the program that imports a module which is checked alone, and how it is told.
const CHECKING: &str = "ProgramOfOneModule";

const CHECKING_FILE: &str = "(a program that imports the module)";

/// The module of which a text is the definition or the implementation. Nothing of a program, or of a text that begins in another
/// way or does not divide into tokens.
fn module_of(alloc: Global, text: &[u8]) -> Result<Option<String>, AllocError> {
    let tokens = match scan(alloc, text) {
        Ok(tokens) => tokens,
        Err(ScanError::Refused(_)) => return Ok(None),
        Err(ScanError::NoMemory) => return Err(AllocError),
    };
    let lexemes = (tokens.get(0), tokens.get(1), tokens.get(2));
    let (Some(first), Some(second), Some(third)) = lexemes else {
        return Ok(None);
    };
    let is_part = matches!(
        first.lexeme,
        Lexeme::Symbol(Symbol::Definition | Symbol::Implementation)
    );
    match (&second.lexeme, &third.lexeme) {
        (Lexeme::Symbol(Symbol::Module), Lexeme::Name(name)) if is_part => {
            Ok(Some(String::from_utf8_lossy(alloc, name.as_bytes())?))
        }
        _ => Ok(None),
    }
}

/// A program that imports this module, found in the folder of this file and in those behind it. It has a name of its own there: the
/// file of a program is none of a module's.
fn importer_of<R: Files + Eprint + AllocGlobal>(
    rt: &R,
    setting: &Setting,
    path: &str,
    module: &str,
) -> Result<Program, Exit> {
    let text = format!(in rt.alloc(); "MODULE {CHECKING}; IMPORT {module}; END {CHECKING}.")?;
    let text = Vec::from_slice(rt.alloc(), text.as_bytes())?;
    let folder = folder_of(path);
    let name = format!(in rt.alloc(); "{folder}{CHECKING_FILE}")?;
    program_of_text(rt, setting, name.as_str(), text)
}

/// What is checked if this file is named: the program of it, or a program that imports the module of which it is a part. If this file
/// is none that belongs to its module by its name, it is checked as a program. A file that cannot be read is reported.
pub fn find_checked<R: Files + Eprint + AllocGlobal>(
    rt: &R,
    setting: &Setting,
    path: &str,
) -> Result<Program, Exit> {
    let (path, text) = text_of_program(rt, path)?;
    if let Some(module) = module_of(rt.alloc(), &text)? {
        let program = importer_of(rt, setting, path.as_str(), module.as_str())?;
        let is_found = program
            .files
            .iter()
            .any(|it| it.name.as_str() == path.as_str());
        if is_found {
            return Ok(program);
        }
    }
    program_of_text(rt, setting, path.as_str(), text)
}

/// The file that a definition or an implementation lacks beside it, if it is refused for that, in a sentence. Nothing else.
pub fn partner_words(alloc: Global, refusal: &Refusal) -> Result<String, AllocError> {
    let file = refusal.file.as_str();
    let (name, ending) = match (file.strip_suffix(".def"), file.strip_suffix(".mod")) {
        (Some(name), _) => (name, "mod"),
        (None, Some(name)) => (name, "def"),
        (None, None) => return Ok(String::new(alloc)),
    };
    if refusal.number != Rule::LonelyModule.number() {
        return Ok(String::new(alloc));
    }
    format!(in alloc; "the file {name}.{ending} is wanted beside it")
}
