//! The files of a program.

use crate::folder::{Folder, Setting};
use crate::heads::{Head, head_of, imports_of};
use crate::places::{Places, read_text};
use find_modules::{FindFault, FoundModule, Part, Sources, file_ending, find, folder_of};
use m2_tree::Name;
use m2c::SourceFile;
use propose_mends::{free_name, importing_program, program_around};
use serve_texts::Texts;
use std::alloc::{AllocError, Global};

/// The files of a program.
#[derive(Drop)]
pub struct Program {
    /// Its files: first that of the program module.
    pub files: Vec<SourceFile>,
    /// Whether the first file was made of an import, so that it is never shown.
    pub is_made: bool,
}

/// The name of the file of a program that was made, behind the folder in which its modules are looked for.
const MADE_NAME: &str = "?";

/// The file of this path.
pub fn file_of<'a>(files: &'a [SourceFile], path: &str) -> Option<&'a SourceFile> {
    files.iter().find(|it| it.name.as_str() == path)
}

/// Adds a file, if none of this path is there.
fn add_file(files: &mut Vec<SourceFile>, name: String, bytes: Vec<u8>) -> Result<(), AllocError> {
    if file_of(files, name.as_str()).is_none() {
        files.push(SourceFile { name, bytes })?;
    }
    Ok(())
}

/// Adds the files of a module.
fn add_sources<F: Folder>(
    places: &Places<'_, F>,
    name: &Name,
    sources: Sources,
    files: &mut Vec<SourceFile>,
) -> Result<(), AllocError> {
    let Sources {
        folder,
        definition,
        implementation,
    } = sources;
    let path = places.path_of(folder, name, Part::Definition)?;
    add_file(files, path, definition)?;
    if let Some(text) = implementation {
        let path = places.path_of(folder, name, Part::Implementation)?;
        add_file(files, path, text)?;
    }
    Ok(())
}

/// Adds the files of the modules that were found.
fn add_modules<F: Folder>(
    places: &Places<'_, F>,
    modules: Vec<FoundModule>,
    files: &mut Vec<SourceFile>,
) -> Result<(), AllocError> {
    for module in modules {
        let FoundModule { name, sources } = module;
        if let Some(sources) = sources {
            add_sources(places, &name, sources, files)?;
        }
    }
    Ok(())
}

/// Adds the files of the modules that a text imports, and of those that they import.
fn add_imported<F: Folder>(
    alloc: Global,
    places: &Places<'_, F>,
    text: &[u8],
    files: &mut Vec<SourceFile>,
) -> Result<(), AllocError> {
    match find(alloc, places, text) {
        Ok(modules) => add_modules(places, modules, files),
        Err(error) => match error {
            FindFault::NoMemory => Err(AllocError),
            FindFault::Unread(_words) => Ok(()),
        },
    }
}

/// The program of this text, with the modules that it imports.
fn program_of_text<F: Folder>(
    alloc: Global,
    texts: &Texts,
    folder: &F,
    setting: &Setting,
    path: &str,
    text: Vec<u8>,
) -> Result<Program, AllocError> {
    let places = Places::of(alloc, texts, folder, path, &setting.libraries)?;
    let mut more = Vec::new(alloc);
    add_imported(alloc, &places, &imports_of(alloc, &text)?, &mut more)?;
    let mut files = Vec::new(alloc);
    add_file(&mut files, String::from_str(alloc, path)?, text)?;
    files.append(&mut more)?;
    Ok(Program {
        files,
        is_made: false,
    })
}

/// The name of the module that has a file of this path.
fn module_in(path: &str) -> &str {
    let name = path.strip_prefix(folder_of(path)).unwrap_or(path);
    for part in [Part::Definition, Part::Implementation] {
        if let Some(module) = name.strip_suffix(file_ending(part)) {
            return module;
        }
    }
    name
}

/// A name that neither this module nor any module of these files has.
fn name_beside(alloc: Global, files: &[SourceFile], module: &str) -> Result<String, AllocError> {
    let mut taken = Vec::new(alloc);
    taken.push(module.as_bytes())?;
    for file in files {
        taken.push(module_in(file.name.as_str()).as_bytes())?;
    }
    free_name(alloc, &taken)
}

/// A program that imports the module of this name, of which a file of this path and text is a part. It has a name that none of its
/// modules has.
fn program_of_part<F: Folder>(
    alloc: Global,
    texts: &Texts,
    folder: &F,
    setting: &Setting,
    path: &str,
    text: Vec<u8>,
    module: &str,
) -> Result<Program, AllocError> {
    let importing = importing_program(alloc, &[], &[module])?;
    let mut made = String::from_str(alloc, folder_of(path))?;
    made.push_str(MADE_NAME)?;
    let mut program = program_of_text(alloc, texts, folder, setting, made.as_str(), importing)?;
    add_file(&mut program.files, String::from_str(alloc, path)?, text)?;
    let name = name_beside(alloc, &program.files, module)?;
    if let Some(first) = program.files.first_mut() {
        first.bytes = program_around(alloc, name.as_str(), module)?;
    }
    program.is_made = true;
    Ok(program)
}

/// The program of this file, or one that is made around it, if it is a part of a module. The only error is want of memory.
pub fn program_of<F: Folder>(
    alloc: Global,
    texts: &Texts,
    folder: &F,
    setting: &Setting,
    path: &str,
) -> Result<Program, AllocError> {
    let text = match read_text(alloc, texts, folder, path)? {
        Some(text) => text,
        None => Vec::new(alloc),
    };
    match head_of(alloc, &text)? {
        Head::Definition(name) | Head::Implementation(name) => program_of_part(
            alloc,
            texts,
            folder,
            setting,
            path,
            text,
            name.as_str(),
        ),
        Head::Program | Head::Unknown => {
            program_of_text(alloc, texts, folder, setting, path, text)
        }
    }
}

/// The modules of the library, from which a program may import what it lacks.
const LIBRARY: [&str; 7] = [
    "InOut", "Input", "Numbers", "Random", "Sets", "Strings", "Terminal",
];

/// Files that a program may import if its texts are mended: those that they name behind FROM and IMPORT, whatever else stands in
/// them, and those of the library, each but for files that it has.
pub fn spare_of<F: Folder>(
    alloc: Global,
    texts: &Texts,
    folder: &F,
    setting: &Setting,
    path: &str,
    files: &[SourceFile],
) -> Result<Vec<SourceFile>, AllocError> {
    let places = Places::of(alloc, texts, folder, path, &setting.libraries)?;
    let mut bytes = Vec::new(alloc);
    for file in files {
        bytes.push(file.bytes.as_slice())?;
    }
    let named = importing_program(alloc, &bytes, &LIBRARY)?;
    let mut spare = Vec::new(alloc);
    add_imported(alloc, &places, &named, &mut spare)?;
    spare.retain(|it| file_of(files, it.name.as_str()).is_none());
    Ok(spare)
}
