//! The modules of a program, found by the imports that were kept, or by the begins of texts that changed.

use crate::spreading::numbers_of;
use find_modules::{FindFault, FoundModule, MAX_MODULES, ModuleFolders, Part, Sources};
use indexmap::IndexMap;
use kept_modules::{Kept, short_sum};
use list_imports::imports_by_begin;
use m2_tree::{MAX_NAME, Name, is_console};
use std::alloc::{AllocError, Global};

/// The modules that a program imports, directly and through others, and the checksums of its text and of theirs, in the order of the
/// files: of each module its definition comes first.
#[derive(Drop)]
pub struct Found {
    pub modules: Vec<FoundModule>,
    pub texts: Vec<String>,
}

/// What was kept, by the names of modules.
#[derive(Drop)]
struct Known<'a> {
    kept: &'a Kept,
    definitions: IndexMap<&'a [u8], usize>,
    bodies: IndexMap<&'a [u8], usize>,
}

/// The checksums of the texts of a module. That of a text that is not there is empty.
#[derive(Drop)]
struct Sums {
    definition: String,
    body: String,
}

/// The modules that are found, in order, each once.
#[derive(Drop)]
struct List {
    modules: Vec<FoundModule>,
    sums: Vec<Sums>,
    seen: IndexMap<Vec<u8>, usize>,
}

/// Bodies by the names of their modules.
fn bodies_of(alloc: Global, kept: &Kept) -> Result<IndexMap<&[u8], usize>, AllocError> {
    let mut numbers = IndexMap::new(alloc);
    for (number, body) in kept.bodies.iter().enumerate() {
        numbers.insert(body.name.as_bytes(), number)?;
    }
    Ok(numbers)
}

/// The texts of a module: its definition from the first folder that has one, and the implementation beside it.
fn sources_of<F: ModuleFolders>(
    alloc: Global,
    folders: &F,
    name: &Name,
) -> Result<Option<Sources>, FindFault> {
    for folder in 0..folders.count() {
        if let Some(definition) = folders.read(alloc, folder, name, Part::Definition)? {
            let implementation = folders.read(alloc, folder, name, Part::Implementation)?;
            return Ok(Some(Sources {
                folder,
                definition,
                implementation,
            }));
        }
    }
    Ok(None)
}

/// The checksums of texts.
fn sums_of(alloc: Global, sources: &Option<Sources>) -> Result<Sums, AllocError> {
    let mut sums = Sums {
        definition: String::new(alloc),
        body: String::new(alloc),
    };
    if let Some(sources) = sources {
        sums.definition = short_sum(alloc, &sources.definition)?;
        if let Some(body) = &sources.implementation {
            sums.body = short_sum(alloc, body)?;
        }
    }
    Ok(sums)
}

/// Looks for a module, unless it is built in or was looked for before.
fn add_module<F: ModuleFolders>(
    alloc: Global,
    folders: &F,
    name: Name,
    list: &mut List,
) -> Result<(), FindFault> {
    if is_console(name.as_bytes()) || list.seen.contains_key(name.as_bytes()) {
        return Ok(());
    }
    let sources = sources_of(alloc, folders, &name)?;
    list.sums.push(sums_of(alloc, &sources)?)?;
    let key = Vec::from_slice(alloc, name.as_bytes())?;
    list.seen.insert(key, list.modules.len())?;
    list.modules.push(FoundModule { name, sources })?;
    Ok(())
}

/// Looks for each of these modules.
fn add_modules<F: ModuleFolders>(
    alloc: Global,
    folders: &F,
    names: Vec<Name>,
    list: &mut List,
) -> Result<(), FindFault> {
    for name in names {
        add_module(alloc, folders, name, list)?;
    }
    Ok(())
}

/// A word as the name of a module. What is kept has no longer one.
fn name_of(alloc: Global, word: &str) -> Result<Name, AllocError> {
    let bytes = word.as_bytes();
    Name::new(alloc, &bytes[..bytes.len().min(MAX_NAME)])
}

/// Words as names of modules.
fn names_of(alloc: Global, words: &[String]) -> Result<Vec<Name>, AllocError> {
    let mut names = Vec::new(alloc);
    for word in words {
        names.push(name_of(alloc, word.as_str())?)?;
    }
    Ok(names)
}

impl Known<'_> {
    /// The modules that the definition and the body of this module import, if neither text changed.
    fn imports(&self, name: &Name, sums: &Sums) -> Option<&[String]> {
        let definition = self.definitions.get(name.as_bytes()).copied()?;
        let body = self.bodies.get(name.as_bytes()).copied()?;
        let definition = self.kept.definitions.get(definition)?;
        let body = self.kept.bodies.get(body)?;
        let is_same = definition.text.as_bytes() == sums.definition.as_bytes()
            && body.text.as_bytes() == sums.body.as_bytes();
        if is_same { Some(&body.imports) } else { None }
    }

    /// The modules that the program imports, if its text, which has this checksum, did not change.
    fn program_imports(&self, text: &str) -> Option<&[String]> {
        let program = self.kept.bodies.first()?;
        if program.text.as_bytes() == text.as_bytes() {
            Some(&program.imports)
        } else {
            None
        }
    }
}

/// The modules that texts import: the definition's before the implementation's.
fn imports_read(alloc: Global, sources: &Option<Sources>) -> Result<Vec<Name>, FindFault> {
    let Some(sources) = sources else {
        return Ok(Vec::new(alloc));
    };
    let mut names = imports_by_begin(alloc, &sources.definition)?;
    if let Some(body) = &sources.implementation {
        let mut more = imports_by_begin(alloc, body)?;
        names.append(&mut more)?;
    }
    Ok(names)
}

/// The modules that the module of this number imports. None behind the last.
fn imports_at(
    alloc: Global,
    known: &Known<'_>,
    list: &List,
    number: usize,
) -> Result<Option<Vec<Name>>, FindFault> {
    let (Some(module), Some(sums)) = (list.modules.get(number), list.sums.get(number)) else {
        return Ok(None);
    };
    match known.imports(&module.name, sums) {
        Some(words) => Ok(Some(names_of(alloc, words)?)),
        None => Ok(Some(imports_read(alloc, &module.sources)?)),
    }
}

/// Looks for the modules that those of the list import, and that these import.
fn follow<F: ModuleFolders>(
    alloc: Global,
    folders: &F,
    known: &Known<'_>,
    list: &mut List,
) -> Result<(), FindFault> {
    for number in 0..MAX_MODULES {
        if list.modules.len() > MAX_MODULES {
            break;
        }
        let Some(names) = imports_at(alloc, known, list, number)? else {
            break;
        };
        add_modules(alloc, folders, names, list)?;
    }
    Ok(())
}

/// The checksums of the texts of all modules behind that of the program, in the order of the files.
fn texts_of(
    alloc: Global,
    program: String,
    modules: &[FoundModule],
    sums: Vec<Sums>,
) -> Result<Vec<String>, AllocError> {
    let mut texts = Vec::new(alloc);
    texts.push(program)?;
    for (module, sum) in modules.iter().zip(sums) {
        let Sums { definition, body } = sum;
        if let Some(sources) = &module.sources {
            texts.push(definition)?;
            if sources.implementation.is_some() {
                texts.push(body)?;
            }
        }
    }
    Ok(texts)
}

/// Finds the modules of the program of this text, as `find` does, and in the same order. What a module imports is taken from what was
/// kept, if its texts have the checksums that were kept, or else from the begins of its texts. So if a text has no tree, more modules
/// may be found than by `find`, in which such a text imports none.
///
/// `NoMemory` if a request for memory was refused. `Unread` if a file is there and cannot be read.
pub fn find_kept<F: ModuleFolders>(
    alloc: Global,
    folders: &F,
    program: &[u8],
    kept: &Kept,
) -> Result<Found, FindFault> {
    let known = Known {
        kept,
        definitions: numbers_of(alloc, kept)?,
        bodies: bodies_of(alloc, kept)?,
    };
    let text = short_sum(alloc, program)?;
    let names = match known.program_imports(text.as_str()) {
        Some(words) => names_of(alloc, words)?,
        None => imports_by_begin(alloc, program)?,
    };
    let mut list = List {
        modules: Vec::new(alloc),
        sums: Vec::new(alloc),
        seen: IndexMap::new(alloc),
    };
    add_modules(alloc, folders, names, &mut list)?;
    follow(alloc, folders, &known, &mut list)?;
    let List { modules, sums, .. } = list;
    let texts = texts_of(alloc, text, &modules, sums)?;
    Ok(Found { modules, texts })
}
