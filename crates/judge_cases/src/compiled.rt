//! A program that is compiled once, for all its cases.

use crate::verdict::Verdict;
use m2c::{BuildFault, Open, Options, Outcome, SourceFile, build};
use program_input::{InputFault, has_input, place_of_input, put_input, reader_of};
use relink_input::{RelinkFault, relink};
use std::alloc::{AllocError, Global};
use std::thread::Threads;
use wasm_core::{ValidModule, WFault, read_module, validate};

/// Modules of a program, as bytes: link, and the others under their names.
#[derive(Drop)]
struct Binaries {
    link: Vec<u8>,
    modules: Vec<(String, Vec<u8>)>,
}

/// A program that was compiled with an empty input.
pub struct Compiled {
    files: Vec<SourceFile>,
    options: Options,
    binaries: Binaries,
}

// Written by hand, so that proofs above take a drop as one call.
impl Drop for Compiled {
    fn drop(self) {
        let Compiled {
            files,
            options: _options,
            binaries,
        } = self;
        drop(files);
        drop(binaries);
    }
}

impl Compiled {
    /// How many workers the program was compiled by, and its cases are judged by.
    pub fn workers(&self) -> usize {
        self.options.workers
    }
}

fn build_files<R: Threads + Sync>(
    rt: &R,
    alloc: Global,
    files: &[SourceFile],
    options: Options,
) -> Result<Binaries, Verdict> {
    match build(rt, alloc, files, options, &Open) {
        Ok(Outcome::Built { link, modules }) => Ok(Binaries { link, modules }),
        Ok(Outcome::Refused(refusals)) => Err(Verdict::Refused(refusals.len())),
        Err(BuildFault::NoMemory) => Err(Verdict::NoMemory),
        Err(fault) => Err(Verdict::Unbuilt(fault)),
    }
}

/// The verdict on an input that has no module.
fn no_input(fault: InputFault) -> Verdict {
    match fault {
        InputFault::NoMemory => Verdict::NoMemory,
        InputFault::TooLong => Verdict::NoInput(fault),
    }
}

/// Compiles the program of these files. A program that is not built is judged by this.
pub fn compile_once<R: Threads + Sync>(
    rt: &R,
    alloc: Global,
    files: Vec<SourceFile>,
    options: Options,
) -> Result<Compiled, Verdict> {
    let mut files = files;
    if let Err(fault) = put_input(alloc, &mut files, &[]) {
        return Err(no_input(fault));
    }
    let binaries = build_files(rt, alloc, &files, options)?;
    Ok(Compiled {
        files,
        options,
        binaries,
    })
}

fn copies_of(alloc: Global, files: &[SourceFile]) -> Result<Vec<SourceFile>, AllocError> {
    let mut copies = Vec::new(alloc);
    for file in files {
        copies.push(SourceFile {
            name: String::from_str(alloc, file.name.as_str())?,
            bytes: Vec::from_slice(alloc, &file.bytes)?,
        })?;
    }
    Ok(copies)
}

/// A case is one job of many, so what is compiled for it has one worker.
fn options_of_case(program: &Compiled) -> Options {
    Options {
        workers: 1,
        pages: program.options.pages,
    }
}

/// The program, compiled as a whole with this input.
fn build_anew<R: Threads + Sync>(
    rt: &R,
    alloc: Global,
    program: &Compiled,
    input: &[u8],
) -> Result<Binaries, Verdict> {
    let mut files = copies_of(alloc, &program.files)?;
    if let Err(fault) = put_input(alloc, &mut files, input) {
        return Err(no_input(fault));
    }
    build_files(rt, alloc, &files, options_of_case(program))
}

/// The module of this input, compiled by itself. None if it is refused so.
fn input_module<R: Threads + Sync>(
    rt: &R,
    alloc: Global,
    program: &Compiled,
    input: &[u8],
) -> Result<Option<Vec<u8>>, Verdict> {
    let files = match reader_of(alloc, &program.files, input) {
        Ok(files) => files,
        Err(fault) => return Err(no_input(fault)),
    };
    let mut built = match build_files(rt, alloc, &files, options_of_case(program)) {
        Ok(binaries) => binaries.modules,
        Err(Verdict::Refused(_)) => return Ok(None),
        Err(verdict) => return Err(verdict),
    };
    match place_of_input(&built) {
        None => Ok(None),
        Some(place) => {
            let (_, bytes) = built.remove(place);
            Ok(Some(bytes))
        }
    }
}

/// These modules with another one at a place.
fn with_module(
    alloc: Global,
    modules: &[(String, Vec<u8>)],
    place: usize,
    module: &[u8],
) -> Result<Vec<(String, Vec<u8>)>, AllocError> {
    let mut copies = Vec::new(alloc);
    for (at, other) in modules.iter().enumerate() {
        let bytes = if at == place {
            module
        } else {
            other.1.as_slice()
        };
        let name = String::from_str(alloc, other.0.as_str())?;
        copies.push((name, Vec::from_slice(alloc, bytes)?))?;
    }
    Ok(copies)
}

/// The program with another module for its input. None if it cannot be exchanged.
fn exchanged<R: Threads + Sync>(
    rt: &R,
    alloc: Global,
    program: &Compiled,
    input: &[u8],
) -> Result<Option<Binaries>, Verdict> {
    let modules = program.binaries.modules.as_slice();
    let Some(place) = place_of_input(modules) else {
        return Ok(None);
    };
    let Some(module) = input_module(rt, alloc, program, input)? else {
        return Ok(None);
    };
    match relink(alloc, &program.binaries.link, &modules[place].1, &module) {
        Ok(link) => Ok(Some(Binaries {
            link,
            modules: with_module(alloc, modules, place, &module)?,
        })),
        Err(RelinkFault::NoMemory) => Err(Verdict::NoMemory),
        Err(_) => Ok(None),
    }
}

fn add_module(alloc: Global, bytes: &[u8], modules: &mut Vec<ValidModule>) -> Result<(), WFault> {
    let tree = read_module(alloc, bytes)?;
    modules.push(validate(alloc, tree)?)?;
    Ok(())
}

/// The modules that these bytes spell, link first.
fn read_modules(alloc: Global, binaries: &Binaries) -> Result<Vec<ValidModule>, WFault> {
    let mut modules = Vec::new(alloc);
    add_module(alloc, &binaries.link, &mut modules)?;
    for module in &binaries.modules {
        add_module(alloc, &module.1, &mut modules)?;
    }
    Ok(modules)
}

/// The same. That they are none is want of memory: what is built is always valid.
fn modules_of(alloc: Global, binaries: &Binaries) -> Result<Vec<ValidModule>, Verdict> {
    match read_modules(alloc, binaries) {
        Ok(modules) => Ok(modules),
        Err(fault) => Err(Verdict::Unlinked(fault)),
    }
}

/// The modules of a program with this input, link first. The module of the input alone is compiled and exchanged;
/// where it cannot be, as it has no room in memory, the whole is compiled with the input. So the modules are always
/// those of the program that has this input, or it is refused as this one is.
pub fn modules_with<R: Threads + Sync>(
    rt: &R,
    alloc: Global,
    program: &Compiled,
    input: &[u8],
) -> Result<Vec<ValidModule>, Verdict> {
    if !has_input(&program.files) {
        return modules_of(alloc, &program.binaries);
    }
    match exchanged(rt, alloc, program, input)? {
        Some(binaries) => modules_of(alloc, &binaries),
        None => modules_of(alloc, &build_anew(rt, alloc, program, input)?),
    }
}
