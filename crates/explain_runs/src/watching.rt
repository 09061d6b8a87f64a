//! A run is made once more, of modules that say where they are.

use crate::functions::{Function, Functions, functions_of};
use crate::profile::Tallies;
use anyhow::Result;
use follow_runs::{Ear, Followed, follow};
use m2c::{Open, Options, Outcome, SourceFile, build};
use mark_statements::{Mark, fully_marked_text};
use show_passes::Built;
use std::alloc::{AllocError, Global};
use std::thread::Threads;
use wasm_core::{ValidModule, read_module, validate};
use wasm_run::{End, Instances};
use watch_code::{Chosen, Reader, Watched, watch_module, with_stores};

/// A program whose statements are marked, as it was built.
pub struct Marked {
    pub link: Vec<u8>,
    pub modules: Vec<Built>,
    pub functions: Functions,
}

// Written by hand, so that proofs above take a drop as one call.
impl Drop for Marked {
    fn drop(self) {
        let Marked {
            link,
            modules,
            functions,
        } = self;
        drop(link);
        drop(modules);
        drop(functions);
    }
}

/// A run that was watched.
#[derive(Drop)]
pub struct Course {
    /// Where it came to. Nothing if it was broken off.
    pub end: Option<End>,
    pub reader: Reader,
    /// How many checks of the kind that failed the chosen statement has.
    pub sites: u8,
}

/// The files with all their marks.
fn marked_files(alloc: Global, files: &[SourceFile]) -> Result<Vec<SourceFile>, AllocError> {
    let mut all = Vec::new(alloc);
    for file in files {
        let name = String::from_str(alloc, file.name.as_str())?;
        let bytes = fully_marked_text(alloc, &file.bytes)?;
        all.push(SourceFile { name, bytes })?;
    }
    Ok(all)
}

/// The program of these files with marks. Nothing if it is not built, as a text may be too long or nest too deep with its marks.
pub fn marked_program<R>(rt: &R, files: &[SourceFile], options: Options) -> Result<Option<Marked>>
where
    R: AllocGlobal + Threads + Sync,
{
    let alloc = rt.alloc();
    let marked = marked_files(alloc, files)?;
    match build(rt, alloc, &marked, options, &Open)? {
        Outcome::Refused(_) => Ok(None),
        Outcome::Built { link, modules } => match functions_of(alloc, files, &modules)? {
            None => Ok(None),
            Some(functions) => Ok(Some(Marked {
                link,
                modules,
                functions,
            })),
        },
    }
}

/// The marks of functions.
fn marks_of(alloc: Global, functions: &[Function]) -> Result<Vec<&[Mark]>, AllocError> {
    let mut all: Vec<&[Mark]> = Vec::new(alloc);
    for function in functions {
        all.push(function.marks.as_slice())?;
    }
    Ok(all)
}

/// The module of this number with signals.
fn watched_module(
    alloc: Global,
    program: &Marked,
    number: usize,
    bytes: &[u8],
    chosen: Option<Chosen>,
) -> Result<Option<Watched>> {
    let functions = &program.functions;
    let tree = read_module(alloc, bytes)?;
    let first = u32::try_from(functions.first_of(number)).unwrap_or(u32::MAX);
    let marks = marks_of(alloc, functions.of_module(number))?;
    Ok(watch_module(alloc, tree, first, &marks, chosen)?)
}

/// Modules with signals, link first.
#[derive(Drop)]
struct Watching {
    modules: Vec<ValidModule>,
    sites: u8,
}

/// The modules of a program with signals. Nothing if the code of a module has not its marks.
fn watched_modules(
    alloc: Global,
    program: &Marked,
    chosen: Option<Chosen>,
) -> Result<Option<Watching>> {
    let mut modules = Vec::new(alloc);
    let mut all: u8 = 0;
    modules.push(validate(alloc, read_module(alloc, &program.link)?)?)?;
    for (number, module) in program.modules.iter().enumerate() {
        match watched_module(alloc, program, number, &module.1, chosen)? {
            None => return Ok(None),
            Some(watched) => {
                let Watched { tree, sites } = watched;
                all = all.saturating_add(sites);
                modules.push(validate(alloc, tree)?)?;
            }
        }
    }
    Ok(Some(Watching {
        modules,
        sites: all,
    }))
}

/// The modules of a program that also tell what they write (`with_stores`), link first. Nothing if the code of a module has not its
/// marks.
pub fn storing_modules(alloc: Global, program: &Marked) -> Result<Option<Vec<ValidModule>>> {
    let mut modules = Vec::new(alloc);
    modules.push(validate(alloc, read_module(alloc, &program.link)?)?)?;
    for (number, module) in program.modules.iter().enumerate() {
        match watched_module(alloc, program, number, &module.1, None)? {
            None => return Ok(None),
            Some(watched) => {
                let own = program.functions.of_module(number).len();
                let tree = with_stores(alloc, watched.tree, own)?;
                modules.push(validate(alloc, tree)?)?;
            }
        }
    }
    Ok(Some(modules))
}

/// Makes one reduction, and adds it to the tallies. False if the run is over.
fn run_one(
    instances: &mut Instances<'_>,
    ear: &mut Ear,
    tallies: &mut Tallies,
) -> Result<bool, AllocError> {
    if ear.failures > 0 {
        return Ok(false);
    }
    let place = ear.reader.innermost();
    let running = ear.reader.activations.len();
    let (arrivals, signals) = (ear.reader.arrivals, ear.reader.reductions);
    let is_on = matches!(instances.run(1, ear), Ok(End::StillRunning));
    if let Some(place) = place {
        tallies.take(place, 1, ear.reader.reductions.saturating_sub(signals));
    }
    if let Some(place) = ear
        .reader
        .innermost()
        .filter(|_| ear.reader.arrivals > arrivals)
    {
        tallies.count(place);
    }
    tallies.follow(running, &ear.reader.activations)?;
    Ok(is_on)
}

/// Runs a program with signals reduction by reduction, for at most so many of its own, and adds them to the tallies. False if
/// its code has not its marks.
pub fn watch_each(
    alloc: Global,
    program: &Marked,
    steps: u64,
    tallies: &mut Tallies,
) -> Result<bool> {
    let Some(watching) = watched_modules(alloc, program, None)? else {
        return Ok(false);
    };
    let mut instances = Instances::link(alloc, &watching.modules)?;
    let mut ear = Ear::new(alloc);
    for made in 0..u64::MAX {
        let own = made.saturating_sub(ear.reader.reductions);
        if own >= steps || !run_one(&mut instances, &mut ear, tallies)? {
            break;
        }
    }
    Ok(true)
}

/// Runs a program with signals, for at most so many reductions of its own. Nothing if its code has not its marks.
pub fn watch(
    alloc: Global,
    program: &Marked,
    steps: u64,
    chosen: Option<Chosen>,
) -> Result<Option<Course>> {
    let Some(watching) = watched_modules(alloc, program, chosen)? else {
        return Ok(None);
    };
    let Followed { end, reader } = follow(alloc, &watching.modules, steps)?;
    Ok(Some(Course {
        end,
        reader,
        sites: watching.sites,
    }))
}
