//! The programs of all open texts.

use crate::folder::{Folder, Setting};
use crate::heads::{Head, head_of};
use crate::program::{Program, file_of, program_of};
use crate::refused::{Shown, shown_of};
use find_modules::{Part, file_ending, folder_of};
use serve_texts::Texts;
use std::alloc::{AllocError, Global};
use std::thread::Threads;

/// The last rule that is looked at before modules are checked.
const LAST_OF_READING: u32 = 25;

/// Which open texts begin a program.
#[derive(Clone, Copy, PartialEq, Eq)]
enum Sort {
    Programs,
    Parts,
}

/// Which sort of text begins so.
fn sort_of(head: &Head) -> Sort {
    match head {
        Head::Program | Head::Unknown => Sort::Programs,
        Head::Definition(_) | Head::Implementation(_) => Sort::Parts,
    }
}

/// The open texts of a sort, by their paths.
fn paths_of(alloc: Global, texts: &Texts, sort: Sort) -> Result<Vec<String>, AllocError> {
    let mut all = Vec::new(alloc);
    for path in texts.paths(alloc)? {
        let text: &[u8] = match texts.get(path.as_str()) {
            Some(open) => open.text.bytes(),
            None => b"",
        };
        if sort_of(&head_of(alloc, text)?) == sort {
            all.push(path)?;
        }
    }
    Ok(all)
}

/// Whether one of these programs has the file of this path.
fn is_covered(programs: &[Program], path: &str) -> bool {
    programs
        .iter()
        .any(|program| file_of(&program.files, path).is_some())
}

/// Adds the programs that are made for the open parts that no program has.
fn add_parts<F: Folder>(
    alloc: Global,
    texts: &Texts,
    folder: &F,
    setting: &Setting,
    programs: &mut Vec<Program>,
) -> Result<(), AllocError> {
    for path in paths_of(alloc, texts, Sort::Parts)? {
        if !is_covered(programs, path.as_str()) {
            programs.push(program_of(alloc, texts, folder, setting, path.as_str())?)?;
        }
    }
    Ok(())
}

/// The programs of all open texts: those that begin one, and those that are made for parts that no other has.
pub fn roots_of<F: Folder>(
    alloc: Global,
    texts: &Texts,
    folder: &F,
    setting: &Setting,
) -> Result<Vec<Program>, AllocError> {
    let mut programs = Vec::new(alloc);
    for path in paths_of(alloc, texts, Sort::Programs)? {
        programs.push(program_of(alloc, texts, folder, setting, path.as_str())?)?;
    }
    add_parts(alloc, texts, folder, setting, &mut programs)?;
    Ok(programs)
}

/// The programs of open texts that have the file of this path, or one of its own.
pub fn programs_with<F: Folder>(
    alloc: Global,
    texts: &Texts,
    folder: &F,
    setting: &Setting,
    path: &str,
) -> Result<Vec<Program>, AllocError> {
    let mut programs = roots_of(alloc, texts, folder, setting)?;
    programs.retain(|program| file_of(&program.files, path).is_some());
    if programs.is_empty() {
        programs.push(program_of(alloc, texts, folder, setting, path)?)?;
    }
    Ok(programs)
}

/// The most files of a folder that are looked at.
const MOST_FILES: usize = 64;

/// Whether a program has a file that one of these programs has too.
fn shares_file(programs: &[Program], program: &Program) -> bool {
    program
        .files
        .iter()
        .any(|file| is_covered(programs, file.name.as_str()))
}

/// Adds the program that this file of a folder begins, if it shares a file with others, and is not there yet.
fn add_neighbour<F: Folder>(
    alloc: Global,
    texts: &Texts,
    folder: &F,
    setting: &Setting,
    neighbour: &str,
    programs: &mut Vec<Program>,
) -> Result<(), AllocError> {
    if is_covered(programs, neighbour) {
        return Ok(());
    }
    let program = program_of(alloc, texts, folder, setting, neighbour)?;
    if !program.is_made && shares_file(programs, &program) {
        programs.push(program)?;
    }
    Ok(())
}

/// The programs of open texts that have the file of this path, and those that files of its folder begin, if they share a file. At
/// most 64 files of the folder are looked at.
pub fn programs_around<F: Folder>(
    alloc: Global,
    texts: &Texts,
    folder: &F,
    setting: &Setting,
    path: &str,
) -> Result<Vec<Program>, AllocError> {
    let mut programs = programs_with(alloc, texts, folder, setting, path)?;
    let front = folder_of(path);
    for name in folder.list(alloc, front)?.iter().take(MOST_FILES) {
        if name.ends_with(file_ending(Part::Implementation)) {
            let mut neighbour = String::from_str(alloc, front)?;
            neighbour.push_str(name.as_str())?;
            add_neighbour(
                alloc,
                texts,
                folder,
                setting,
                neighbour.as_str(),
                &mut programs,
            )?;
        }
    }
    Ok(programs)
}

/// Whether something is among what is shown already.
fn is_known(all: &[Shown], one: &Shown) -> bool {
    all.iter().any(|it| {
        it.pos == one.pos && it.number == one.number && it.path.as_str() == one.path.as_str()
    })
}

/// Adds what is not there yet.
fn add_new(all: &mut Vec<Shown>, more: Vec<Shown>) -> Result<(), AllocError> {
    for one in more {
        if !is_known(all, &one) {
            all.push(one)?;
        }
    }
    Ok(())
}

/// Whether a program was refused before its modules were checked.
fn is_unchecked(shown: &[Shown]) -> bool {
    shown.iter().any(|it| it.number <= LAST_OF_READING)
}

/// Adds what is refused of each open part by itself.
fn add_parts_shown<R: AllocGlobal + Threads + Sync, F: Folder>(
    rt: &R,
    texts: &Texts,
    folder: &F,
    setting: &Setting,
    all: &mut Vec<Shown>,
) -> Result<(), AllocError> {
    let alloc = rt.alloc();
    for path in paths_of(alloc, texts, Sort::Parts)? {
        let program = program_of(alloc, texts, folder, setting, path.as_str())?;
        add_new(all, shown_of(rt, setting, &program)?)?;
    }
    Ok(())
}

/// What is refused of the programs of all open texts. A part whose program is refused before modules are checked is also looked
/// at by itself.
pub fn all_shown<R: AllocGlobal + Threads + Sync, F: Folder>(
    rt: &R,
    texts: &Texts,
    folder: &F,
    setting: &Setting,
) -> Result<Vec<Shown>, AllocError> {
    let alloc = rt.alloc();
    let mut all = Vec::new(alloc);
    let mut is_whole = true;
    for program in &roots_of(alloc, texts, folder, setting)? {
        let shown = shown_of(rt, setting, program)?;
        is_whole = is_whole && !is_unchecked(&shown);
        add_new(&mut all, shown)?;
    }
    if !is_whole {
        add_parts_shown(rt, texts, folder, setting, &mut all)?;
    }
    Ok(all)
}
