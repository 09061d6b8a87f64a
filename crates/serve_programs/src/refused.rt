//! What is refused of a program.

use crate::folder::Setting;
use crate::importers::add_importers;
use crate::program::{Program, file_of};
use explain_rules::sentence;
use explain_types::type_words;
use m2_tree::{Pos, Refusal};
use m2c::{BuildFault, Open, Options, Outcome, SourceFile, build};
use propose_mends::Source;
use show_refusals::way_of;
use std::alloc::{AllocError, Global};
use std::thread::Threads;

/// The most refusals of a program of which it is said what stood there. For each the program is compiled several times.
const MOST_EXPLAINED: usize = 8;

/// How bad it is.
#[derive(Clone, Copy, Debug, PartialEq, Eq)]
pub enum Severity {
    /// It is refused.
    Error,
    /// What it names is refused.
    Information,
}

/// What is refused of a file, as an editor shows it.
#[derive(Drop)]
pub struct Shown {
    /// The file.
    pub path: String,
    /// The refused token, and its bytes.
    pub pos: Pos,
    pub length: usize,
    /// The number of the rule.
    pub number: u32,
    pub severity: Severity,
    /// The rule in a sentence, and behind a semicolon what stood there.
    pub words: String,
}

/// What is not made of a program, as memory that ran out. Numbers of workers and pages that are out of range are no refusals.
fn none_or_memory(alloc: Global, fault: BuildFault) -> Result<Vec<Refusal>, AllocError> {
    match fault {
        BuildFault::NoMemory => Err(AllocError),
        BuildFault::Workers | BuildFault::Pages => Ok(Vec::new(alloc)),
    }
}

/// The options of a build.
fn options_of(setting: &Setting) -> Options {
    Options {
        workers: setting.workers,
        pages: setting.pages,
    }
}

/// What the compiler refuses of files. The only error is want of memory.
pub fn refusals_of<R: AllocGlobal + Threads + Sync>(
    rt: &R,
    setting: &Setting,
    files: &[SourceFile],
) -> Result<Vec<Refusal>, AllocError> {
    match build(rt, rt.alloc(), files, options_of(setting), &Open) {
        Ok(Outcome::Refused(refusals)) => Ok(refusals),
        Ok(Outcome::Built { link, modules }) => {
            drop(link);
            drop(modules);
            Ok(Vec::new(rt.alloc()))
        }
        Err(fault) => none_or_memory(rt.alloc(), fault),
    }
}

/// How many bytes of a token stand in its first line: those of a string that is not closed reach further.
fn length_in_line(token: &[u8]) -> usize {
    token
        .iter()
        .take_while(|byte| **byte != b'\n' && **byte != b'\r')
        .count()
}

/// How many bytes the token at a place has, in its line: one, if none is known.
pub fn length_at(alloc: Global, text: &[u8], pos: Pos) -> Result<usize, AllocError> {
    let source = Source::of(alloc, text, pos)?;
    match source.number_at(pos) {
        Some(at) => Ok(length_in_line(source.spelling(at))),
        None => Ok(1),
    }
}

/// What stood at a refused place, if that is known.
fn detail_of<R: AllocGlobal + Threads + Sync>(
    rt: &R,
    setting: &Setting,
    files: &[SourceFile],
    refusal: &Refusal,
) -> Result<Option<String>, AllocError> {
    match type_words(rt, files, options_of(setting), refusal) {
        Ok(words) => Ok(words),
        Err(BuildFault::NoMemory) => Err(AllocError),
        Err(BuildFault::Workers | BuildFault::Pages) => Ok(None),
    }
}

/// Adds a sentence behind others.
fn add_sentence(all: &mut String, words: &str) -> Result<(), AllocError> {
    if !words.is_empty() {
        all.push_str("; ")?;
        all.push_str(words)?;
    }
    Ok(())
}

/// All that is said of a refusal.
fn words_of<R: AllocGlobal + Threads + Sync>(
    rt: &R,
    setting: &Setting,
    files: &[SourceFile],
    refusal: &Refusal,
    is_explained: bool,
) -> Result<String, AllocError> {
    let alloc = rt.alloc();
    let mut all = String::from_str(alloc, sentence(refusal.number).unwrap_or("refused"))?;
    if is_explained {
        if let Some(detail) = detail_of(rt, setting, files, refusal)? {
            add_sentence(&mut all, detail.as_str())?;
        }
    }
    if let Some(way) = way_of(alloc, files, refusal)? {
        add_sentence(&mut all, way)?;
    }
    Ok(all)
}

/// What is refused at a place of one of these files.
fn shown_at<R: AllocGlobal + Threads + Sync>(
    rt: &R,
    setting: &Setting,
    files: &[SourceFile],
    refusal: &Refusal,
    is_explained: bool,
) -> Result<Shown, AllocError> {
    let text: &[u8] = match file_of(files, refusal.file.as_str()) {
        Some(file) => file.bytes.as_slice(),
        None => b"",
    };
    let path = String::from_str(rt.alloc(), refusal.file.as_str())?;
    let length = length_at(rt.alloc(), text, refusal.pos)?;
    let words = words_of(rt, setting, files, refusal, is_explained)?;
    Ok(Shown {
        path,
        pos: refusal.pos,
        length,
        number: refusal.number,
        severity: Severity::Error,
        words,
    })
}

/// Whether something is shown of a file: not of one that was made.
fn is_shown(program: &Program, refusal: &Refusal) -> bool {
    match program.files.first() {
        Some(first) if program.is_made => first.name.as_str() != refusal.file.as_str(),
        _ => true,
    }
}

/// What is refused of a program, as an editor shows it, and where a refused definition is imported. The only error is want of
/// memory.
pub fn shown_of<R: AllocGlobal + Threads + Sync>(
    rt: &R,
    setting: &Setting,
    program: &Program,
) -> Result<Vec<Shown>, AllocError> {
    let files = program.files.as_slice();
    let refusals = refusals_of(rt, setting, files)?;
    let mut all = Vec::new(rt.alloc());
    for (at, refusal) in refusals.iter().enumerate() {
        if is_shown(program, refusal) {
            let is_explained = at < MOST_EXPLAINED;
            all.push(shown_at(rt, setting, files, refusal, is_explained)?)?;
        }
    }
    add_importers(rt.alloc(), program, &mut all)?;
    Ok(all)
}
