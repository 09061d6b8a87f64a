//! Programs that are built in memory.

use crate::mending::say_mends;
use crate::pages::say_pages;
use anyhow::Result;
use command_words::{Exit, FAILED};
use explain_types::type_words;
use find_files::{Program, find_program};
use m2_tree::Refusal;
use m2c::{BuildFault, Open, Options, Outcome, SourceFile, build};
use run_program::ProgramFault;
use std::rt::Files;
use std::thread::Threads;
use tool_output::show;
use tool_words::{PROGRAM, Setting, Style};

/// The modules of a program.
#[derive(Drop)]
pub struct Modules {
    /// The files of which they were built.
    pub files: Vec<SourceFile>,
    /// The module that all begins with.
    pub link: Vec<u8>,
    /// The others under their names, in the order in which they start.
    pub others: Vec<(String, Vec<u8>)>,
}

/// Says why the program of the file of this name was not built or not run.
pub fn say_fault<R: Eprint>(rt: &R, path: &str, fault: ProgramFault) {
    let words = match fault {
        ProgramFault::Workers => "the number of workers is out of range (70)",
        ProgramFault::Pages => "the number of pages is out of range (73)",
        ProgramFault::NoMemory => "no memory left (90)",
        ProgramFault::Write => "standard output failed (91)",
    };
    let _ = eprintln!(rt; "{PROGRAM}: {path}: {words}");
}

/// The most refusals of which it is said what stood there. For each the program is compiled several times.
const MOST_EXPLAINED: usize = 8;

/// What stood at each of the first refused places, as far as it is known: which types met, or what a parameter is.
pub fn details_of<R: AllocGlobal + Threads + Sync>(
    rt: &R,
    files: &[SourceFile],
    options: Options,
    refusals: &[Refusal],
) -> Result<Vec<String>> {
    let mut details = Vec::new(rt.alloc());
    for refusal in refusals.iter().take(MOST_EXPLAINED) {
        let detail = match type_words(rt, files, options, refusal)? {
            Some(words) => words,
            None => String::new(rt.alloc()),
        };
        details.push(detail)?;
    }
    Ok(details)
}

/// Says what stood at refused places.
fn say_details<R: Eprint>(rt: &R, refusals: &[Refusal], details: &[String]) {
    for (refusal, words) in refusals.iter().zip(details) {
        if !words.is_empty() {
            let file = &refusal.file;
            let (line, col) = (refusal.pos.line, refusal.pos.col);
            let _ = eprintln!(rt; "{PROGRAM}: {file}:{line}:{col}: {words}");
        }
    }
}

/// Shows the refusals of a program, and says what stands there, in their objects or below all lines, and what it lacks: types,
/// modules, or pages. The status.
pub fn show_rules<R>(
    rt: &R,
    setting: &Setting,
    program: &Program,
    refusals: &[Refusal],
) -> Result<u8>
where
    R: Print + Eprint + AllocGlobal + Threads + Sync,
{
    let (files, options) = (program.files.as_slice(), setting.options);
    let status = if setting.style == Style::Json {
        let details = details_of(rt, files, options, refusals)?;
        show(rt, setting.style, program, refusals, &details)?
    } else {
        let status = show(rt, setting.style, program, refusals, &[])?;
        say_details(rt, refusals, &details_of(rt, files, options, refusals)?);
        status
    };
    say_pages(rt, files, options, refusals)?;
    Ok(status)
}

/// Shows the refusals of a program, and says how each can be mended. The status.
pub fn show_refused<R>(
    rt: &R,
    setting: &Setting,
    program: &Program,
    refusals: &[Refusal],
) -> Result<u8, Exit>
where
    R: Files + Print + Eprint + AllocGlobal + Threads + Sync,
{
    let status = show_rules(rt, setting, program, refusals)?;
    if status != FAILED {
        let path = program.files.first().map_or("", |it| it.name.as_str());
        say_mends(rt, setting, path, program, refusals)?;
    }
    Ok(status)
}

/// What comes of a program.
#[derive(Drop)]
pub enum Made {
    Built(Modules),
    Refused(Program, Vec<Refusal>),
}

/// What comes of the program of this file by its build. Nothing is reported but what failed: the status.
pub fn take_outcome<R: Eprint>(
    rt: &R,
    path: &str,
    program: Program,
    built: Result<Outcome, BuildFault>,
) -> Result<Made, Exit> {
    match built {
        Ok(Outcome::Refused(refusals)) => Ok(Made::Refused(program, refusals)),
        Ok(Outcome::Built { link, modules }) => Ok(Made::Built(Modules {
            files: program.into_files(),
            link,
            others: modules,
        })),
        Err(fault) => {
            say_fault(rt, path, ProgramFault::from(fault));
            Err(Exit::Reported(FAILED))
        }
    }
}

/// The modules of a program, or else what is refused of it is reported: the status.
pub fn accept<R>(rt: &R, setting: &Setting, made: Made) -> Result<Modules, Exit>
where
    R: Files + Print + Eprint + AllocGlobal + Threads + Sync,
{
    match made {
        Made::Built(modules) => Ok(modules),
        Made::Refused(program, refusals) => {
            Err(Exit::Reported(show_refused(rt, setting, &program, &refusals)?))
        }
    }
}

/// Builds the program that was found for this file. What is refused, and what failed, is reported: the status.
pub fn build_found<R>(
    rt: &R,
    setting: &Setting,
    path: &str,
    program: Program,
) -> Result<Modules, Exit>
where
    R: Files + Print + Eprint + AllocGlobal + Threads + Sync,
{
    let built = build(rt, rt.alloc(), &program.files, setting.options, &Open);
    accept(rt, setting, take_outcome(rt, path, program, built)?)
}

/// Finds and builds the program of this file. What is refused, and what failed, is reported: the status.
pub fn build_program<R>(rt: &R, setting: &Setting, path: &str) -> Result<Modules, Exit>
where
    R: Files + Print + Eprint + AllocGlobal + Threads + Sync,
{
    let program = find_program(rt, setting, path)?;
    build_found(rt, setting, path, program)
}
