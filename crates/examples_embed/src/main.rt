//! The compiler as a library, over its doors alone: a program of two modules is built from texts in memory, saved into a
//! folder in memory and executed there, and of a wrong program the refusals are printed.
//!
//! With names of files, `examples_embed FILE..` does so with these files in place of its own texts.
#![tactic(auto)]

mod folder;
mod screen;

use crate::folder::Folder;
use crate::screen::Screen;
use anyhow::{Context, Result};
use m2c::{Open, Options, Outcome, SourceFile, build, execute, save};
use std::alloc::Global;
use std::process::ExitCode;
use std::rt::{Env, Files};
use std::thread::Threads;
use std::{env, fs};

/// A definition, its implementation, which prints a greeting, and a program that imports it.
const RIGHT: [(&str, &str); 3] = [
    (
        "Greet.def",
        "DEFINITION MODULE Greet; PROCEDURE Hello; END Greet.",
    ),
    (
        "Greet.mod",
        "IMPLEMENTATION MODULE Greet; FROM Console IMPORT Put;
        PROCEDURE Hello; BEGIN Put(\"H\"); Put(\"i\"); Put(12C) END Hello;
        BEGIN END Greet.",
    ),
    (
        "Main.mod",
        "MODULE Main; IMPORT Greet; BEGIN Greet.Hello END Main.",
    ),
];

/// A program that calls what the definition does not have.
const WRONG: (&str, &str) = (
    "Main.mod",
    "MODULE Main; IMPORT Greet; BEGIN Greet.Bye END Main.",
);

/// Two workers, and 16 pages of memory.
const OPTIONS: Options = Options {
    workers: 2,
    pages: 16,
};

/// The most reductions that a program makes.
const STEPS: u64 = 100_000_000;

fn source(alloc: Global, text: (&str, &str)) -> Result<SourceFile> {
    Ok(SourceFile {
        name: String::from_str(alloc, text.0)?,
        bytes: Vec::from_slice(alloc, text.1.as_bytes())?,
    })
}

/// The texts of the program, with this one as its last.
fn sources(alloc: Global, last: (&str, &str)) -> Result<Vec<SourceFile>> {
    let mut files = Vec::new(alloc);
    files.push(source(alloc, RIGHT[0])?)?;
    files.push(source(alloc, RIGHT[1])?)?;
    files.push(source(alloc, last)?)?;
    Ok(files)
}

/// The files of these names.
fn read_all<R: Files + AllocGlobal>(rt: &R, names: &[String]) -> Result<Vec<SourceFile>> {
    let mut files = Vec::new(rt.alloc());
    for name in names {
        let bytes = fs::read(rt, name).context(format_args!("cannot read {name}"))?;
        let name = name.clone()?;
        files.push(SourceFile { name, bytes })?;
    }
    Ok(files)
}

/// Executes what was saved, and prints what it printed and its status.
fn run<R: Print + AllocGlobal>(rt: &R, folder: &mut Folder) -> Result<()> {
    let mut out = Screen::new(rt.alloc());
    let mut err = Screen::new(rt.alloc());
    let status = execute(rt.alloc(), folder, STEPS, &mut out, &mut err);
    print!(rt; "{}", String::from_utf8_lossy(rt.alloc(), &out.bytes)?)?;
    print!(rt; "{}", String::from_utf8_lossy(rt.alloc(), &err.bytes)?)?;
    println!(rt; "status {status}")?;
    Ok(())
}

/// Saves modules into a folder in memory, prints the names of its files, and executes them.
fn save_and_run<R: Print + AllocGlobal>(
    rt: &R,
    link: &[u8],
    modules: &[(String, Vec<u8>)],
) -> Result<()> {
    let mut folder = Folder::new(rt.alloc());
    save(rt.alloc(), link, modules, &mut folder).context("nothing was saved")?;
    for file in &folder.files {
        println!(rt; "saved {}", file.0)?;
    }
    run(rt, &mut folder)
}

/// Builds a program, and prints what is refused, or executes what was built.
fn show<R: Print + AllocGlobal + Threads + Sync>(rt: &R, files: &[SourceFile]) -> Result<()> {
    match build(rt, rt.alloc(), files, OPTIONS, &Open)? {
        Outcome::Refused(refusals) => {
            for refusal in &refusals {
                println!(rt; "{refusal}")?;
            }
            Ok(())
        }
        Outcome::Built { link, modules } => save_and_run(rt, &link, &modules),
    }
}

fn show_all<R: Files + Env + Print + AllocGlobal + Threads + Sync>(rt: &R) -> Result<()> {
    let words: Vec<String> = env::args(rt)?.collect(rt.alloc())?;
    if words.len() > 1 {
        return show(rt, &read_all(rt, &words[1..])?);
    }
    show(rt, &sources(rt.alloc(), RIGHT[2])?)?;
    show(rt, &sources(rt.alloc(), WRONG)?)
}

fn main(rt: HostRuntime) -> ExitCode {
    match show_all(&rt) {
        Ok(()) => ExitCode::SUCCESS,
        Err(error) => {
            let _ = eprintln!(rt; "examples_embed: {error}");
            ExitCode::FAILURE
        }
    }
}
