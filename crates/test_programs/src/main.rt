//! Asks each call that takes memory what it makes of programs, and executes a program with each of its bytes changed.
//!
//! The words are the files of a program, or of several with a `+` between them. The answers of the calls are printed; `make hostile`
//! asks with each request for memory refused in turn. Each program is built by one worker and by two, in one page. What is built is
//! read, validated, linked and run, with a stream that takes two bytes and with one that takes all, and is executed as a folder. With
//! the word `changed` in front, the program of `data/hello` is executed before, with each byte of its two files changed to each other
//! one, of which nothing is expected but a status.
//!
//! The status is 0 if memory sufficed, 90 if a call answered that it did not, and 3 if it did not suffice for what this program keeps
//! itself, or if a changed program has no status.
#![tactic(auto)]

mod answers;
mod changed;
mod paper;

use crate::answers::ask;
use anyhow::{Context, Result, bail};
use m2c::SourceFile;
use std::process::ExitCode;
use std::rt::{Env, Files};
use std::thread::Threads;
use std::{env, fs};

/// The word for changed bytes.
const CHANGED: &str = "changed";

/// How many workers build each program of the command line.
const WORKERS: [usize; 2] = [1, 2];

const FAILED: u8 = 3;

const REFUSED: u8 = 90;

fn read_all<R: Files + AllocGlobal>(rt: &R, names: &[String]) -> Result<Vec<SourceFile>> {
    let mut files = Vec::new(rt.alloc());
    for name in names {
        let bytes = fs::read(rt, name).context(format_args!("cannot read {name}"))?;
        let name = name.clone()?;
        files.push(SourceFile { name, bytes })?;
    }
    Ok(files)
}

/// Asks of a program with these files, and answers whether memory sufficed.
fn ask_program<R: Files + Print + AllocGlobal + Threads + Sync>(
    rt: &R,
    names: &[String],
) -> Result<bool> {
    let files = read_all(rt, names)?;
    let mut suffices = true;
    for workers in WORKERS {
        println!(rt; "{} files, workers {workers}", files.len())?;
        suffices &= ask(rt, &files, workers)?;
    }
    Ok(suffices)
}

/// Asks of the programs with these files, and answers whether memory sufficed.
fn ask_all<R: Files + Print + AllocGlobal + Threads + Sync>(
    rt: &R,
    words: &[String],
) -> Result<bool> {
    let mut suffices = true;
    for names in words.split(|word| word.as_str() == "+") {
        suffices &= ask_program(rt, names)?;
    }
    Ok(suffices)
}

/// Does what the words say, and answers whether memory sufficed.
fn check_all<R: Files + Env + Print + AllocGlobal + Threads + Sync>(rt: &R) -> Result<bool> {
    let words: Vec<String> = env::args(rt)?.collect(rt.alloc())?;
    match words.as_slice() {
        [_, first, others @ ..] if first.as_str() == CHANGED => {
            let changes = changed::check_all(rt)?;
            println!(rt; "{changes} changed programs have a status")?;
            ask_all(rt, others)
        }
        [_, names @ ..] => ask_all(rt, names),
        [] => bail!("a program has a name"),
    }
}

fn main(rt: HostRuntime) -> ExitCode {
    match check_all(&rt) {
        Ok(true) => ExitCode::SUCCESS,
        Ok(false) => ExitCode::from(REFUSED),
        Err(error) => {
            let _ = eprintln!(rt; "test_programs: {error}");
            ExitCode::from(FAILED)
        }
    }
}
