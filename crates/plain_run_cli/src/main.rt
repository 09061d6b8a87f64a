//! The plain interpreter as a program: `plain_run [--memory PAGES] [--bound N] FILE...`.
//!
//! It runs a program by the definition of what programs do, and prints its bytes. The status is 0 if the program ended
//! by itself or by HALT, 1 if it ended otherwise (reported on standard error) or was refused (a refusal a line on
//! standard output), 2 for the command line, 3 if a file, memory or standard output failed, and 4 if it still runs at
//! the bound.
#![tactic(auto)]

mod words;

use crate::words::{Asked, read_command_line};
use anyhow::{Context, Result};
use command_words::FAILED;
use m2c::{Open, Options, Outcome, SourceFile, build};
use plain_run::{Report, Stop, run as run_program};
use run_directory::end_word;
use std::fmt::Display;
use std::process::ExitCode;
use std::rt::{Env, Files};
use std::thread::Threads;
use system_streams::read_text;
use typed_program::typed_program;

/// The status of an end by itself or by HALT.
const ENDED: u8 = 0;

/// The status of a fault, and of refused files.
const OTHERWISE: u8 = 1;

/// The status of a program that still runs at the bound.
const RUNNING: u8 = 4;

/// The end by HALT.
const HALTED: u32 = 9;

/// How deep evaluations nest at the most. Each takes up to 760 bytes of native stack, as far as was measured, so 8 MiB hold them.
const MAX_NESTING: usize = 8000;

/// The bytes of files, with their names as given.
fn read_all<R: Files + AllocGlobal>(rt: &R, names: &[String]) -> Result<Vec<SourceFile>> {
    let mut files = Vec::new(rt.alloc());
    for name in names {
        let bytes = read_text(rt, name.as_str()).context(format_args!("cannot read {name}"))?;
        let name = name.clone()?;
        files.push(SourceFile { name, bytes })?;
    }
    Ok(files)
}

/// Prints refusals, each on a line.
fn print_all<T: Display>(rt: &impl Print, refusals: &[T]) -> Result<()> {
    for refusal in refusals {
        println!(rt; "{refusal}").context("cannot write to standard output")?;
    }
    Ok(())
}

/// Prints what a run printed, reports a fault, and answers the status.
fn write_report<R: Print + Eprint>(rt: &R, report: &Report) -> Result<u8> {
    rt.write_all(report.out.as_slice())
        .context("cannot write to standard output")?;
    match report.end {
        Stop::StillRunning => Ok(RUNNING),
        Stop::Ended(0) | Stop::Ended(HALTED) => Ok(ENDED),
        Stop::Ended(number) => {
            let word = end_word(u8::try_from(number).unwrap_or(0));
            let _ = eprintln!(rt; "fault {number}: {word}");
            Ok(OTHERWISE)
        }
    }
}

/// Runs files that break no rule.
fn run_files<R: Print + Eprint + AllocGlobal>(
    rt: &R,
    asked: &Asked,
    files: &[SourceFile],
) -> Result<u8> {
    let alloc = rt.alloc();
    let program = typed_program(alloc, files)?;
    let pages = asked.pages as usize;
    let report = run_program(alloc, &program, pages, asked.bound, MAX_NESTING)?;
    write_report(rt, &report)
}

/// Reports what m2c reports of files that break a rule, and runs all others.
fn elaborate<R: Files + Print + Eprint + AllocGlobal + Threads + Sync>(
    rt: &R,
    asked: &Asked,
) -> Result<u8> {
    let files = read_all(rt, &asked.files)?;
    let options = Options {
        workers: 1,
        pages: asked.pages,
    };
    match build(rt, rt.alloc(), &files, options, &Open)? {
        Outcome::Refused(refusals) => {
            print_all(rt, &refusals)?;
            Ok(OTHERWISE)
        }
        Outcome::Built { .. } => run_files(rt, asked, &files),
    }
}

/// Does what the words ask for, and answers the status.
fn run<R: Files + Env + Print + Eprint + AllocGlobal + Threads + Sync>(rt: &R) -> Result<u8> {
    match read_command_line(rt) {
        Ok(asked) => elaborate(rt, &asked),
        Err(exit) => exit.status(),
    }
}

fn main(rt: HostRuntime) -> ExitCode {
    match run(&rt) {
        Ok(status) => ExitCode::from(status),
        Err(error) => {
            let _ = eprintln!(rt; "plain_run: {error}");
            ExitCode::from(FAILED)
        }
    }
}
