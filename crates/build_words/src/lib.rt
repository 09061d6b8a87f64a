//! The words that the command lines of programs over builds share: the options of a build, and the files of a program.
#![tactic(auto)]

use build_jobs::{MAX_PAGES, MAX_WORKERS, Options};
use clap::{Arg, ArgAction, ArgMatches};
use command_words::{COMMAND_LINE, Exit, are_named, number_option, strings_of};
use std::alloc::Global;

/// The name of the option of the workers, and of the word for files.
const WORKERS: &str = "workers";

const MEMORY: &str = "memory";

const FILE: &str = "FILE";

/// The option `--workers`.
pub fn workers_option<'a>(alloc: Global) -> Arg<'a> {
    Arg::new(alloc, WORKERS)
        .long(WORKERS)
        .value_name("N")
        .default_value("4")
        .help("How many threads compile, from 1 to 64")
}

/// The option `--memory`.
pub fn memory_option<'a>(alloc: Global) -> Arg<'a> {
    Arg::new(alloc, MEMORY)
        .long(MEMORY)
        .value_name("PAGES")
        .default_value("16")
        .help("The pages of 65536 bytes of the program's memory, from 1 to 1024")
}

/// The option `--out`.
pub fn out_option<'a>(alloc: Global) -> Arg<'a> {
    Arg::new(alloc, "out")
        .long("out")
        .value_name("DIR")
        .required(true)
        .help("The folder into which the modules are written")
}

/// The words for the files of a program.
pub fn files_word<'a>(alloc: Global) -> Arg<'a> {
    Arg::new(alloc, FILE)
        .required(true)
        .action(ArgAction::Append)
        .num_args(1..)
        .help("The files of the program's modules")
}

/// The pages of memory. A number that they cannot be is reported.
pub fn pages_of<R: Eprint>(rt: &R, program: &str, matches: &ArgMatches) -> Result<u32, Exit> {
    let text = matches.get_str(MEMORY).unwrap_or("");
    match number_option(rt, program, MEMORY, text, u64::from(MAX_PAGES)) {
        None => Err(Exit::Reported(COMMAND_LINE)),
        Some(pages) => Ok(pages as u32),
    }
}

/// The workers and the pages. A number that they cannot be is reported.
pub fn options_of<R: Eprint>(rt: &R, program: &str, matches: &ArgMatches) -> Result<Options, Exit> {
    let text = matches.get_str(WORKERS).unwrap_or("");
    match number_option(rt, program, WORKERS, text, MAX_WORKERS as u64) {
        None => Err(Exit::Reported(COMMAND_LINE)),
        Some(workers) => Ok(Options {
            workers: workers as usize,
            pages: pages_of(rt, program, matches)?,
        }),
    }
}

/// The files of a program. An empty name is reported.
pub fn files_of<R>(rt: &R, program: &str, matches: &ArgMatches) -> Result<Vec<String>, Exit>
where
    R: Eprint + AllocGlobal,
{
    let files = matches.get_strs(FILE).unwrap_or(&[]);
    if !are_named(rt, program, FILE, files) {
        return Err(Exit::Reported(COMMAND_LINE));
    }
    Ok(strings_of(rt.alloc(), files)?)
}
