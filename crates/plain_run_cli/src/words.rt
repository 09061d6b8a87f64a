//! The words of the command line.

use anyhow::Result;
use build_words::{files_of, files_word, memory_option, pages_of};
use clap::{Arg, ArgMatches, Command};
use command_words::{COMMAND_LINE, Exit, VERSION, command_line, matches_of, number_option};
use std::alloc::Global;
use std::rt::Env;

/// The name of the program.
const PROGRAM: &str = "plain_run";

/// The greatest bound on turns and calls.
const MAX_BOUND: u64 = 1000000000;

/// What the command line asks for.
#[derive(Drop)]
pub struct Asked {
    /// The pages of 65536 bytes of the program's memory.
    pub pages: u32,
    /// The most turns of each loop, and how deep calls nest.
    pub bound: usize,
    /// The names of the files.
    pub files: Vec<String>,
}

/// The words that are known.
fn command<'a>(alloc: Global) -> Result<Command<'a>> {
    Ok(
        Command::new(alloc, PROGRAM)
            .version(VERSION)
            .about("Runs Modula-2 slowly, by the definition of what programs do")
            .arg(memory_option(alloc))?
            .arg(
                Arg::new(alloc, "bound")
                    .long("bound")
                    .value_name("N")
                    .default_value("1000000")
                    .help(
                        "The most turns of each loop, and how deep calls nest, from 1 to 1000000000",
                    ),
            )?
            .arg(files_word(alloc))?,
    )
}

/// What the options and names ask for. Numbers that they cannot take are reported.
fn request<R: Eprint + AllocGlobal>(rt: &R, matches: &ArgMatches) -> Result<Asked, Exit> {
    let pages = pages_of(rt, PROGRAM, matches)?;
    let text = matches.get_str("bound").unwrap_or("");
    let Some(bound) = number_option(rt, PROGRAM, "bound", text, MAX_BOUND) else {
        return Err(Exit::Reported(COMMAND_LINE));
    };
    Ok(Asked {
        pages,
        bound: bound as usize,
        files: files_of(rt, PROGRAM, matches)?,
    })
}

/// What the command line asks for.
pub fn read_command_line<R: Env + Print + Eprint + AllocGlobal>(rt: &R) -> Result<Asked, Exit> {
    let words = command_line(rt, PROGRAM)?;
    let matches = matches_of(rt, command(rt.alloc())?, &words)?;
    request(rt, &matches)
}
