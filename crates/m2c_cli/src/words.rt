//! The words of the command line.

use anyhow::Result;
use build_words::{files_of, files_word, memory_option, options_of, out_option, workers_option};
use clap::{ArgMatches, Command};
use command_words::{COMMAND_LINE, Exit, VERSION, command_line, is_named, matches_of};
use m2c::Options;
use std::alloc::Global;
use std::rt::Env;

const PROGRAM: &str = "m2c";

/// What the command line asks for.
#[derive(Drop)]
pub struct Asked {
    pub options: Options,
    pub out: String,
    pub files: Vec<String>,
}

fn command<'a>(alloc: Global) -> Result<Command<'a>> {
    Ok(
        Command::new(alloc, PROGRAM)
            .version(VERSION)
            .about("Compiles Modula-2 to WebAssembly modules, link.wasm last")
            .arg(workers_option(alloc))?
            .arg(memory_option(alloc))?
            .arg(out_option(alloc))?
            .arg(files_word(alloc))?,
    )
}

/// What the options and names ask for. Numbers that they cannot take, and empty names, are reported.
fn request<R: Eprint + AllocGlobal>(rt: &R, matches: &ArgMatches) -> Result<Asked, Exit> {
    let options = options_of(rt, PROGRAM, matches)?;
    let out = matches.get_str("out").unwrap_or("");
    if !is_named(rt, PROGRAM, "--out", out) {
        return Err(Exit::Reported(COMMAND_LINE));
    }
    Ok(Asked {
        options,
        out: String::from_str(rt.alloc(), out)?,
        files: files_of(rt, PROGRAM, matches)?,
    })
}

/// What the command line asks for.
pub fn read_command_line<R: Env + Print + Eprint + AllocGlobal>(rt: &R) -> Result<Asked, Exit> {
    let words = command_line(rt, PROGRAM)?;
    let matches = matches_of(rt, command(rt.alloc())?, &words)?;
    request(rt, &matches)
}
