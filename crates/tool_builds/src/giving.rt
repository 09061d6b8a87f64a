//! What a program reads, and programs with what they read.

use crate::building::{say_fault, show_refused};
use command_words::{Exit, FAILED};
use find_files::{Program, find_program};
use m2c::Open;
use program_input::{has_input, put_input, read_input};
use run_program::{Loaded, Program as Linkable, load_program};
use std::rt::Files;
use std::thread::Threads;
use tool_words::{PROGRAM, Setting};

/// Gives a program the bytes of this file. That the file cannot be read, or is too long, is reported.
pub fn give_file<R>(rt: &R, input: &str, program: &mut Program) -> Result<(), Exit>
where
    R: Files + Input + Eprint + AllocGlobal,
{
    let bytes = match read_input(rt, input) {
        Ok(bytes) => bytes,
        Err(error) => {
            let _ = eprintln!(rt; "{PROGRAM}: cannot read {input}: {error}");
            return Err(Exit::Reported(FAILED));
        }
    };
    match put_input(rt.alloc(), &mut program.files, &bytes) {
        Ok(()) => Ok(()),
        Err(fault) => {
            let _ = eprintln!(rt; "{PROGRAM}: the input {input}: {fault}");
            Err(Exit::Reported(FAILED))
        }
    }
}

/// Gives the program of the file at this path its input, if one is named. It is said if it reads one and gets none, and if it
/// gets one and reads none.
pub fn give_input<R>(
    rt: &R,
    path: &str,
    input: &Option<String>,
    program: &mut Program,
) -> Result<(), Exit>
where
    R: Files + Input + Eprint + AllocGlobal,
{
    let reads = has_input(&program.files);
    match input {
        Some(input) => {
            if !reads {
                let _ = eprintln!(rt;
                    "{PROGRAM}: {path}: the program does not import Input, so {input} is not read"
                );
                return Ok(());
            }
            give_file(rt, input.as_str(), program)
        }
        None => {
            if reads {
                let _ = eprintln!(rt;
                    "{PROGRAM}: {path}: the program imports Input, and its input is empty; --input FILE gives it one"
                );
            }
            Ok(())
        }
    }
}

/// Finds the program of the file at this path, and gives it its input. What cannot be had is reported.
pub fn find_given<R>(
    rt: &R,
    setting: &Setting,
    path: &str,
    input: &Option<String>,
) -> Result<Program, Exit>
where
    R: Files + Input + Eprint + AllocGlobal,
{
    let mut found = find_program(rt, setting, path)?;
    give_input(rt, path, input, &mut found)?;
    Ok(found)
}

/// A program that was found and built, and can be linked and executed.
#[derive(Drop)]
pub struct Ready {
    pub found: Program,
    pub program: Linkable,
}

/// Finds and builds the program of the file at this path with its input. What is refused, and what failed, is reported: the status.
pub fn load_given<R>(
    rt: &R,
    setting: &Setting,
    path: &str,
    input: &Option<String>,
) -> Result<Ready, Exit>
where
    R: Files + Input + Print + Eprint + AllocGlobal + Threads + Sync,
{
    let found = find_given(rt, setting, path, input)?;
    match load_program(rt, rt.alloc(), &found.files, setting.options, &Open) {
        Ok(Loaded::Refused(refusals)) => {
            Err(Exit::Reported(show_refused(rt, setting, &found, &refusals)?))
        }
        Ok(Loaded::Ready(program)) => Ok(Ready { found, program }),
        Err(fault) => {
            say_fault(rt, path, fault);
            Err(Exit::Reported(FAILED))
        }
    }
}
