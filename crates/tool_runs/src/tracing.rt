//! `m2 run --trace`: what a run does is written into a file.

use anyhow::Result;
use debug_runs::{Program, Traced, follow, trace_run};
use find_files::Program as FoundProgram;
use std::fs;
use std::rt::Files;
use std::thread::Threads;
use tool_words::{PROGRAM, Setting};

/// Writes the trace of a program into the file of this name. False, with a sentence, if it cannot be written.
fn write_trace<R: Files + Eprint + AllocGlobal>(
    rt: &R,
    program: Program<'_>,
    file: &str,
    most: u64,
) -> Result<bool> {
    let traced = match fs::create(rt, file) {
        Ok(mut out) => trace_run(rt.alloc(), program, most, &mut out)?,
        Err(error) => Err(error),
    };
    match traced {
        Ok(Traced::Whole) => Ok(true),
        Ok(Traced::Cut) => {
            let _ = eprintln!(rt;
                "{PROGRAM}: the trace ends after {most} lines; --trace-limit N allows more"
            );
            Ok(true)
        }
        Err(error) => {
            let _ = eprintln!(rt; "{PROGRAM}: cannot write {file}: {error}");
            Ok(false)
        }
    }
}

/// Writes what a run of at most `steps` reductions does into a file, if one is named, in as many lines as this at most. False if that
/// cannot be done. An error if memory ran out.
pub fn trace_program<R>(
    rt: &R,
    setting: &Setting,
    found: &FoundProgram,
    steps: u64,
    file: &Option<String>,
    most: u64,
) -> Result<bool>
where
    R: Files + Eprint + AllocGlobal + Threads + Sync,
{
    let Some(file) = file else {
        return Ok(true);
    };
    let Some(followed) = follow(rt, &found.files, setting.options)? else {
        let _ = eprintln!(rt; "{PROGRAM}: what the run does is not known");
        return Ok(true);
    };
    let program = followed.program(&found.files, setting.options, steps, false);
    write_trace(rt, program, file.as_str(), most)
}
