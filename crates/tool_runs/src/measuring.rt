//! What ran is told when a run is over.

use anyhow::Result;
use find_files::Program as FoundProgram;
use show_profile::{Counted, Form, coverage_table, profile_run, profile_table, show_counted};
use std::fs;
use std::rt::Files;
use std::thread::Threads;
use tool_words::{Measured, PROGRAM, Setting};

/// Whether anything is to be told.
fn is_asked(told: &Measured) -> bool {
    let is_written = told.listing.is_some()
        || told.flame.is_some()
        || told.callgrind.is_some()
        || told.lcov.is_some();
    told.is_profiled || told.is_covered || is_written
}

/// Says what ran on standard error.
fn say_tables<R: Eprint + AllocGlobal>(
    rt: &R,
    found: &FoundProgram,
    counted: &Counted,
    told: &Measured,
) -> Result<()> {
    if told.is_profiled {
        let _ = eprint!(rt; "{}", profile_table(rt.alloc(), &found.files, counted)?);
    }
    if told.is_covered {
        let _ = eprint!(rt; "{}", coverage_table(rt.alloc(), &found.files, counted)?);
    }
    Ok(())
}

/// Writes what ran into a file, if one is named. False, with a sentence, if it cannot be written.
fn write_form<R: Files + Eprint + AllocGlobal>(
    rt: &R,
    found: &FoundProgram,
    counted: &Counted,
    form: Form,
    file: &Option<String>,
) -> Result<bool> {
    let Some(file) = file else {
        return Ok(true);
    };
    let page = show_counted(rt.alloc(), &found.files, counted, form)?;
    if let Err(error) = fs::write(rt, file.as_str(), page.as_bytes()) {
        let _ = eprintln!(rt; "{PROGRAM}: cannot write {file}: {error}");
        return Ok(false);
    }
    Ok(true)
}

/// Writes what ran into the files that are named. False if one of them cannot be written.
fn write_forms<R: Files + Eprint + AllocGlobal>(
    rt: &R,
    found: &FoundProgram,
    counted: &Counted,
    told: &Measured,
) -> Result<bool> {
    let forms = [
        (Form::Source, &told.listing),
        (Form::Flame, &told.flame),
        (Form::Callgrind, &told.callgrind),
        (Form::Lcov, &told.lcov),
    ];
    let mut are_written = true;
    for (form, file) in forms {
        let is_written = write_form(rt, found, counted, form, file)?;
        are_written = are_written && is_written;
    }
    Ok(are_written)
}

/// Tells what ran, if that is asked for. False if a file cannot be written. An error if memory ran out.
pub fn say_measured<R>(
    rt: &R,
    setting: &Setting,
    found: &FoundProgram,
    steps: u64,
    told: &Measured,
) -> Result<bool>
where
    R: Files + Eprint + AllocGlobal + Threads + Sync,
{
    if !is_asked(told) {
        return Ok(true);
    }
    let Some(counted) = profile_run(rt, &found.files, setting.options, steps)? else {
        let _ = eprintln!(rt; "{PROGRAM}: what ran is not known");
        return Ok(true);
    };
    say_tables(rt, found, &counted, told)?;
    write_forms(rt, found, &counted, told)
}
