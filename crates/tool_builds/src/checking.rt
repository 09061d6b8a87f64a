//! `m2 check`: what is refused of programs, and how they can be mended.

use crate::building::{details_of, say_fault, show_rules};
use crate::mending::chains_of;
use crate::pages::say_pages;
use command_words::{Exit, FAILED};
use find_files::{Program, find_checked};
use m2_tree::Refusal;
use m2c::{Open, Outcome, build};
use run_program::ProgramFault;
use show_mends::{Given, print_steps, say_chains, write_chains};
use std::rt::Files;
use std::thread::Threads;
use tool_output::say_output_fault;
use tool_words::{Fix, Setting, Style};

/// The status if no program is refused.
const ACCEPTED: u8 = 0;

/// The most refusals of a file that are followed.
const MOST_STEPS: usize = 10;

/// The status of a program that is refused.
const REFUSED: u8 = 1;

/// Prints what is refused of a program as objects, with mends that were tried, and writes them if that is asked for.
/// The status.
fn check_objects<R>(
    rt: &R,
    setting: &Setting,
    path: &str,
    program: &Program,
    refusals: &[Refusal],
    fix: Fix,
) -> Result<u8, Exit>
where
    R: Files + Input + Print + Eprint + AllocGlobal + Threads + Sync,
{
    let details = details_of(rt, &program.files, setting.options, refusals)?;
    let chains = chains_of(rt, setting, path, program, refusals, MOST_STEPS)?;
    let given = Given {
        files: &program.files,
        lacking: &program.lacking,
        searched: &program.searched,
    };
    if let Err(error) = print_steps(rt, &given, refusals, &chains, &details)? {
        say_output_fault(rt, &error);
        return Ok(FAILED);
    }
    say_pages(rt, &program.files, setting.options, refusals).map_err(anyhow::Error::from)?;
    Ok(REFUSED.max(write_chains(rt, fix, refusals, &chains)))
}

/// Shows what is refused of a program, with mends that were tried, and writes them if that is asked for. The status.
fn check_refused<R>(
    rt: &R,
    setting: &Setting,
    path: &str,
    program: &Program,
    refusals: &[Refusal],
    fix: Fix,
) -> Result<u8, Exit>
where
    R: Files + Input + Print + Eprint + AllocGlobal + Threads + Sync,
{
    if setting.style == Style::Json {
        return check_objects(rt, setting, path, program, refusals, fix);
    }
    let status = show_rules(rt, setting, program, refusals)?;
    if status == FAILED {
        return Ok(status);
    }
    let chains = chains_of(rt, setting, path, program, refusals, MOST_STEPS)?;
    let is_coloured = setting.style == Style::Coloured;
    say_chains(rt, &program.files, is_coloured, &chains)?;
    Ok(status.max(write_chains(rt, fix, refusals, &chains)))
}

/// Says what is refused of the program of a file, or of the module of which it is a part. The status.
fn check_program<R>(rt: &R, setting: &Setting, path: &str, fix: Fix) -> Result<u8, Exit>
where
    R: Files + Input + Print + Eprint + AllocGlobal + Threads + Sync,
{
    let program = find_checked(rt, setting, path)?;
    match build(rt, rt.alloc(), &program.files, setting.options, &Open) {
        Ok(Outcome::Built { .. }) => Ok(ACCEPTED),
        Ok(Outcome::Refused(refusals)) => check_refused(
            rt, setting, path, &program, &refusals, fix,
        ),
        Err(fault) => {
            say_fault(rt, path, ProgramFault::from(fault));
            Ok(FAILED)
        }
    }
}

/// Says what is refused of each of the programs of these files, and how it can be mended. The status is the greatest
/// of theirs.
pub fn check_all<R>(rt: &R, setting: &Setting, programs: &[String], fix: Fix) -> Result<u8, Exit>
where
    R: Files + Input + Print + Eprint + AllocGlobal + Threads + Sync,
{
    let mut greatest = ACCEPTED;
    for program in programs {
        match check_program(rt, setting, program.as_str(), fix) {
            Ok(status) => greatest = greatest.max(status),
            Err(Exit::Reported(status)) => greatest = greatest.max(status),
            Err(failed) => return Err(failed),
        }
    }
    Ok(greatest)
}
