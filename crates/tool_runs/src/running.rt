//! `m2 run`: a program that is built and executed in memory.

ghost use Rattle.std.specs.Prelude.{◌≡◌, ◌<◌, ◌^◌, ◌+◌};

use crate::measuring::say_measured;
use crate::tracing::trace_program;
use command_words::{Exit, FAILED};
use debug_runs::explain_run;
use find_files::Program as FoundProgram;
use run_directory::end_word;
use run_program::{End, Instances, Program};
use std::rt::Files;
use std::thread::Threads;
use tool_builds::{Ready, load_given, say_fault};
use tool_output::{Screen, say_output_fault};
use tool_words::{Given, Measured, PROGRAM, Setting, Style};
use wasm_engine::RunFault;

/// The status of a program that ended by itself or by HALT.
const ENDED: u8 = 0;

/// The status of a program that ended with a fault.
const FAULTED: u8 = 1;

/// The status of a program that goes on.
const GOES_ON: u8 = 4;

/// The number of an end by HALT.
const HALTED: u8 = 9;

/// How many reductions are made before what was printed is written.
const SLICE: u64 = 1000000;

/// What comes of a run.
#[derive(Clone, Copy)]
enum Course {
    /// It came to here.
    At(End),
    /// It was broken off.
    Broken(RunFault),
    /// Standard output failed.
    Unwritten,
}

/// Makes at most `steps` reductions, and writes what is printed by them.
fn run_slice<P: Print>(instances: &mut Instances<'_>, steps: u64, screen: &mut Screen<P>) -> Course
    requires { screen.old.failures + 1 < 2 ^ 64 }
{
    let course = match instances.run(steps, screen) {
        Ok(end) => Course::At(end),
        Err(RunFault::Write) => Course::Unwritten,
        Err(fault) => Course::Broken(fault),
    };
    if !screen.write_kept() {
        return Course::Unwritten;
    }
    course
}

/// Makes at most `steps` reductions, slice by slice.
fn run_slices<P: Print>(instances: &mut Instances<'_>, steps: u64, screen: &mut Screen<P>) -> Course
    requires { screen.old.failures ≡ 0 }
{
    let mut course = Course::At(End::StillRunning);
    for slice in 0..steps.div_ceil(SLICE) {
        let left = steps.saturating_sub(slice.saturating_mul(SLICE));
        course = run_slice(instances, left.min(SLICE), screen);
        if !matches!(course, Course::At(End::StillRunning)) || screen.failures > 0 {
            break;
        }
    }
    course
}

/// Begins a line on standard error, if the last line that was printed has not ended.
fn begin_line<R: Eprint, P: Print>(rt: &R, screen: &Screen<P>) {
    if !screen.is_at_line_begin() {
        let _ = eprintln!(rt; "");
    }
}

/// Says that standard output failed, and why.
fn say_unwritten<R: Eprint, P: Print>(rt: &R, screen: &Screen<P>) {
    match screen.cause() {
        Some(error) => say_output_fault(rt, error),
        None => {
            let _ = eprintln!(rt; "{PROGRAM}: no memory left (90)");
        }
    }
}

/// Says how a program ended, if it did not end well, and answers the status.
fn write_end<R: Eprint, P: Print>(rt: &R, end: End, steps: u64, screen: &Screen<P>) -> u8 {
    match end {
        End::Done(0) | End::Done(HALTED) => ENDED,
        End::Done(number) => {
            let word = end_word(number);
            begin_line(rt, screen);
            let _ = eprintln!(rt; "fault {number}: {word}");
            FAULTED
        }
        End::Trap => {
            begin_line(rt, screen);
            let _ = eprintln!(rt; "trap");
            FAULTED
        }
        End::StillRunning => {
            begin_line(rt, screen);
            let _ = eprintln!(rt;
                "{PROGRAM}: stopped after {steps} reductions; --steps N allows more"
            );
            GOES_ON
        }
    }
}

/// Says what came of a run, if that is more than its end, and answers the status.
fn write_course<R: Eprint, P: Print>(rt: &R, course: Course, steps: u64, screen: &Screen<P>) -> u8 {
    match course {
        Course::At(end) => write_end(rt, end, steps, screen),
        Course::Unwritten => {
            say_unwritten(rt, screen);
            FAILED
        }
        Course::Broken(fault) => {
            begin_line(rt, screen);
            let _ = eprintln!(rt; "{PROGRAM}: {fault}");
            FAILED
        }
    }
}

/// Links a program and executes it, and says how it ended. The status, and where it came to.
fn execute<R: Eprint + AllocGlobal, P: Print>(
    rt: &R,
    path: &str,
    program: &Program,
    steps: u64,
    screen: &mut Screen<P>,
) -> (u8, Option<End>)
    requires { screen.old.failures ≡ 0 }
{
    match program.link(rt.alloc()) {
        Ok(mut instances) => {
            let course = run_slices(&mut instances, steps, screen);
            let status = write_course(rt, course, steps, screen);
            match course {
                Course::At(end) => (status, Some(end)),
                Course::Broken(_) | Course::Unwritten => (status, None),
            }
        }
        Err(fault) => {
            say_fault(rt, path, fault);
            (FAILED, None)
        }
    }
}

/// Whether it is said where a run was that came to here.
fn has_place(end: End) -> bool {
    match end {
        End::Done(number) => number != ENDED && number != HALTED,
        End::StillRunning => true,
        End::Trap => false,
    }
}

/// Says where a run was that ended with a fault, or that had made all its reductions. If that cannot be known, the run has ended
/// all the same.
fn say_place<R>(rt: &R, setting: &Setting, found: &FoundProgram, end: End, steps: u64)
where
    R: Eprint + AllocGlobal + Threads + Sync,
{
    let is_coloured = setting.style == Style::Coloured;
    let _ = match explain_run(rt, &found.files, setting.options, end, steps, is_coloured) {
        Err(error) => eprintln!(rt; "{PROGRAM}: where the program was is not known: {error}"),
        Ok(None) => eprintln!(rt; "{PROGRAM}: where the program was is not known"),
        Ok(Some(report)) => {
            if setting.style == Style::Json {
                eprintln!(rt; "{}", report.object)
            } else {
                eprint!(rt; "{}", report.text)
            }
        }
    };
}

/// Builds a program in memory, and executes it for at most `steps` reductions. It prints on this stream. The status.
pub fn run_file<R, P>(
    rt: &R,
    given: &Given,
    steps: u64,
    told: &Measured,
    out: P,
) -> Result<u8, Exit>
where
    R: Files + Input + Print + Eprint + AllocGlobal + Threads + Sync,
    P: Print + Drop,
{
    let (setting, path) = (&given.setting, given.program.as_str());
    let Ready { found, program } = load_given(rt, setting, path, &given.input)?;
    let mut screen = Screen::new(rt.alloc(), out)?;
    let (status, end) = execute(rt, path, &program, steps, &mut screen);
    drop(program);
    if let Some(end) = end.filter(|it| has_place(*it)) {
        say_place(rt, setting, &found, end, steps);
    }
    let is_told = say_measured(rt, setting, &found, steps, told)?;
    let is_traced = trace_program(rt, setting, &found, steps, &told.trace, told.most_lines)?;
    Ok(if is_told && is_traced { status } else { FAILED })
}
