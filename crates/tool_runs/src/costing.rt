//! `m2 run --cost`: what runs with several inputs cost.

use command_words::{Exit, FAILED};
use run_directory::end_word;
use run_program::{End, Program};
use show_profile::{Cost, cost_plot, cost_table};
use std::alloc::Global;
use std::fs;
use std::rt::Files;
use std::thread::Threads;
use tool_builds::{Ready, load_given};
use tool_output::say_output_fault;
use tool_words::{PROGRAM, Setting};
use wasm_engine::Sink;

/// The number of an end by HALT.
const HALTED: u8 = 9;

/// The status of a command that did its work, and of one of whose programs a run ended with a fault.
const DONE: u8 = 0;

const FAULTED: u8 = 1;

/// How many reductions are made at once until the end is near: each time fewer.
const SLICES: [u64; 3] = [1000000, 1000, 1];

/// What hears a run of which nothing is shown.
#[derive(Drop)]
struct Deaf;

impl Sink for Deaf {
    ghost use Rattle.std.specs.Prelude.{None};

    ghost failed = { λ _. 0 };

    ghost reported = { λ _. None };

    fn take(&mut self, _: u8) -> bool {
        true
    }

    fn failures(&self) -> u64 {
        0
    }
}

/// Where a run came to, and how many reductions were made before the slice in which it did.
#[derive(Clone, Copy)]
struct Counted {
    end: Option<End>,
    made: u64,
}

/// Runs a program for so many reductions, and then in slices of so many, at most as many as this.
fn reductions_of(alloc: Global, program: &Program, from: u64, slice: u64, steps: u64) -> Counted {
    let mut counted = Counted {
        end: None,
        made: from,
    };
    let Ok(mut instances) = program.link(alloc) else {
        return counted;
    };
    let mut deaf = Deaf;
    if from > 0 && instances.run(from, &mut deaf).is_err() {
        return counted;
    }
    for _ in 0..steps {
        match instances.run(slice, &mut deaf) {
            Err(_) => {
                counted.end = None;
                break;
            }
            Ok(end) => counted.end = Some(end),
        }
        if counted.end != Some(End::StillRunning) {
            break;
        }
        counted.made = counted.made.saturating_add(slice);
        if counted.made >= steps {
            break;
        }
    }
    counted
}

/// How many reductions a run takes up to its end, and how it ends. It is made once more for each slice.
fn count_run(alloc: Global, program: &Program, steps: u64) -> Counted {
    let mut all = Counted { end: None, made: 0 };
    for slice in SLICES {
        all = reductions_of(alloc, program, all.made, slice, steps);
        if !matches!(all.end, Some(End::Done(_))) {
            return all;
        }
    }
    all.made = all.made.saturating_add(1);
    all
}

/// Says that a run did not come to a good end.
fn say_end<R: Eprint>(rt: &R, input: &str, end: Option<End>, steps: u64) {
    let _ = match end {
        Some(End::Done(number)) => {
            let word = end_word(number);
            eprintln!(rt; "{PROGRAM}: with {input} the program ends with fault {number}: {word}")
        }
        Some(End::Trap) => eprintln!(rt; "{PROGRAM}: with {input} the program traps"),
        Some(End::StillRunning) => eprintln!(rt;
            "{PROGRAM}: with {input} the program makes more than {steps} reductions; --steps N allows more"
        ),
        None => eprintln!(rt; "{PROGRAM}: no memory left (90)"),
    };
}

/// How many bytes a file has. Nothing, with a sentence, if it cannot be read.
fn size_of<R: Files + Eprint + AllocGlobal>(rt: &R, input: &str) -> Option<u64> {
    match fs::read(rt, input) {
        Ok(bytes) => Some(bytes.len() as u64),
        Err(error) => {
            let _ = eprintln!(rt; "{PROGRAM}: cannot read {input}: {error}");
            None
        }
    }
}

/// What a run of a program with an input costs. Nothing, with a sentence, if it did not come to a good end.
fn cost_of<R>(rt: &R, program: &Program, input: &str, steps: u64) -> Option<Cost>
where
    R: Files + Eprint + AllocGlobal,
{
    let size = size_of(rt, input)?;
    let counted = count_run(rt.alloc(), program, steps);
    match counted.end {
        Some(End::Done(0 | HALTED)) => Some(Cost {
            size,
            reductions: counted.made,
        }),
        end => {
            say_end(rt, input, end, steps);
            None
        }
    }
}

/// Builds the program of this file with an input, and counts its run. That a run did not end well is said, and nothing is answered.
fn count_file<R>(
    rt: &R,
    setting: &Setting,
    path: &str,
    input: &String,
    steps: u64,
) -> Result<Option<Cost>, Exit>
where
    R: Files + Input + Print + Eprint + AllocGlobal + Threads + Sync,
{
    let named = Some(String::from_str(rt.alloc(), input.as_str())?);
    let Ready { found, program } = load_given(rt, setting, path, &named)?;
    drop(found);
    Ok(cost_of(rt, &program, input.as_str(), steps))
}

/// Writes the plot, if a file is named for it. The status.
fn write_plot<R: Files + Eprint + AllocGlobal>(
    rt: &R,
    costs: &[Cost],
    plot: &Option<String>,
) -> Result<u8, Exit> {
    let Some(file) = plot else {
        return Ok(DONE);
    };
    let page = cost_plot(rt.alloc(), costs)?;
    if let Err(error) = fs::write(rt, file.as_str(), page.as_bytes()) {
        let _ = eprintln!(rt; "{PROGRAM}: cannot write {file}: {error}");
        return Ok(FAILED);
    }
    Ok(DONE)
}

/// Says what the program of this file costs with each of these inputs, and writes a plot into a file if one is named. Each run makes
/// at most `steps` reductions, and prints nothing. The status.
pub fn cost_file<R, P>(
    rt: &R,
    setting: &Setting,
    path: &str,
    inputs: &[String],
    steps: u64,
    plot: &Option<String>,
    out: P,
) -> Result<u8, Exit>
where
    R: Files + Input + Print + Eprint + AllocGlobal + Threads + Sync,
    P: Print + Drop,
{
    let mut costs = Vec::new(rt.alloc());
    for input in inputs {
        let Some(cost) = count_file(rt, setting, path, input, steps)? else {
            return Ok(FAULTED);
        };
        costs.push(cost)?;
    }
    let table = cost_table(rt.alloc(), &costs)?;
    let mut out = out;
    if let Err(error) = out.write_all(table.as_bytes()) {
        say_output_fault(rt, &error);
        return Ok(FAILED);
    }
    write_plot(rt, &costs, plot)
}
