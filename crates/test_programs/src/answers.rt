//! What the calls answer.

use crate::paper::Paper;
use anyhow::Result;
use m2c::{BuildFault, Open, Options, Outcome, SourceFile, build};
use memory_streams::Folder;
use run_directory::execute;
use std::fmt::Display;
use std::thread::Threads;
use wasm_binary::read_module;
use wasm_engine::{End, Instances, RunFault};
use wasm_tree::WFault;
use wasm_valid::{ValidModule, validate};

/// More reductions than any of the programs makes.
const STEPS: u64 = 10_000_000;

/// How many pages of memory each program has.
const PAGES: u32 = 1;

/// The bytes for which the first stream has room.
const FEW: usize = 2;

/// The status if a file, a module, memory or a stream failed.
const FAILED: u8 = 3;

/// Builds the files with this many workers, asks the other calls of what is built, and answers whether memory sufficed.
pub fn ask<R: Print + AllocGlobal + Threads + Sync>(
    rt: &R,
    files: &[SourceFile],
    workers: usize,
) -> Result<bool> {
    let options = Options {
        workers,
        pages: PAGES,
    };
    match build(rt, rt.alloc(), files, options, &Open) {
        Err(fault) => {
            println!(rt; "build: {fault}")?;
            Ok(fault != BuildFault::NoMemory)
        }
        Ok(Outcome::Refused(refusals)) => print_all(rt, &refusals),
        Ok(Outcome::Built { link, modules }) => ask_built(rt, &link, &modules),
    }
}

fn print_all<R: Print, T: Display>(rt: &R, refusals: &[T]) -> Result<bool> {
    for refusal in refusals {
        println!(rt; "build: {refusal}")?;
    }
    Ok(true)
}

/// Asks of modules what they are, what they do, and what they do as a folder.
fn ask_built<R: Print + AllocGlobal>(
    rt: &R,
    link: &[u8],
    modules: &[(String, Vec<u8>)],
) -> Result<bool> {
    let were_run = ask_modules(rt, link, modules)?;
    let were_executed = ask_folder(rt, link, modules)?;
    Ok(were_run && were_executed)
}

/// The module of these bytes, or what refused it.
fn module_of<R: AllocGlobal>(rt: &R, bytes: &[u8]) -> Result<ValidModule, (&'static str, WFault)> {
    match read_module(rt.alloc(), bytes) {
        Err(fault) => Err(("read_module", fault)),
        Ok(tree) => match validate(rt.alloc(), tree) {
            Err(fault) => Err(("validate", fault)),
            Ok(module) => Ok(module),
        },
    }
}

/// Adds the module of these bytes, or prints what refused it. Whether it was added.
fn add_module<R: Print + AllocGlobal>(
    rt: &R,
    all: &mut Vec<ValidModule>,
    bytes: &[u8],
) -> Result<bool> {
    match module_of(rt, bytes) {
        Err((call, fault)) => {
            println!(rt; "{call}: {fault}")?;
            Ok(false)
        }
        Ok(module) => {
            all.push(module)?;
            Ok(true)
        }
    }
}

/// Adds link, and then the other modules, up to the first that is refused. Whether all were added.
fn add_all<R: Print + AllocGlobal>(
    rt: &R,
    all: &mut Vec<ValidModule>,
    link: &[u8],
    modules: &[(String, Vec<u8>)],
) -> Result<bool> {
    if !add_module(rt, all, link)? {
        return Ok(false);
    }
    for module in modules {
        if !add_module(rt, all, &module.1)? {
            return Ok(false);
        }
    }
    Ok(true)
}

/// Reads, validates, links and runs the modules, with a stream for two bytes and with one for all.
fn ask_modules<R: Print + AllocGlobal>(
    rt: &R,
    link: &[u8],
    modules: &[(String, Vec<u8>)],
) -> Result<bool> {
    let mut all = Vec::new(rt.alloc());
    if !add_all(rt, &mut all, link, modules)? {
        return Ok(false);
    }
    let few = ask_run(rt, &all, FEW)?;
    let many = ask_run(rt, &all, usize::MAX)?;
    Ok(few && many)
}

/// Links and runs the modules with room for `room` bytes. Whether memory sufficed.
fn ask_run<R: Print + AllocGlobal>(rt: &R, modules: &[ValidModule], room: usize) -> Result<bool> {
    let mut instances = match Instances::link(rt.alloc(), modules) {
        Ok(instances) => instances,
        Err(fault) => {
            println!(rt; "link: {fault}")?;
            return Ok(fault != WFault::NoMemory);
        }
    };
    let mut out = Paper::with_room(room);
    match instances.run(STEPS, &mut out) {
        Ok(end) => {
            print_end(rt, end, &out)?;
            Ok(true)
        }
        Err(fault) => {
            println!(rt; "run: {fault} after {} bytes ({})", out.count, out.text())?;
            ask_again(rt, &mut instances)?;
            Ok(fault != RunFault::NoMemory)
        }
    }
}

/// Goes on with a run that was broken off, with a new stream.
fn ask_again<R: Print>(rt: &R, instances: &mut Instances<'_>) -> Result<()> {
    let mut out = Paper::with_room(usize::MAX);
    match instances.run(STEPS, &mut out) {
        Ok(end) => print_end(rt, end, &out),
        Err(fault) => {
            println!(rt;
                "run again: {fault} after {} bytes ({})",
                out.count,
                out.text()
            )?;
            Ok(())
        }
    }
}

fn print_end<R: Print>(rt: &R, end: End, out: &Paper) -> Result<()> {
    match end {
        End::Done(number) => {
            println!(rt;
                "run: end {number} after {} bytes ({})",
                out.count,
                out.text()
            )?;
        }
        End::Trap => println!(rt; "run: trap after {} bytes ({})", out.count, out.text())?,
        End::StillRunning => println!(rt;
            "run: goes on after {} bytes ({})",
            out.count,
            out.text()
        )?,
    }
    Ok(())
}

/// Executes the modules as a folder. Whether memory sufficed.
fn ask_folder<R: Print + AllocGlobal>(
    rt: &R,
    link: &[u8],
    modules: &[(String, Vec<u8>)],
) -> Result<bool> {
    let mut folder = Folder { link, modules };
    let mut out = Paper::with_room(usize::MAX);
    let mut err = Paper::with_room(usize::MAX);
    let status = execute(rt.alloc(), &mut folder, STEPS, &mut out, &mut err);
    let words = err.text().trim_end();
    println!(rt;
        "execute: status {status} after {} bytes ({}), words ({words})",
        out.count,
        out.text()
    )?;
    Ok(status != FAILED)
}
