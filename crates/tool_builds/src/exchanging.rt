//! `m2 input`: another input for a program that was built into a folder.

use crate::building::{Modules, build_found};
use crate::giving::give_file;
use crate::saving::save_modules;
use anyhow::Result;
use command_words::{Exit, FAILED};
use find_files::{Program, program_of_text, text_of};
use program_input::{INPUT_MODULE, READER_FILE, READER_TEXT, place_of_input};
use relink_input::relink;
use std::alloc::Global;
use std::rt::Files;
use std::thread::Threads;
use tool_words::{PROGRAM, Setting};

/// A program of the module that holds an input.
fn reader<R: Files + Eprint + AllocGlobal>(rt: &R, setting: &Setting) -> Result<Program, Exit> {
    let text = Vec::from_slice(rt.alloc(), READER_TEXT.as_bytes())?;
    program_of_text(rt, setting, READER_FILE, text)
}

/// The module that holds the input, among these.
fn input_of(alloc: Global, modules: Modules) -> Vec<u8> {
    let mut others = modules.others;
    match place_of_input(&others) {
        None => Vec::new(alloc),
        Some(place) => {
            let (_, bytes) = others.remove(place);
            bytes
        }
    }
}

/// The bytes of a module in a folder. That it cannot be read is reported.
fn module_in<R>(rt: &R, folder: &str, module: &str) -> Result<Vec<u8>, Exit>
where
    R: Files + Eprint + AllocGlobal,
{
    let path = format!(in rt.alloc(); "{folder}/{module}.wasm")?;
    text_of(rt, path.as_str())
}

/// Link and the module that holds the input, as they are in the folder with this new module.
fn exchanged<R>(rt: &R, folder: &str, input: Vec<u8>) -> Result<Modules, Exit>
where
    R: Files + Eprint + AllocGlobal,
{
    let link = module_in(rt, folder, "link")?;
    let old = module_in(rt, folder, INPUT_MODULE)?;
    match relink(rt.alloc(), &link, &old, &input) {
        Ok(link) => {
            let name = String::from_str(rt.alloc(), INPUT_MODULE)?;
            let mut others = Vec::new(rt.alloc());
            others.push((name, input))?;
            Ok(Modules {
                files: Vec::new(rt.alloc()),
                link,
                others,
            })
        }
        Err(fault) => {
            let _ = eprintln!(rt; "{PROGRAM}: {folder}: {fault}");
            Err(Exit::Reported(FAILED))
        }
    }
}

/// Puts the bytes of this file into the program of a folder, in place of its input. The status.
pub fn exchange_input<R>(rt: &R, setting: &Setting, folder: &str, input: &str) -> Result<u8, Exit>
where
    R: Files + Input + Print + Eprint + AllocGlobal + Threads + Sync,
{
    let mut program = reader(rt, setting)?;
    give_file(rt, input, &mut program)?;
    let built = build_found(rt, setting, READER_FILE, program)?;
    let Modules { link, others, .. } = exchanged(rt, folder, input_of(rt.alloc(), built))?;
    Ok(save_modules(rt, &link, others, folder)?)
}
