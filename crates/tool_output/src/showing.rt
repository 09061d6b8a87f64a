//! What people are told of a program that is refused.

use crate::output::say_output_fault;
use crate::screen::Screen;
use anyhow::Result;
use build_jobs::SourceFile;
use command_words::FAILED;
use find_files::{Program, alone, partner_words};
use m2_tree::{Pos, Refusal};
use show_refusals::{explanation, show_json};
use std::io;
use tool_words::{PROGRAM, Style};

/// The status of a program that is refused.
const REFUSED: u8 = 1;

/// Prints refusals, each in a line, and explains each below it on standard error. Why printing failed, if it did.
fn print_lines<R: Print + Eprint + AllocGlobal>(
    rt: &R,
    files: &[SourceFile],
    refusals: &[Refusal],
    is_coloured: bool,
) -> Result<io::Result<()>> {
    for refusal in refusals {
        let words = explanation(rt.alloc(), files, refusal, is_coloured)?;
        if let Err(error) = println!(rt; "{refusal}") {
            return Ok(Err(error));
        }
        let _ = eprint!(rt; "{words}");
    }
    Ok(Ok(()))
}

/// Prints refusals as JSON objects, each in a line with its detail. Why printing failed, if it did.
fn print_objects<R: Print + AllocGlobal>(
    rt: &R,
    files: &[SourceFile],
    refusals: &[Refusal],
    details: &[String],
) -> Result<io::Result<()>> {
    let mut out = Screen::new(rt.alloc(), rt)?;
    show_json(rt.alloc(), files, refusals, details, &mut out)?;
    Ok(out.close())
}

/// Prints refusals as they are wanted. Why printing failed, if it did.
fn print_all<R: Print + Eprint + AllocGlobal>(
    rt: &R,
    style: Style,
    files: &[SourceFile],
    refusals: &[Refusal],
    details: &[String],
) -> Result<io::Result<()>> {
    match style {
        Style::Text => print_lines(rt, files, refusals, false),
        Style::Coloured => print_lines(rt, files, refusals, true),
        Style::Json => print_objects(rt, files, refusals, details),
    }
}

/// Says where a module was looked for, folder by folder.
fn say_folders<R: Eprint>(rt: &R, folders: &[String]) {
    for (at, folder) in folders.iter().enumerate() {
        let between = if at == 0 { "" } else { ", " };
        let _ = eprint!(rt; "{between}{folder}");
    }
}

/// Says which modules are in no folder.
fn say_lacking<R: Eprint>(rt: &R, program: &Program) {
    for name in &program.lacking {
        let _ = eprint!(rt; "{PROGRAM}: no definition of {name} was found in ");
        say_folders(rt, &program.searched);
        let _ = eprintln!(rt; "; --lib and M2_LIB name more folders");
    }
}

/// Says which files are wanted beside definitions and implementations.
fn say_partners<R: Eprint + AllocGlobal>(rt: &R, refusals: &[Refusal]) -> Result<()> {
    for refusal in refusals {
        let words = partner_words(rt.alloc(), refusal)?;
        if !words.is_empty() {
            let (file, pos) = (&refusal.file, refusal.pos);
            let (line, col) = (pos.line, pos.col);
            let _ = eprintln!(rt; "{PROGRAM}: {file}:{line}:{col}: {words}");
        }
    }
    Ok(())
}

/// Shows the refusals of a program, as objects with their details, and says which modules and files it lacks. The status. The error
/// is want of memory.
pub fn show<R: Print + Eprint + AllocGlobal>(
    rt: &R,
    style: Style,
    program: &Program,
    refusals: &[Refusal],
    details: &[String],
) -> Result<u8> {
    match print_all(rt, style, &program.files, refusals, details)? {
        Ok(()) => {
            if style != Style::Json {
                say_partners(rt, refusals)?;
            }
            say_lacking(rt, program);
            Ok(REFUSED)
        }
        Err(error) => {
            say_output_fault(rt, &error);
            Ok(FAILED)
        }
    }
}

/// Shows where a text is refused. The status. The error is want of memory.
pub fn refuse<R: Print + Eprint + AllocGlobal>(
    rt: &R,
    style: Style,
    path: &str,
    text: Vec<u8>,
    pos: Pos,
    number: u32,
) -> Result<u8> {
    let mut refusals = Vec::new(rt.alloc());
    let file = String::from_str(rt.alloc(), path)?;
    refusals.push(Refusal { file, pos, number })?;
    show(rt, style, &alone(rt.alloc(), path, text)?, &refusals, &[])
}
