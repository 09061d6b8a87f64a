//! `m2 fmt`: texts in one style.

use command_words::{Exit, FAILED};
use format_text::{FormatFault, format, unified_diff};
use program_input::read_input;
use std::io;
use std::rt::Files;
use tool_output::{refuse, rewrite_file, say_output_fault, write_page};
use tool_words::{Layout, PROGRAM, Style};

/// The status if each text has its layout.
const LAID_OUT: u8 = 0;

/// The status if a text has another layout.
const DIFFERS: u8 = 1;

/// The name of standard input.
const STANDARD_INPUT: &str = "-";

/// The status of what was written into a file or not.
fn status_of<R: Eprint>(rt: &R, path: &str, written: io::Result<()>) -> u8 {
    match written {
        Ok(()) => LAID_OUT,
        Err(error) => {
            let _ = eprintln!(rt; "{PROGRAM}: cannot write {path}: {error}");
            FAILED
        }
    }
}

/// Prints the name of a file that has another layout. The status.
fn print_name<R: Print + Eprint>(rt: &R, path: &str) -> u8 {
    match println!(rt; "{path}") {
        Ok(()) => DIFFERS,
        Err(error) => {
            say_output_fault(rt, &error);
            FAILED
        }
    }
}

/// Writes or prints the new layout of a text that has another. The status.
fn hand_out<R>(rt: &R, path: &str, text: &[u8], new: &[u8], layout: Layout) -> Result<u8, Exit>
where
    R: Files + Print + Eprint + AllocGlobal,
{
    match layout {
        Layout::Check => Ok(print_name(rt, path)),
        Layout::Diff => {
            let page = unified_diff(rt.alloc(), path, text, new)?;
            Ok(write_page(rt, &page).max(DIFFERS))
        }
        Layout::Write => Ok(status_of(rt, path, rewrite_file(rt, path, new)?)),
    }
}

/// Lays out the text of a file. The status.
fn format_text_of<R>(
    rt: &R,
    style: Style,
    path: &str,
    text: Vec<u8>,
    layout: Layout,
) -> Result<u8, Exit>
where
    R: Files + Print + Eprint + AllocGlobal,
{
    match format(rt.alloc(), &text) {
        Ok(new) if layout == Layout::Write && path == STANDARD_INPUT => Ok(write_page(rt, &new)),
        Ok(new) if new.as_slice() == text.as_slice() => Ok(LAID_OUT),
        Ok(new) => hand_out(rt, path, &text, &new, layout),
        Err(FormatFault::Refused(pos, number)) => Ok(refuse(rt, style, path, text, pos, number)?),
        Err(FormatFault::NoMemory) => {
            let _ = eprintln!(rt; "{PROGRAM}: no memory left (90)");
            Ok(FAILED)
        }
    }
}

/// Lays out a file. The status.
fn format_file<R>(rt: &R, style: Style, path: &str, layout: Layout) -> Result<u8, Exit>
where
    R: Files + Input + Print + Eprint + AllocGlobal,
{
    match read_input(rt, path) {
        Ok(text) => format_text_of(rt, style, path, text, layout),
        Err(error) => {
            let _ = eprintln!(rt; "{PROGRAM}: cannot read {path}: {error}");
            Ok(FAILED)
        }
    }
}

/// Lays out each of these files, or says which have another layout. The status is the greatest of theirs.
pub fn format_all<R>(rt: &R, style: Style, files: &[String], layout: Layout) -> Result<u8, Exit>
where
    R: Files + Input + Print + Eprint + AllocGlobal,
{
    let mut greatest = LAID_OUT;
    for file in files {
        greatest = greatest.max(format_file(rt, style, file.as_str(), layout)?);
    }
    Ok(greatest)
}
