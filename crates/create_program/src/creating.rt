//! `m2 new`: the files of a new program, or of an exercise.

use crate::exercise::{case_folder, exercise_of};
use anyhow::Result;
use command_words::{COMMAND_LINE, FAILED};
use m2_scan::{ScanError, TokenRule, scan};
use m2_tree::{Lexeme, MAX_NAME, Token, is_console};
use std::alloc::{AllocError, Global};
use std::fs::File;
use std::io::{ErrorKind, Write};
use std::rt::Files;
use std::{fs, io};
use tool_words::PROGRAM;

/// The status if the files are written.
const WRITTEN: u8 = 0;

/// What is said of a word that is no name.
const NO_NAME: &str = "is not a name: a name is a letter, then letters and digits";

/// The module that the compiler writes itself, whose name no other has.
const LINK: &str = "link";

/// What the name of the program's own module ends with.
const WORDS: &str = "Words";

/// What stands for the name of the program in the texts.
const PROGRAM_NAME: char = '@';

/// What stands for the name of its module in the texts.
const MODULE_NAME: char = '$';

const PROGRAM_TEXT: &str = "MODULE @;

FROM $ IMPORT Write, EndLine;

BEGIN
  Write(\"Hello from @\");
  EndLine
END @.
";

const DEFINITION_TEXT: &str = "DEFINITION MODULE $;

(* Writes the characters of a text. *)
PROCEDURE Write(text: ARRAY OF CHAR);

(* Ends the line. *)
PROCEDURE EndLine;

END $.
";

const IMPLEMENTATION_TEXT: &str = "IMPLEMENTATION MODULE $;

FROM Console IMPORT Put;

CONST
  lineEnd = 12C;

PROCEDURE Write(text: ARRAY OF CHAR);
VAR
  at: CARDINAL;
BEGIN
  FOR at := 0 TO HIGH(text) DO
    Put(text[at])
  END
END Write;

PROCEDURE EndLine;
BEGIN
  Put(lineEnd)
END EndLine;

END $.
";

/// A file of a new program.
#[derive(Drop)]
pub struct NewFile {
    pub name: String,
    pub text: String,
}

/// Why this is no name of a program, as its tokens are these.
fn token_fault(name: &str, tokens: &[Token]) -> Option<&'static str> {
    match tokens {
        [first, _] => match &first.lexeme {
            Lexeme::Name(found) if found.as_bytes() == name.as_bytes() => None,
            Lexeme::Symbol(_) => Some("is a reserved word or an operator"),
            _ => Some(NO_NAME),
        },
        _ => Some(NO_NAME),
    }
}

/// Why this is no name of a program.
fn name_fault(alloc: Global, name: &str) -> Option<&'static str> {
    if is_console(name.as_bytes()) || name == LINK {
        return Some("is the name of a built-in module");
    }
    match scan(alloc, name.as_bytes()) {
        Ok(tokens) => token_fault(name, &tokens),
        Err(ScanError::NoMemory) => Some("cannot be checked: no memory left (90)"),
        Err(ScanError::Refused(refusal)) => match refusal.broken {
            TokenRule::LongName => Some("has more than 64 letters and digits"),
            _ => Some(NO_NAME),
        },
    }
}

/// The name of the program's own module: another one than the program's.
fn module_of(alloc: Global, name: &str) -> Result<String, AllocError> {
    let mut module = String::new(alloc);
    if name.len() + WORDS.len() <= MAX_NAME {
        module.push_str(name)?;
    }
    module.push_str(WORDS)?;
    Ok(module)
}

/// Adds a character of a text, or the name that it stands for.
fn add_filled(
    filled: &mut String,
    letter: char,
    name: &str,
    module: &str,
) -> Result<(), AllocError> {
    match letter {
        PROGRAM_NAME => filled.push_str(name),
        MODULE_NAME => filled.push_str(module),
        _ => filled.push(letter),
    }
}

/// A text with these names in it.
pub fn fill_text(
    alloc: Global,
    text: &str,
    name: &str,
    module: &str,
) -> Result<String, AllocError> {
    let mut filled = String::new(alloc);
    for letter in text.chars() {
        add_filled(&mut filled, letter, name, module)?;
    }
    Ok(filled)
}

/// Adds the file of a module.
fn add_file(
    alloc: Global,
    files: &mut Vec<NewFile>,
    module: &str,
    ending: &str,
    text: String,
) -> Result<(), AllocError> {
    let mut name = String::from_str(alloc, module)?;
    name.push_str(ending)?;
    files.push(NewFile { name, text })?;
    Ok(())
}

/// The files of a program of this name.
fn files_of(alloc: Global, name: &str) -> Result<Vec<NewFile>, AllocError> {
    let module = module_of(alloc, name)?;
    let module = module.as_str();
    let mut files = Vec::new(alloc);
    let text = fill_text(alloc, PROGRAM_TEXT, name, module)?;
    add_file(alloc, &mut files, name, ".mod", text)?;
    let text = fill_text(alloc, DEFINITION_TEXT, name, module)?;
    add_file(alloc, &mut files, module, ".def", text)?;
    let text = fill_text(alloc, IMPLEMENTATION_TEXT, name, module)?;
    add_file(alloc, &mut files, module, ".mod", text)?;
    Ok(files)
}

/// Writes a file that is not there yet. If that fails, it is not there.
fn write_file<R: Files>(rt: &R, file: &NewFile) -> io::Result<()> {
    let mut made = File::create_new(rt, file.name.as_str())?;
    let written = made.write_all(file.text.as_bytes());
    if written.is_err() {
        let _ = fs::remove_file(rt, file.name.as_str());
    }
    written
}

/// Removes files that were written.
fn remove_files<R: Files>(rt: &R, files: &[NewFile]) {
    for file in files {
        let _ = fs::remove_file(rt, file.name.as_str());
    }
}

/// Says why a file was not written.
fn say_unwritten<R: Eprint>(rt: &R, name: &str, error: io::Error) {
    if error.kind() == ErrorKind::AlreadyExists {
        let _ = eprintln!(rt; "{PROGRAM}: {name} already exists; nothing was written");
    } else {
        let _ = eprintln!(rt; "{PROGRAM}: cannot write {name}: {error}");
    }
}

/// Writes files, all or none. False if one cannot be written, and that is reported.
fn write_files<R: Files + Eprint>(rt: &R, files: &[NewFile]) -> bool {
    for (at, file) in files.iter().enumerate() {
        if let Err(error) = write_file(rt, file) {
            say_unwritten(rt, file.name.as_str(), error);
            remove_files(rt, &files[..at]);
            return false;
        }
    }
    true
}

/// Prints the names of files.
fn say_files<R: Print>(rt: &R, files: &[NewFile]) -> Result<u8> {
    for file in files {
        println!(rt; "{}", file.name)?;
    }
    Ok(WRITTEN)
}

/// Writes an exercise of this name: a solution, and a folder with its cases. The status.
fn create_exercise<R: Files + Print + Eprint + AllocGlobal>(rt: &R, name: &str) -> Result<u8> {
    let folder = case_folder(rt.alloc(), name)?;
    if let Err(error) = fs::create_dir(rt, folder.as_str()) {
        say_unwritten(rt, folder.as_str(), error);
        return Ok(FAILED);
    }
    let files = exercise_of(rt.alloc(), name)?;
    if !write_files(rt, &files) {
        let _ = fs::remove_dir(rt, folder.as_str());
        return Ok(FAILED);
    }
    say_files(rt, &files)
}

/// Writes a program of this name that runs, and a module for it, into the folder in which this program was called.
fn create_program<R: Files + Print + Eprint + AllocGlobal>(rt: &R, name: &str) -> Result<u8> {
    let files = files_of(rt.alloc(), name)?;
    if !write_files(rt, &files) {
        return Ok(FAILED);
    }
    say_files(rt, &files)
}

/// Writes a program of this name that runs, or an exercise with its cases, into the folder in which this program was called. What
/// is there already stays, and then nothing is written. The status.
pub fn create<R: Files + Print + Eprint + AllocGlobal>(
    rt: &R,
    name: &str,
    is_class: bool,
) -> Result<u8> {
    if let Some(fault) = name_fault(rt.alloc(), name) {
        let _ = eprintln!(rt; "{PROGRAM}: '{name}' {fault}");
        return Ok(COMMAND_LINE);
    }
    if is_class {
        create_exercise(rt, name)
    } else {
        create_program(rt, name)
    }
}
