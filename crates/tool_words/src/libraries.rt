//! The folders of libraries: from the command line, from the environment, and with the program.

use crate::PROGRAM;
use crate::own_library::own_library;
use anyhow::Result;
use command_words::{COMMAND_LINE, Exit, FAILED, are_named, strings_of};
use std::env::VarError;
use std::rt::{Env, Files};
use std::{env, fs};

/// The variable that names folders, with colons between them.
const VARIABLE: &str = "M2_LIB";

/// What stands between two folders of the variable.
const BETWEEN: char = ':';

/// Whether a folder is there. One that is not is reported.
fn is_folder<R: Files + Eprint>(rt: &R, name: &str) -> bool {
    match fs::metadata(rt, name) {
        Ok(found) => {
            if !found.is_dir() {
                let _ = eprintln!(rt; "{PROGRAM}: --lib {name}: not a folder");
            }
            found.is_dir()
        }
        Err(error) => {
            let _ = eprintln!(rt; "{PROGRAM}: --lib {name}: {error}");
            false
        }
    }
}

/// Whether each of these folders is there. The first that is not is reported.
fn are_folders<R: Files + Eprint>(rt: &R, names: &[&str]) -> bool {
    for name in names {
        if !is_folder(rt, name) {
            return false;
        }
    }
    true
}

/// Adds the folders that a text names, and leaves out empty names.
fn add_folders<R: AllocGlobal>(rt: &R, text: &str, folders: &mut Vec<String>) -> Result<()> {
    for name in text.split(BETWEEN) {
        if !name.is_empty() {
            folders.push(String::from_str(rt.alloc(), name)?)?;
        }
    }
    Ok(())
}

/// Adds the library that came with the program, if it is there.
fn add_own<R: Files + AllocGlobal>(rt: &R, folders: &mut Vec<String>) -> Result<()> {
    if let Some(folder) = own_library(rt)? {
        folders.push(folder)?;
    }
    Ok(())
}

/// Adds the folders of the variable, or of the program's own library if there is no variable. A value that is no
/// text is reported.
fn with_variable<R>(rt: &R, folders: Vec<String>) -> Result<Vec<String>, Exit>
where
    R: Files + Env + Eprint + AllocGlobal,
{
    let mut folders = folders;
    match env::var(rt, VARIABLE) {
        Ok(text) => add_folders(rt, text.as_str(), &mut folders)?,
        Err(VarError::NotPresent) => add_own(rt, &mut folders)?,
        Err(error) => {
            let _ = eprintln!(rt; "{PROGRAM}: the variable {VARIABLE}: {error}");
            return Err(Exit::Reported(FAILED));
        }
    }
    Ok(folders)
}

/// The folders in which modules are looked for behind the folder of the program: those behind `--lib` as they are
/// given, and then those in the variable `M2_LIB`, or without the variable the library that came with the program. An
/// empty name, and a folder behind `--lib` that is not there, are reported.
pub fn libraries_of<R>(rt: &R, names: &[&str]) -> Result<Vec<String>, Exit>
where
    R: Files + Env + Eprint + AllocGlobal,
{
    if !are_named(rt, PROGRAM, "--lib", names) {
        return Err(Exit::Reported(COMMAND_LINE));
    }
    if !are_folders(rt, names) {
        return Err(Exit::Reported(FAILED));
    }
    with_variable(rt, strings_of(rt.alloc(), names)?)
}
