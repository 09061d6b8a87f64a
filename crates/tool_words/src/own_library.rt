//! The library that came with the program.

use anyhow::Result;
use std::fs;
use std::io::{Error, ErrorKind};
use std::rt::Files;

/// By this name Linux leads to the file of the program that runs.
const PROGRAM_FILE: &str = "/proc/self/exe";

/// Where the library stands, from the program's folder on: as it is installed, and in a clone.
const PLACES: [&str; 2] = ["../share/m2c/lib", "../lib"];

/// A definition that the library has.
const DEFINITION: &str = "InOut.def";

/// The folder in which a file stands.
fn folder_of(path: &str) -> &str {
    match path.rfind('/') {
        None => ".",
        Some(at) => &path[..at],
    }
}

/// That something is not found is no error. Want of memory is one.
fn unless_memory_ran_out<T: Drop>(error: Error) -> Result<Option<T>> {
    if error.kind() == ErrorKind::OutOfMemory {
        return Err(error.into());
    }
    Ok(None)
}

/// The path of a file or a folder, with no link in it. None if it is not there, or if the system finds no paths.
fn path_of<R>(rt: &R, name: &str) -> Result<Option<String>>
where
    R: Files + AllocGlobal,
{
    match fs::canonicalize(rt, name) {
        Ok(path) => Ok(Some(path.into_string())),
        Err(error) => unless_memory_ran_out(error),
    }
}

/// This folder, if the library stands in it.
fn library_at<R>(rt: &R, name: &str) -> Result<Option<String>>
where
    R: Files + AllocGlobal,
{
    let Some(folder) = path_of(rt, name)? else {
        return Ok(None);
    };
    let definition = format!(in rt.alloc(); "{folder}/{DEFINITION}")?;
    match fs::metadata(rt, definition.as_str()) {
        Ok(_) => Ok(Some(folder)),
        Err(error) => unless_memory_ran_out(error),
    }
}

/// The folder of the library that came with the program, if it is found from the program's file on.
pub fn own_library<R>(rt: &R) -> Result<Option<String>>
where
    R: Files + AllocGlobal,
{
    let Some(program) = path_of(rt, PROGRAM_FILE)? else {
        return Ok(None);
    };
    let folder = folder_of(program.as_str());
    for place in PLACES {
        let name = format!(in rt.alloc(); "{folder}/{place}")?;
        if let Some(library) = library_at(rt, name.as_str())? {
            return Ok(Some(library));
        }
    }
    Ok(None)
}
