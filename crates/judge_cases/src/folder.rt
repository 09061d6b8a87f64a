//! The cases of a folder: for each NAME.out a case, with NAME.in and NAME.status if they are there.

use crate::case::Case;
use anyhow::{Context, Result, ensure};
use std::fs;
use std::io::ErrorKind;
use std::rt::Files;

/// How the file ends that makes a case.
const OUTPUT: &str = ".out";

/// The names of the cases of a folder, in their order.
fn case_names<R: Files + AllocGlobal + Clone + Drop>(rt: &R, folder: &str) -> Result<Vec<String>> {
    let mut names = Vec::new(rt.alloc());
    for entry in fs::read_dir(rt, folder).context(format_args!("cannot read {folder}"))? {
        let entry = entry.context(format_args!("cannot read {folder}"))?;
        if let Some(name) = entry.file_name().strip_suffix(OUTPUT) {
            names.push(String::from_str(rt.alloc(), name)?)?;
        }
    }
    names.sort_unstable();
    Ok(names)
}

/// The bytes of a file, or none if there is no such file.
fn bytes_of<R: Files + AllocGlobal>(rt: &R, path: &str) -> Result<Vec<u8>> {
    match fs::read(rt, path) {
        Ok(bytes) => Ok(bytes),
        Err(error) => {
            ensure!(
                error.kind() == ErrorKind::NotFound,
                "cannot read {path}: {error}"
            );
            Ok(Vec::new(rt.alloc()))
        }
    }
}

/// The number that the text of a status says: 0 if it says nothing.
fn end_of(path: &str, text: &[u8]) -> Result<u8> {
    match text.trim_ascii() {
        [] => Ok(0),
        [digit] if digit.is_ascii_digit() => Ok(*digit - b'0'),
        _ => {
            ensure!(false, "{path} is no number from 0 to 9");
            Ok(0)
        }
    }
}

fn case_of<R: Files + AllocGlobal>(rt: &R, folder: &str, name: String) -> Result<Case> {
    let input = format!(in rt.alloc(); "{folder}/{name}.in")?;
    let output = format!(in rt.alloc(); "{folder}/{name}{OUTPUT}")?;
    let status = format!(in rt.alloc(); "{folder}/{name}.status")?;
    let end = end_of(status.as_str(), &bytes_of(rt, status.as_str())?)?;
    Ok(Case {
        input: bytes_of(rt, input.as_str())?,
        output: fs::read(rt, output.as_str()).context(format_args!("cannot read {output}"))?,
        name,
        end,
    })
}

/// The cases of a folder, in the order of their names.
pub fn read_cases<R: Files + AllocGlobal + Clone + Drop>(
    rt: &R,
    folder: &str,
) -> Result<Vec<Case>> {
    let mut cases = Vec::new(rt.alloc());
    for name in case_names(rt, folder)? {
        cases.push(case_of(rt, folder, name)?)?;
    }
    ensure!(!cases.is_empty(), "{folder} has no case: no file NAME.out");
    Ok(cases)
}
