//! `m2 new --class`: the files of a new exercise.

use crate::creating::{NewFile, fill_text};
use std::alloc::{AllocError, Global};

/// What the name of the folder of cases ends with.
const CASES: &str = "Cases";

const PROGRAM_TEXT: &str = "MODULE @;
(* Reads integers, and prints their sum. *)

FROM Input IMPORT ReadInt, Done;
FROM InOut IMPORT WriteInt, WriteLn;

VAR
  number, sum: INTEGER;

BEGIN
  sum := 0;
  ReadInt(number);
  WHILE Done DO
    sum := sum + number;
    ReadInt(number)
  END;
  WriteInt(sum, 0);
  WriteLn
END @.
";

/// The files of the cases.
const CASE_FILES: [(&str, &str); 6] = [
    ("none.out", "0\n"),
    ("overflow.in", "2147483647 1\n"),
    ("overflow.out", ""),
    ("overflow.status", "2\n"),
    ("three.in", "3 4 5\n"),
    ("three.out", "12\n"),
];

/// The folder of the cases of an exercise of this name.
pub fn case_folder(alloc: Global, name: &str) -> Result<String, AllocError> {
    format!(in alloc; "{name}{CASES}")
}

/// The files of an exercise of this name: a solution, and its cases in their folder.
pub fn exercise_of(alloc: Global, name: &str) -> Result<Vec<NewFile>, AllocError> {
    let folder = case_folder(alloc, name)?;
    let mut files = Vec::new(alloc);
    files.push(NewFile {
        name: format!(in alloc; "{name}.mod")?,
        text: fill_text(alloc, PROGRAM_TEXT, name, name)?,
    })?;
    for (file, text) in CASE_FILES {
        files.push(NewFile {
            name: format!(in alloc; "{folder}/{file}")?,
            text: String::from_str(alloc, text)?,
        })?;
    }
    Ok(files)
}
