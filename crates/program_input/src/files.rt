//! The files of a program that its input replaces.

ghost use Rattle.std.specs.Prelude.{◌<◌, length, IfSome};

use build_jobs::SourceFile;
use input_module::{InputFault, input_text};
use std::alloc::{AllocError, Global};

/// The module that holds an input.
pub const INPUT_MODULE: &str = "InputBytes";

/// The name of the file of its implementation.
const INPUT_FILE: &str = "InputBytes.mod";

/// The name of the file of its definition.
const DEFINITION_FILE: &str = "InputBytes.def";

/// The text of a program that has this module, and nothing else.
pub const READER_TEXT: &str = "MODULE Reader; IMPORT InputBytes; END Reader.";

/// The name of the file of this program, which is nowhere.
pub const READER_FILE: &str = "Reader.mod";

/// Whether this is the path of a file of this name, in any folder.
fn is_of(path: &str, name: &str) -> bool {
    match path.strip_suffix(name) {
        None => false,
        Some(folder) => folder.is_empty() || folder.ends_with('/'),
    }
}

/// The first file of this name, in any folder.
fn file_named<'a>(files: &'a [SourceFile], name: &str) -> Option<&'a SourceFile> {
    for file in files {
        if is_of(file.name.as_str(), name) {
            return Some(file);
        }
    }
    None
}

/// Whether a program of these files reads an input.
pub fn has_input(files: &[SourceFile]) -> bool {
    file_named(files, INPUT_FILE).is_some()
}

/// Makes these bytes the input of a program of these files. Nothing is done if it reads none.
pub fn put_input(alloc: Global, files: &mut [SourceFile], bytes: &[u8]) -> Result<(), InputFault> {
    let text = input_text(alloc, bytes)?;
    for file in files {
        if is_of(file.name.as_str(), INPUT_FILE) {
            file.bytes = text;
            return Ok(());
        }
    }
    Ok(())
}

/// Adds a file of these bytes.
fn add_file(files: &mut Vec<SourceFile>, name: String, bytes: Vec<u8>) -> Result<(), AllocError> {
    files.push(SourceFile { name, bytes })?;
    Ok(())
}

/// The files of a program that has these bytes as input, and no module but that of the input. The definition of this
/// module is that of these files, and if they have none, the program lacks it.
pub fn reader_of(
    alloc: Global,
    files: &[SourceFile],
    bytes: &[u8],
) -> Result<Vec<SourceFile>, InputFault> {
    let mut own = Vec::new(alloc);
    let program = Vec::from_slice(alloc, READER_TEXT.as_bytes())?;
    add_file(&mut own, String::from_str(alloc, READER_FILE)?, program)?;
    if let Some(file) = file_named(files, DEFINITION_FILE) {
        let definition = Vec::from_slice(alloc, &file.bytes)?;
        add_file(
            &mut own,
            String::from_str(alloc, DEFINITION_FILE)?,
            definition,
        )?;
    }
    let text = input_text(alloc, bytes)?;
    add_file(&mut own, String::from_str(alloc, INPUT_FILE)?, text)?;
    Ok(own)
}

/// The place of the module that holds the input, among modules under their names.
pub fn place_of_input(modules: &[(String, Vec<u8>)]) -> Option<usize>
    ensures { IfSome result (λ place. place < length modules.now) }
{
    for (place, module) in modules.iter().enumerate() {
        if module.0.as_str() == INPUT_MODULE {
            return Some(place);
        }
    }
    None
}
