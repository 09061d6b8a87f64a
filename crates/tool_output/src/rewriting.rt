//! A file is written anew, so that nothing is lost.

use std::alloc::AllocError;
use std::io::Write;
use std::rt::Files;
use std::{fs, io};

/// How the name of the file ends that holds the new text until the old one is replaced.
const NEW: &str = ".new";

/// Writes a file that is not there yet, and closes it.
fn write_new<R: Files>(rt: &R, path: &str, bytes: &[u8]) -> io::Result<()> {
    let mut file = fs::File::create_new(rt, path)?;
    file.write_all(bytes)
}

/// Replaces what a file holds. The new bytes are written beside it first, into a file with `.new` behind its name: if there is no
/// room, the old ones stay. If they cannot be replaced then, the new ones are left there.
pub fn rewrite_file<R: Files + AllocGlobal>(
    rt: &R,
    path: &str,
    bytes: &[u8],
) -> Result<io::Result<()>, AllocError> {
    let beside = format!(in rt.alloc(); "{path}{NEW}")?;
    if let Err(error) = write_new(rt, beside.as_str(), bytes) {
        if error.kind() != io::ErrorKind::AlreadyExists {
            let _ = fs::remove_file(rt, beside.as_str());
        }
        return Ok(Err(error));
    }
    if let Err(error) = fs::write(rt, path, bytes) {
        return Ok(Err(error));
    }
    Ok(fs::remove_file(rt, beside.as_str()))
}
