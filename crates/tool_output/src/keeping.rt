//! Files that are written only if what they hold changes.

use std::rt::Files;
use std::{fs, io};

/// Whether a file is there that holds just these bytes.
pub fn holds_bytes<R: Files + AllocGlobal>(rt: &R, path: &str, bytes: &[u8]) -> bool {
    let is_so_long = match fs::metadata(rt, path) {
        Ok(found) => found.is_file() && found.len() == bytes.len() as u64,
        Err(_) => false,
    };
    if !is_so_long {
        return false;
    }
    match fs::read(rt, path) {
        Ok(found) => found.as_slice() == bytes,
        Err(_) => false,
    }
}

/// Writes these bytes as a file. One that holds them already keeps its time.
pub fn write_changed<R: Files + AllocGlobal>(rt: &R, path: &str, bytes: &[u8]) -> io::Result<()> {
    if holds_bytes(rt, path, bytes) {
        return Ok(());
    }
    fs::write(rt, path, bytes)
}
