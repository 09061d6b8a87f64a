//! Texts of the system.

use m2_scan::MAX_TEXT;
use std::io::Read;
use std::rt::Files;
use std::{fs, io};

/// Whether a stream stands at this path, and no file or folder. To read a pipe on which nobody writes would not end.
pub fn is_stream<R: Files>(rt: &R, path: &str) -> bool {
    match fs::metadata(rt, path) {
        Ok(found) => !found.is_file() && !found.is_dir(),
        Err(_) => false,
    }
}

/// The bytes of the file at this path, if it is a text that is not too long. Of a longer one, which may have no end, as many are
/// read as show that it is too long: one more than a text may have.
pub fn read_text<R: Files + AllocGlobal>(rt: &R, path: &str) -> io::Result<Vec<u8>> {
    let mut bytes = Vec::new(rt.alloc());
    let most = (MAX_TEXT as u64).saturating_add(1);
    fs::open(rt, path)?.take(most).read_to_end(&mut bytes)?;
    Ok(bytes)
}
