//! Paths of files, and the names that the protocol has for them.

use percent_encoding::{AsciiSet, NON_ALPHANUMERIC, ascii_set, percent_decode, percent_encode};
use std::alloc::{AllocError, Global};

/// What stands in front of a path.
const FRONT: &str = "file://";

/// The name of this machine.
const THIS_MACHINE: &str = "localhost";

/// The bytes that are escaped.
const ESCAPED: AsciiSet = ascii_set!(
    NON_ALPHANUMERIC
        .remove(b'/')
        .remove(b'-')
        .remove(b'.')
        .remove(b'_')
        .remove(b'~')
);

/// What stands behind the machine's name, from the slash on, if it is this machine.
fn behind_machine(rest: &str) -> Option<&str> {
    if rest.starts_with('/') {
        return Some(rest);
    }
    rest.strip_prefix(THIS_MACHINE)
        .filter(|path| path.starts_with('/'))
}

/// The path of the file of this name, or nothing if it is no file of this machine. Bytes that are no UTF-8 are replaced.
pub fn path_of(alloc: Global, uri: &str) -> Result<Option<String>, AllocError> {
    let Some(escaped) = uri.strip_prefix(FRONT).and_then(behind_machine) else {
        return Ok(None);
    };
    let mut bytes = Vec::new(alloc);
    percent_decode(escaped.as_bytes()).append_to(&mut bytes)?;
    Ok(Some(String::from_utf8_lossy(alloc, &bytes)?))
}

/// The name of the file of this path, which begins with a slash.
pub fn uri_of(alloc: Global, path: &str) -> Result<String, AllocError> {
    let mut uri = String::from_str(alloc, FRONT)?;
    percent_encode(path.as_bytes(), ESCAPED).append_to(&mut uri)?;
    Ok(uri)
}
