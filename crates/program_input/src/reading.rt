//! The bytes of an input.

use input_module::MAX_TEXT;
use std::alloc::Global;
use std::io::Read;
use std::rt::Files;
use std::{fs, io};

/// The name of standard input.
const STANDARD_INPUT: &str = "-";

/// How many bytes are asked for at once.
const CHUNK: usize = 4096;

/// Reads to the end, or to where it is known that the input is too long.
fn read_bytes<S: Read>(alloc: Global, stream: &mut S) -> io::Result<Vec<u8>> {
    let mut bytes = Vec::new(alloc);
    let mut chunk = [0u8; CHUNK];
    for _ in 0..u64::MAX {
        let count = stream.read(&mut chunk)?;
        if count == 0 || bytes.len() > MAX_TEXT {
            break;
        }
        bytes.extend_from_slice(&chunk[..count])?;
    }
    Ok(bytes)
}

/// The bytes of the file at this path, or of standard input if this is `-`. No more are read than show that they are
/// too many.
pub fn read_input<R: Files + Input + AllocGlobal>(rt: &R, path: &str) -> io::Result<Vec<u8>> {
    if path == STANDARD_INPUT {
        return read_bytes(rt.alloc(), &mut rt.reader());
    }
    read_bytes(rt.alloc(), &mut fs::open(rt, path)?)
}
