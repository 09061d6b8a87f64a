//! `m2 build --single`: a program as one module, written into a file.

use crate::building::build_found;
use crate::giving::find_given;
use command_words::{Exit, FAILED};
use link_single::{Host, single_module};
use std::fs;
use std::rt::Files;
use std::thread::Threads;
use tool_words::{Given, PROGRAM};

/// The status if the module is written.
const WRITTEN: u8 = 0;

/// Removes what was written of a file. What is no file, as a device, stays.
fn remove_part<R: Files>(rt: &R, out: &str) {
    if let Ok(found) = fs::metadata(rt, out) {
        if found.is_file() {
            let _ = fs::remove_file(rt, out);
        }
    }
}

/// Writes the bytes of a module into this file, or leaves no file. The status.
fn write_module<R: Files + Eprint>(rt: &R, bytes: &[u8], out: &str) -> u8 {
    match fs::write(rt, out, bytes) {
        Ok(()) => WRITTEN,
        Err(error) => {
            let _ = eprintln!(rt; "{PROGRAM}: cannot write {out}: {error}");
            remove_part(rt, out);
            FAILED
        }
    }
}

/// Builds a program, and writes it as one module over this host into the file `out`. The status.
pub fn build_single<R>(rt: &R, given: &Given, host: Host, out: &str) -> Result<u8, Exit>
where
    R: Files + Input + Print + Eprint + AllocGlobal + Threads + Sync,
{
    let (setting, path) = (&given.setting, given.program.as_str());
    let program = find_given(rt, setting, path, &given.input)?;
    let modules = build_found(rt, setting, path, program)?;
    match single_module(rt.alloc(), host, &modules.link, &modules.others) {
        Ok(bytes) => Ok(write_module(rt, &bytes, out)),
        Err(fault) => {
            let _ = eprintln!(rt; "{PROGRAM}: {path}: {fault}");
            Ok(FAILED)
        }
    }
}
