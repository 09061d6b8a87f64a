//! What is written on standard output, and what is said if it failed.

use command_words::FAILED;
use std::io;
use std::io::ErrorKind;
use tool_words::PROGRAM;

/// The status of what is shown.
const SHOWN: u8 = 0;

/// Says why standard output failed: there is no space left, it is closed, or what the system says.
pub fn say_output_fault<R: Eprint>(rt: &R, error: &io::Error) {
    match error.kind() {
        ErrorKind::StorageFull => {
            let _ = eprintln!(rt; "{PROGRAM}: standard output: no space left");
        }
        ErrorKind::BrokenPipe => {
            let _ = eprintln!(rt; "{PROGRAM}: standard output: closed");
        }
        _ => {
            let _ = eprintln!(rt; "{PROGRAM}: standard output: {error}");
        }
    }
}

/// Writes what is shown. The status.
pub fn write_page<R: Print + Eprint>(rt: &R, page: &[u8]) -> u8 {
    match rt.write_all(page) {
        Ok(()) => SHOWN,
        Err(error) => {
            say_output_fault(rt, &error);
            FAILED
        }
    }
}
