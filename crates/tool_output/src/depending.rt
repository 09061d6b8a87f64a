//! Of which files others were made, for make and ninja.

use command_words::{Exit, FAILED};
use show_graph::depends;
use std::fs;
use std::rt::Files;
use tool_words::PROGRAM;

/// Writes into the file `deps` that these files were made of those that were read. That it cannot be written is reported.
pub fn write_depends<R: Files + Eprint + AllocGlobal>(
    rt: &R,
    deps: &str,
    made: &[String],
    read: &[&str],
) -> Result<(), Exit> {
    let text = depends(rt.alloc(), made, read)?;
    match fs::write(rt, deps, text.as_bytes()) {
        Ok(()) => Ok(()),
        Err(error) => {
            let _ = eprintln!(rt; "{PROGRAM}: cannot write {deps}: {error}");
            Err(Exit::Reported(FAILED))
        }
    }
}
