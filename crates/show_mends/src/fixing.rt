//! Mends that are written into files.

use command_words::FAILED;
use m2_tree::Refusal;
use std::fs;
use std::rt::Files;
use tool_words::{Fix, PROGRAM};
use try_mends::Chain;

/// Whether the person wants a file written.
fn is_wanted<R: Input + Eprint + AllocGlobal>(rt: &R, fix: Fix, file: &str) -> bool {
    if fix == Fix::Write {
        return true;
    }
    let _ = eprint!(rt; "{PROGRAM}: write these mends into {file}? (y or n) ");
    match rt.lines(rt.alloc()).next() {
        Some(Ok(line)) => matches!(line.trim(), "y" | "Y" | "yes"),
        _ => false,
    }
}

/// Writes a mended file.
fn write_file<R: Files + Eprint>(rt: &R, file: &str, text: &[u8]) -> u8 {
    match fs::write(rt, file, text) {
        Ok(()) => {
            let _ = eprintln!(rt; "{PROGRAM}: {file} is mended");
            0
        }
        Err(error) => {
            let _ = eprintln!(rt; "{PROGRAM}: cannot write {file}: {error}");
            FAILED
        }
    }
}

/// Writes the files that are accepted with their mends, if that is wanted. The greatest status of writing.
pub fn write_chains<R: Files + Input + Eprint + AllocGlobal>(
    rt: &R,
    fix: Fix,
    refusals: &[Refusal],
    chains: &[Option<Chain>],
) -> u8 {
    let mut greatest = 0;
    for (refusal, chain) in refusals.iter().zip(chains) {
        if let Some(chain) = chain {
            let file = refusal.file.as_str();
            if fix != Fix::Show && chain.is_accepted && is_wanted(rt, fix, file) {
                greatest = greatest.max(write_file(rt, file, &chain.text));
            }
        }
    }
    greatest
}
