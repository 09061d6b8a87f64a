//! A program's files with one byte changed.

use anyhow::{Context, Result, bail};
use memory_streams::execute_two;
use std::alloc::Global;
use std::fs;
use std::rt::Files;

/// The most reductions of each program.
const STEPS: u64 = 100_000;

fn status_of(alloc: Global, link: &[u8], body: &[u8]) -> u8 {
    execute_two(alloc, link, body, STEPS)
}

/// Each program of these files with a byte of the first one changed.
fn check_file(alloc: Global, first: &[u8], second: &[u8], is_link: bool) -> Result<u64> {
    let mut bytes = Vec::from_slice(alloc, first)?;
    let mut count = 0u64;
    for at in 0..first.len() {
        for mask in 1..=255u8 {
            bytes[at] = first[at] ^ mask;
            let status = if is_link {
                status_of(alloc, &bytes, second)
            } else {
                status_of(alloc, second, &bytes)
            };
            if status > 4 {
                bail!("status {status} with byte {at} changed by {mask}");
            }
            count = count.saturating_add(1);
        }
        bytes[at] = first[at];
    }
    Ok(count)
}

/// Executes the program of `hello` with each byte changed to each other one, and answers how many programs these are.
pub fn check_all<R: Files + AllocGlobal>(rt: &R) -> Result<u64> {
    let alloc = rt.alloc();
    let link = fs::read(rt, "hello/link.wasm").context("link.wasm")?;
    let body = fs::read(rt, "hello/M.wasm").context("M.wasm")?;
    if status_of(alloc, &link, &body) != 0 {
        bail!("the program does not end");
    }
    let links = check_file(alloc, &link, &body, true)?;
    let bodies = check_file(alloc, &body, &link, false)?;
    Ok(links.saturating_add(bodies))
}
