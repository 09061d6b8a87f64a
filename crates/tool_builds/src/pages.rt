//! How many pages of memory a program needs.

use m2_rule::Rule;
use m2_tree::Refusal;
use m2c::{BuildFault, MAX_PAGES, Open, Options, Outcome, SourceFile, build};
use std::thread::Threads;
use tool_words::PROGRAM;

/// How often the pages from 1 to 1024 are halved until one number is left.
const HALVINGS: usize = 10;

/// Whether a program that breaks no other rule fits into this many pages.
fn fits<R: AllocGlobal + Threads + Sync>(
    rt: &R,
    files: &[SourceFile],
    workers: usize,
    pages: u32,
) -> Result<bool, BuildFault> {
    let options = Options { workers, pages };
    match build(rt, rt.alloc(), files, options, &Open)? {
        Outcome::Built { .. } => Ok(true),
        Outcome::Refused(_) => Ok(false),
    }
}

/// The least number of pages into which a program fits that does not fit into the pages of the options. Nothing if it
/// does not fit into 1024.
fn least_pages<R: AllocGlobal + Threads + Sync>(
    rt: &R,
    files: &[SourceFile],
    options: Options,
) -> Result<Option<u32>, BuildFault> {
    if !fits(rt, files, options.workers, MAX_PAGES)? {
        return Ok(None);
    }
    let mut too_few = options.pages;
    let mut enough = MAX_PAGES;
    for _ in 0..HALVINGS {
        let middle = too_few.saturating_add(too_few.abs_diff(enough) / 2);
        if fits(rt, files, options.workers, middle)? {
            enough = middle;
        } else {
            too_few = middle;
        }
    }
    Ok(Some(enough))
}

/// Says how many pages a program needs that is refused for want of them. An error if memory ran out.
pub fn say_pages<R: Eprint + AllocGlobal + Threads + Sync>(
    rt: &R,
    files: &[SourceFile],
    options: Options,
    refusals: &[Refusal],
) -> Result<(), BuildFault> {
    for refusal in refusals {
        if refusal.number == Rule::LargeProgram.number() {
            let _ = match least_pages(rt, files, options)? {
                Some(pages) => eprintln!(rt; "{PROGRAM}: needs {pages} pages; --memory {pages}"),
                None => eprintln!(rt; "{PROGRAM}: needs more than {MAX_PAGES} pages"),
            };
        }
    }
    Ok(())
}
