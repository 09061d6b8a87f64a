//! Mends of refused programs: they are tried, over what the folders have.

use command_words::Exit;
use find_files::{Program, Spare, spare_files};
use m2_tree::Refusal;
use show_mends::{Chain, mend_file, say_chains};
use std::rt::Files;
use std::thread::Threads;
use tool_words::{Setting, Style};

/// The most files of a program that are mended.
const MOST_FILES: usize = 8;

/// The mends of the files in which something is refused, at most so many one after another in each. `None` for a file
/// that is not there.
pub fn chains_of<R: Files + Eprint + AllocGlobal + Threads + Sync>(
    rt: &R,
    setting: &Setting,
    path: &str,
    program: &Program,
    refusals: &[Refusal],
    most: usize,
) -> Result<Vec<Option<Chain>>, Exit> {
    let Spare { files, library } = spare_files(rt, setting, path, &program.files)?;
    let mut chains = Vec::new(rt.alloc());
    let pages = setting.options.pages;
    for refusal in refusals.iter().take(MOST_FILES) {
        match mend_file(rt, &files, &library, refusal, pages, most) {
            Ok(chain) => chains.push(chain)?,
            Err(fault) => return Err(Exit::from(anyhow::Error::from(fault))),
        }
    }
    Ok(chains)
}

/// Says the first mend of each refusal, if refusals are shown to people.
pub fn say_mends<R: Files + Eprint + AllocGlobal + Threads + Sync>(
    rt: &R,
    setting: &Setting,
    path: &str,
    program: &Program,
    refusals: &[Refusal],
) -> Result<(), Exit> {
    if setting.style == Style::Json {
        return Ok(());
    }
    let chains = chains_of(rt, setting, path, program, refusals, 1)?;
    let is_coloured = setting.style == Style::Coloured;
    Ok(say_chains(rt, &program.files, is_coloured, &chains)?)
}
