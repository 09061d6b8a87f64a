//! Mends for people.

use build_jobs::SourceFile;
use show_refusals::explanation;
use std::alloc::{AllocError, Global};
use text_tokens::part;
use tool_words::PROGRAM;
use try_mends::{Chain, Found, Reach, Step};

/// The most lines of a mended text that are shown.
const MOST_LINES: usize = 4;

/// What a mend comes to.
fn reach_words(alloc: Global, reach: Reach) -> Result<String, AllocError> {
    match reach {
        Reach::Program => String::from_str(alloc, "then the program is accepted"),
        Reach::File => String::from_str(alloc, "then this file is accepted"),
        Reach::Further(pos) => format!(in alloc; "then line {} is refused", pos.line),
    }
}

/// A mend in words: what to do, and what it comes to.
pub fn mend_words(alloc: Global, found: &Found) -> Result<String, AllocError> {
    let reach = reach_words(alloc, found.reach)?;
    format!(in alloc; "{} ({reach})", found.mend.words)
}

/// How many lines end in a text.
fn line_count(text: &[u8]) -> usize {
    text.iter().filter(|byte| **byte == b'\n').count()
}

/// The lines of a mended text that are changed, each with its number.
fn changed_lines(alloc: Global, found: &Found) -> Result<String, AllocError> {
    let first = line_count(part(&found.text, 0, found.mend.begin));
    let count = line_count(&found.mend.text)
        .saturating_add(1)
        .min(MOST_LINES);
    let mut all = String::new(alloc);
    for (at, line) in found.text.split(|byte| *byte == b'\n').enumerate() {
        if at >= first && at < first.saturating_add(count) {
            let number = at.saturating_add(1);
            let line = String::from_utf8_lossy(alloc, line)?;
            let row = format!(in alloc; "{number} > {}\n", line.trim_end())?;
            all.push_str(row.as_str())?;
        }
    }
    Ok(all)
}

/// Says how a refusal can be mended.
fn say_mend<R: Eprint + AllocGlobal>(rt: &R, step: &Step) -> Result<(), AllocError> {
    let Some(found) = &step.found else {
        return Ok(());
    };
    let words = mend_words(rt.alloc(), found)?;
    let lines = changed_lines(rt.alloc(), found)?;
    let (file, pos) = (&step.refusal.file, step.refusal.pos);
    let _ = eprintln!(rt; "{PROGRAM}: {file}:{}:{}: {words}", pos.line, pos.col);
    let _ = eprint!(rt; "{lines}");
    Ok(())
}

/// Says what is refused next, and how it can be mended.
fn say_next<R: Eprint + AllocGlobal>(
    rt: &R,
    files: &[SourceFile],
    is_coloured: bool,
    step: &Step,
) -> Result<(), AllocError> {
    let words = explanation(rt.alloc(), files, &step.refusal, is_coloured)?;
    let _ = eprintln!(rt; "then {}", step.refusal);
    let _ = eprint!(rt; "{words}");
    say_mend(rt, step)
}

/// Says how a file can be mended, step by step.
fn say_chain<R: Eprint + AllocGlobal>(
    rt: &R,
    files: &[SourceFile],
    is_coloured: bool,
    chain: &Chain,
) -> Result<(), AllocError> {
    for (at, step) in chain.steps.iter().enumerate() {
        if at == 0 {
            say_mend(rt, step)?;
        } else {
            say_next(rt, files, is_coloured, step)?;
        }
    }
    Ok(())
}

/// Says how each file can be mended.
pub fn say_chains<R: Eprint + AllocGlobal>(
    rt: &R,
    files: &[SourceFile],
    is_coloured: bool,
    chains: &[Option<Chain>],
) -> Result<(), AllocError> {
    for chain in chains {
        if let Some(chain) = chain {
            say_chain(rt, files, is_coloured, chain)?;
        }
    }
    Ok(())
}
