//! The lines of a program on which something can run.

use explain_runs::{Counted, FunctionCount, Spot, Tally};
use indexmap::IndexMap;
use std::alloc::{AllocError, Global};

/// Nothing ran.
pub const NONE: Tally = Tally {
    times: 0,
    reductions: 0,
};

/// A line of a file with what ran on it.
#[derive(Clone, Copy)]
pub struct Line {
    /// The number of the file among those of the program.
    pub file: usize,
    pub line: u32,
    /// The byte at which its first statement begins.
    pub offset: usize,
    pub tally: Tally,
}

/// A line of a file as one number, in the order of files and lines.
fn key_of(file: usize, line: u32) -> u64 {
    (file as u64)
        .saturating_mul(1 << 32)
        .saturating_add(u64::from(line))
}

/// What ran on a line, with what ran at a place of it. It ran as often as the statement or the condition on it that began most often.
fn joined(tally: Tally, spot: &Spot) -> Tally {
    Tally {
        times: if spot.is_begun {
            tally.times.max(spot.tally.times)
        } else {
            tally.times
        },
        reductions: tally.reductions.saturating_add(spot.tally.reductions),
    }
}

/// Adds what ran at a place.
fn add_spot(lines: &mut IndexMap<u64, Line>, spot: &Spot) -> Result<(), AllocError> {
    let key = key_of(spot.file, spot.line);
    let unrun = Line {
        file: spot.file,
        line: spot.line,
        offset: spot.offset,
        tally: NONE,
    };
    let line = lines.get(&key).map_or(unrun, |it| *it);
    let tally = joined(line.tally, spot);
    lines.insert(key, Line { tally, ..line })?;
    Ok(())
}

/// The lines on which something can run, by their files and numbers.
pub fn lines_of(alloc: Global, counted: &Counted) -> Result<Vec<Line>, AllocError> {
    let mut lines = IndexMap::new(alloc);
    for spot in &counted.spots {
        add_spot(&mut lines, spot)?;
    }
    let mut all = Vec::new(alloc);
    for line in lines.values() {
        all.push(*line)?;
    }
    all.sort_unstable_by_key(|line| key_of(line.file, line.line));
    Ok(all)
}

/// A function with all that it took without what it called.
#[derive(Clone, Copy)]
pub struct Procedure<'a> {
    pub of: &'a FunctionCount,
    pub tally: Tally,
}

/// The functions in their order.
pub fn procedures_of<'a>(
    alloc: Global,
    counted: &'a Counted,
) -> Result<Vec<Procedure<'a>>, AllocError> {
    let mut all: Vec<Procedure<'a>> = Vec::new(alloc);
    for of in &counted.functions {
        let tally = of.begin;
        all.push(Procedure { of, tally })?;
    }
    for spot in &counted.spots {
        if let Some(procedure) = all.get_mut(spot.function) {
            let sum = procedure.tally.reductions;
            procedure.tally.reductions = sum.saturating_add(spot.tally.reductions);
        }
    }
    Ok(all)
}
