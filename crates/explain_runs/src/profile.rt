//! How often each statement ran, how many reductions it took, and by which calls the run came there.

use crate::functions::Function;
use crate::paths::{CallCount, Path, Paths};
use crate::place::Names;
use crate::watching::{Marked, marked_program, watch_each};
use anyhow::Result;
use m2c::{Options, SourceFile};
use mark_statements::MarkKind;
use std::alloc::{AllocError, Global};
use std::thread::Threads;
use watch_code::Activation;

/// How often something ran, and how many reductions it took without what it called.
#[derive(Clone, Copy)]
pub struct Tally {
    pub times: u64,
    pub reductions: u64,
}

/// Nothing ran yet.
pub const NONE: Tally = Tally {
    times: 0,
    reductions: 0,
};

/// The tallies of a function: of its begin, and of its marks.
#[derive(Drop)]
struct FunctionTallies {
    begin: Tally,
    marks: Vec<Tally>,
}

/// The tallies of all functions.
#[derive(Drop)]
pub struct Tallies {
    all: Vec<FunctionTallies>,
    paths: Paths,
}

fn tallies_of(alloc: Global, function: &Function) -> Result<FunctionTallies, AllocError> {
    let mut marks = Vec::new(alloc);
    for _ in &function.marks {
        marks.push(NONE)?;
    }
    Ok(FunctionTallies { begin: NONE, marks })
}

impl Tallies {
    /// No function ran yet.
    pub fn new(alloc: Global, functions: &[Function]) -> Result<Tallies, AllocError> {
        let mut all = Vec::new(alloc);
        for function in functions {
            all.push(tallies_of(alloc, function)?)?;
        }
        Ok(Tallies {
            all,
            paths: Paths::new(alloc),
        })
    }

    /// The tally of a place.
    fn at(&mut self, place: Activation) -> Option<&mut Tally> {
        let function = self.all.get_mut(place.function as usize)?;
        match place.mark {
            Some(mark) => function.marks.get_mut(mark),
            None => Some(&mut function.begin),
        }
    }

    /// A place is come to.
    pub fn count(&mut self, place: Activation) {
        if let Some(tally) = self.at(place) {
            tally.times = tally.times.saturating_add(1);
        }
    }

    /// So many reductions are made at a place, and so many of them are of signals.
    pub fn take(&mut self, place: Activation, made: u64, signals: u64) {
        self.paths.take(made, signals);
        if let Some(tally) = self.at(place) {
            let sum = tally.reductions.saturating_add(made);
            tally.reductions = sum.saturating_sub(signals);
        }
    }

    /// So many functions ran in front of a reduction. These run behind it.
    pub fn follow(&mut self, before: usize, now: &[Activation]) -> Result<(), AllocError> {
        match now {
            [others @ .., entered] if now.len() > before => {
                self.paths
                    .enter(others.last().map(|it| *it), entered.function)
            }
            _ => {
                self.paths.leave(before.saturating_sub(now.len()));
                Ok(())
            }
        }
    }
}

/// A function with what ran of it.
#[derive(Drop)]
pub struct FunctionCount {
    /// `Module.Procedure`, or the body of a module.
    pub name: String,
    /// The number of its file among those of the program, and the line of its name.
    pub file: usize,
    pub line: u32,
    /// How often it was called, and what it took in front of its first statement.
    pub begin: Tally,
}

/// A place at which something can run.
#[derive(Clone, Copy)]
pub struct Spot {
    /// The number of its function.
    pub function: usize,
    pub file: usize,
    pub line: u32,
    /// The byte of the text at which it begins.
    pub offset: usize,
    pub tally: Tally,
    /// Whether a statement or a condition begins there, and not a further turn of a loop.
    pub is_begun: bool,
}

/// What ran of a program.
pub struct Counted {
    /// The functions, in the order in which the modules have them.
    pub functions: Vec<FunctionCount>,
    /// The places of each function, in this order.
    pub spots: Vec<Spot>,
    /// By which calls the run came to its functions. Callers stand in front of what they called.
    pub paths: Vec<Path>,
    /// The calls by their places.
    pub calls: Vec<CallCount>,
}

// Written by hand, so that proofs above take a drop as one call.
impl Drop for Counted {
    fn drop(self) {
        let Counted {
            functions,
            spots,
            paths,
            calls,
        } = self;
        drop(functions);
        drop(spots);
        drop(paths);
        drop(calls);
    }
}

/// The functions of a program with their tallies.
fn function_counts(
    alloc: Global,
    names: Names<'_>,
    tallies: &Tallies,
) -> Result<Vec<FunctionCount>, AllocError> {
    let mut all = Vec::new(alloc);
    for (number, (function, tallies)) in names.functions.iter().zip(&tallies.all).enumerate() {
        let place = names.place_of(Activation {
            function: u32::try_from(number).unwrap_or(u32::MAX),
            mark: None,
        });
        let name = match place {
            Some(place) => place.function(alloc)?,
            None => String::new(alloc),
        };
        all.push(FunctionCount {
            name,
            file: function.file,
            line: function.pos.line,
            begin: tallies.begin,
        })?;
    }
    Ok(all)
}

/// Adds the places of the function of this number.
fn put_spots(
    spots: &mut Vec<Spot>,
    number: usize,
    function: &Function,
    tallies: &FunctionTallies,
) -> Result<(), AllocError> {
    for (mark, tally) in function.marks.iter().zip(&tallies.marks) {
        spots.push(Spot {
            function: number,
            file: function.file,
            line: mark.pos.line,
            offset: mark.offset,
            tally: *tally,
            is_begun: mark.kind != MarkKind::Turn,
        })?;
    }
    Ok(())
}

fn counted_of(
    alloc: Global,
    files: &[SourceFile],
    program: &Marked,
    tallies: Tallies,
) -> Result<Counted, AllocError> {
    let functions = program.functions.all.as_slice();
    let names = Names {
        files,
        modules: &program.modules,
        functions,
    };
    let mut spots = Vec::new(alloc);
    for (number, (function, own)) in functions.iter().zip(&tallies.all).enumerate() {
        put_spots(&mut spots, number, function, own)?;
    }
    let functions = function_counts(alloc, names, &tallies)?;
    let Tallies { all: _, paths } = tallies;
    let (paths, calls) = paths.finish();
    Ok(Counted {
        functions,
        spots,
        paths,
        calls,
    })
}

/// What ran of the program of these files in a run of at most so many reductions. The run is made once more, reduction by
/// reduction. Nothing if the program cannot be built with its marks.
///
/// An error if memory ran out.
pub fn profile_run<R>(
    rt: &R,
    files: &[SourceFile],
    options: Options,
    steps: u64,
) -> Result<Option<Counted>>
where
    R: AllocGlobal + Threads + Sync,
{
    let alloc = rt.alloc();
    let Some(program) = marked_program(rt, files, options)? else {
        return Ok(None);
    };
    let mut tallies = Tallies::new(alloc, &program.functions.all)?;
    if !watch_each(alloc, &program, steps, &mut tallies)? {
        return Ok(None);
    }
    Ok(Some(counted_of(alloc, files, &program, tallies)?))
}
