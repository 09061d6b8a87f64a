//! Files to modules.

ghost use Rattle.std.specs.Prelude.{◌≡◌, ◌<◌, ◌≤◌, ◌⊎◌, ◌↔◌, IfOk, IsErrOf};
ghost use Rattle.pool_board.specs.Seats.{max_workers};
ghost use Rattle.def_scheme.specs.Modules.{max_pages};
ghost use Rattle.m2c.specs.Build.{AreAlike, IsBuilt};

use crate::outcome::{Trees, outcome_of};
use build_jobs::{MAX_PAGES, MAX_WORKERS, Options, Runner, SourceFile};
use m2_tree::Refusal;
use pool_board::Gate;
use std::alloc::{AllocError, Global};
use std::thread::Threads;
use thiserror::Error;

/// What a build comes to.
#[derive(Debug, Drop)]
pub enum Outcome {
    /// The rules that the files break, in order of their names.
    Refused(Vec<Refusal>),
    /// The module link, and the other modules under their names, in the order in which they start.
    Built {
        link: Vec<u8>,
        modules: Vec<(String, Vec<u8>)>,
    },
}

/// Why a build was not made.
#[derive(Clone, Copy, Debug, PartialEq, Eq, Error)]
pub enum BuildFault {
    /// 70: the number of workers is not from 1 to 64.
    #[error("refusal 70")]
    Workers,
    /// 73: the number of pages is not from 1 to 1024.
    #[error("refusal 73")]
    Pages,
    /// 90: a request for memory was refused.
    #[error("refusal 90")]
    NoMemory,
}

impl BuildFault {
    ghost use Rattle.m2c.specs.FaultNumber.{number_of};

    /// The number by which the fault is reported.
    pub fn number(self) -> u32
        ensures { result ≡ number_of self }
    {
        match self {
            BuildFault::Workers => 70,
            BuildFault::Pages => 73,
            BuildFault::NoMemory => 90,
        }
    }
}

impl From<AllocError> for BuildFault {
    ghost use Rattle.m2c.specs.declared.files.BuildFault.TheVariants.{NoMemory};

    ghost from_gives = { λ _ e. e ≡ NoMemory };

    fn from(_: AllocError) -> BuildFault {
        BuildFault::NoMemory
    }
}

/// Compiles files, and does with the trees of the texts as it is told.
fn build_with<R: Threads + Sync, G: Gate>(
    rt: &R,
    alloc: Global,
    files: &[SourceFile],
    options: Options,
    gate: &G,
    trees: Trees,
) -> Result<Outcome, BuildFault>
    ensures workers { IsErrOf result BuildFault.Workers
        ↔ ((options.workers < 1) ⊎ (max_workers < options.workers)) }
    ensures pages { (1 ≤ options.workers) × (options.workers ≤ max_workers)
        → IsErrOf result BuildFault.Pages ↔ ((options.pages < 1) ⊎ (max_pages < options.pages)) }
    ensures built { IfOk result (IsBuilt files.now options.pages) }
{
    if options.workers < 1 || options.workers > MAX_WORKERS {
        return Err(BuildFault::Workers);
    }
    if options.pages < 1 || options.pages > MAX_PAGES {
        return Err(BuildFault::Pages);
    }
    let runner = Runner {
        rt,
        alloc,
        workers: options.workers,
        gate,
    };
    let outcome = outcome_of(&runner, files, options.pages, trees)?;
    Ok(outcome)
}

/// Compiles files. What is refused is reported in order of the files' names by their bytes, files of equal names as they
/// are given:
///
/// - the rule of tokens (1 to 7) or of the grammar (10 to 13) that a text breaks first, with its place;
/// - if no text breaks one, the rules of imports (20 to 25) that files break, one for each of these files (see
///   `m2_graph::Graph::of`);
/// - if there is none of these either, the least rule that each module breaks (24, 30 to 38, 40 to 53), or 60 if its
///   variables and strings, or a frame, are too large, but nothing for a module that needs another of which something is
///   reported;
/// - if there is none of these either, 61 at the begin of the program module's file if the variables and strings of
///   all modules that are reached, and 4096 bytes, need more pages than the options allow.
///
/// A program of which nothing is reported is compiled to the module link and, in start order, the modules that are reached
/// from the program module. They are valid, they link, and they do what the program does: they print the same bytes and
/// end with the same number, and they go on where it goes on. Nothing that its run asks for is missing.
///
/// The work goes in two rounds of jobs over as many threads as the options say: a job for each file, in the order in
/// which they are given, and then the jobs of the graph. The gate lets workers in to the jobs of both. What is answered
/// does not depend on how many workers there are, on whom the gate lets in, or on who comes first.
///
/// `Workers` (70) if the number of workers is not from 1 to 64, else `Pages` (73) if the number of pages is not from 1
/// to 1024; both come before memory is asked for. Else the only error is that memory ran out (`NoMemory`, 90).
pub fn build<R: Threads + Sync, G: Gate>(
    rt: &R,
    alloc: Global,
    files: &[SourceFile],
    options: Options,
    gate: &G,
) -> Result<Outcome, BuildFault>
    ensures workers { IsErrOf result BuildFault.Workers
        ↔ ((options.workers < 1) ⊎ (max_workers < options.workers)) }
    ensures pages { (1 ≤ options.workers) × (options.workers ≤ max_workers)
        → IsErrOf result BuildFault.Pages ↔ ((options.pages < 1) ⊎ (max_pages < options.pages)) }
    // The outcome that the files have; the modules do what the program does.
    ensures built { IfOk result (IsBuilt files.now options.pages) }
    // The files have one outcome, so workers, gates and schedules have no part in it.
    ensures one { IfOk result
        (λ o. (other : Outcome) → IsBuilt files.now options.pages other → AreAlike o other) }
{
    build_with(rt, alloc, files, options, gate, Trees::Dropped)
}

/// Compiles files as `build` does, for a program that builds once and ends: the trees of the texts are not dropped, and their
/// memory goes with the program.
pub fn build_once<R: Threads + Sync, G: Gate>(
    rt: &R,
    alloc: Global,
    files: &[SourceFile],
    options: Options,
    gate: &G,
) -> Result<Outcome, BuildFault>
    ensures workers { IsErrOf result BuildFault.Workers
        ↔ ((options.workers < 1) ⊎ (max_workers < options.workers)) }
    ensures pages { (1 ≤ options.workers) × (options.workers ≤ max_workers)
        → IsErrOf result BuildFault.Pages ↔ ((options.pages < 1) ⊎ (max_pages < options.pages)) }
    // An outcome that the files have is their only one (`outcome_laws`).
    ensures built { IfOk result (IsBuilt files.now options.pages) }
{
    build_with(rt, alloc, files, options, gate, Trees::Left)
}
