//! What the program `m2c` does behind its command line.

ghost use Rattle.std.specs.Prelude.{◌≡◌, ◌<◌, ◌^◌, ◌+◌, map, List, ℕ};
ghost use Rattle.std.specs.String.{string_bytes};
ghost use Rattle.build_jobs.specs.declared.file.SourceFile.{SourceFile};
ghost use Rattle.m2c.specs.Build.{IsBuilt};
ghost use Rattle.m2c.specs.Compiles.{AreFine, Checks, ComesOf, Comes, Compiles};

use crate::ending::Ending;
use crate::files::{BuildFault, Outcome};
use crate::outcome::{Trees, outcome_of};
use crate::say::{print_refusals, write_ending};
use crate::sources::read_files;
use build_jobs::{MAX_PAGES, MAX_WORKERS, Options, Runner, SourceFile};
use pool_board::Open;
use run_directory::{InDir, Sink};
use std::alloc::Global;
use std::thread::Threads;
use write_directory::{OutDir, save};

/// Whether these options can be had. Else the fault of the number of workers, or else of the number of pages.
fn check_options(options: Options) -> Result<(), BuildFault>
    ensures { Checks options result }
{
    if options.workers < 1 || options.workers > MAX_WORKERS {
        return Err(BuildFault::Workers);
    }
    if options.pages < 1 || options.pages > MAX_PAGES {
        return Err(BuildFault::Pages);
    }
    Ok(())
}

/// Prints the refusals of a build, or saves its modules.
fn end_of_outcome<D: OutDir, S: Sink>(
    alloc: Global,
    outcome: Outcome,
    dir: &mut D,
    out: &mut S,
) -> Ending<'static>
    requires dir { D.failed dir.old + 2 < 2 ^ 64 }
    requires out { S.failed out.old + 1 < 2 ^ 64 }
    ensures { (sources : List SourceFile) (pages : ℕ) → IsBuilt sources pages outcome
        → ComesOf D.calls D.failed S.reported S.failed sources pages result dir.old dir.new
        out.old out.new }
{
    match outcome {
        Outcome::Refused(refusals) => Ending::Refused(print_refusals(out, &refusals)),
        Outcome::Built { link, modules } => Ending::Saved(save(alloc, &link, &modules, dir)),
    }
}

/// Builds files, and prints the refusals or saves the modules. The trees stay.
fn end_of_build<R: Threads + Sync, D: OutDir, S: Sink>(
    rt: &R,
    alloc: Global,
    sources: &[SourceFile],
    options: Options,
    dir: &mut D,
    out: &mut S,
) -> Ending<'static>
    requires fine { AreFine options }
    requires dir { D.failed dir.old + 2 < 2 ^ 64 }
    requires out { S.failed out.old + 1 < 2 ^ 64 }
    ensures { ComesOf D.calls D.failed S.reported S.failed sources.now options.pages result
        dir.old dir.new out.old out.new }
{
    let runner = Runner {
        rt,
        alloc,
        workers: options.workers,
        gate: &Open,
    };
    match outcome_of(&runner, sources, options.pages, Trees::Left) {
        Ok(outcome) => end_of_outcome(alloc, outcome, dir, out),
        Err(refused) => Ending::Unbuilt(BuildFault::from(refused)),
    }
}

/// Checks options, reads files, builds them, and prints the refusals or saves the modules.
fn ending_of<'n, R: Threads + Sync, I: InDir, D: OutDir, S: Sink>(
    rt: &R,
    alloc: Global,
    names: &'n [String],
    options: Options,
    files: &mut I,
    dir: &mut D,
    out: &mut S,
) -> Ending<'n>
    requires dir { D.failed dir.old + 2 < 2 ^ 64 }
    requires out { S.failed out.old + 1 < 2 ^ 64 }
    ensures { Comes D.calls D.failed S.reported S.failed I.reads I.gives
        (map string_bytes names.now) options result files.old files.new dir.old dir.new out.old
        out.new }
{
    if let Err(fault) = check_options(options) {
        return Ending::Unbuilt(fault);
    }
    match read_files(alloc, files, names) {
        Ok(sources) => end_of_build(rt, alloc, &sources, options, dir, out),
        Err(ending) => ending,
    }
}

/// Does what `m2c` does behind its command line: checks the options, reads the files of these names in this order, builds
/// them with a gate that lets every worker in, and prints the refusals on `out`, one a line, or saves the modules into
/// `dir`, which is not touched before.
///
/// The answer is the status: 0 if the modules are saved; 1 if the program is refused; 2 if the options cannot be had (70,
/// 73), and then no file is read; 3 if a file, memory, `dir` or `out` failed. What 2 and 3 mean is
/// said in a line on `err`, behind what `files` says of itself. Each stream is left alone after its first failure; one of
/// `err` changes no status.
///
/// The trees of the texts are not dropped: a program calls this once and ends, and their memory goes with it at once. Who
/// goes on calls `build`.
pub fn compile<R: Threads + Sync, I: InDir, D: OutDir, S: Sink, E: Sink>(
    rt: &R,
    alloc: Global,
    names: &[String],
    options: Options,
    files: &mut I,
    dir: &mut D,
    out: &mut S,
    err: &mut E,
) -> u8
    requires dir { D.failed dir.old + 2 < 2 ^ 64 }
    requires out { S.failed out.old + 1 < 2 ^ 64 }
    requires err { E.failed err.old + 1 < 2 ^ 64 }
    ensures { Compiles D.calls D.failed S.reported S.failed I.reads I.gives I.in_front I.behind
        E.reported E.failed (map string_bytes names.now) options result files.old files.new dir.old
        dir.new out.old out.new err.old err.new }
{
    let ending = ending_of(rt, alloc, names, options, files, dir, out);
    write_ending(err, files, options, ending)
}
