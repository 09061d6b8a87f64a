//! Program texts to what the program prints.

ghost use Rattle.std.specs.Prelude.{◌+◌, ◌<◌, ◌^◌, ℕ, List, IfErr, IfOk, MatchResult};
ghost use Rattle.build_jobs.specs.declared.file.SourceFile.{SourceFile};
ghost use Rattle.m2c.specs.Compiles.{AreFine};
ghost use Rattle.run_program.specs.Faults.{ComesWith, IsOfRun};
ghost use Rattle.run_program.specs.Loading.{IsLoaded};
ghost use Rattle.run_program.specs.Whole.{Ends, Breaks};

use crate::fault::ProgramFault;
use crate::loading::{Loaded, load_program};
use m2_tree::Refusal;
use m2c::{Options, SourceFile};
use pool_board::Gate;
use std::alloc::Global;
use std::thread::Threads;
use wasm_engine::{End, Sink};

/// What became of program texts.
#[derive(Drop)]
pub enum ProgramEnd {
    /// The rules that they break, in order of the files' names. Nothing was executed.
    Refused(Vec<Refusal>),
    /// They are a program, and its run is there.
    Ran(End),
}

/// Executes a program that is ready.
fn end_of<S: Sink>(
    alloc: Global,
    loaded: Loaded,
    steps: u64,
    sink: &mut S,
) -> Result<ProgramEnd, ProgramFault>
    requires { S.failed sink.old + 1 < 2 ^ 64 }
    ensures ends { (sources : List SourceFile) (pages : ℕ) → IsLoaded sources pages loaded
        → IfOk result
        (λ end. Ends S.reported S.failed sources pages steps end sink.old sink.new) }
    ensures breaks { (sources : List SourceFile) (pages : ℕ) → IsLoaded sources pages loaded
        → IfErr result
        (λ e. Breaks S.reported S.failed sources pages steps e sink.old sink.new) }
    ensures faults { IfErr result IsOfRun }
{
    match loaded {
        Loaded::Refused(refusals) => Ok(ProgramEnd::Refused(refusals)),
        Loaded::Ready(program) => match program.run(alloc, steps, sink) {
            Ok(end) => Ok(ProgramEnd::Ran(end)),
            Err(fault) => Err(fault),
        },
    }
}

/// Compiles the texts of a program in memory, as `build` does, and executes it with this project's engine for this many
/// reductions, or up to its end if that comes first. It writes no file. Each byte that the program prints goes to the sink.
///
/// What the sink takes is a beginning of what the program prints by the language's definition, whatever is answered. If the
/// program's run ends, this run ends after enough reductions, with the same number and the same bytes. If this run has
/// ended, the program's run ends so, and it never traps. A program that is refused prints nothing, and it is refused
/// exactly as `build` refuses it.
///
/// `Workers` (70) comes if the number of workers is not from 1 to 64, else `Pages` (73) if the number of pages is not from
/// 1 to 1024. `Write` (91) comes if the sink failed, and `NoMemory` (90) if a request for memory was refused. There is no
/// other fault: modules that were built are read, are valid and link.
pub fn run_program<R: Threads + Sync, G: Gate, S: Sink>(
    rt: &R,
    alloc: Global,
    files: &[SourceFile],
    options: Options,
    gate: &G,
    steps: u64,
    sink: &mut S,
) -> Result<ProgramEnd, ProgramFault>
    requires { S.failed sink.old + 1 < 2 ^ 64 }
    ensures options { MatchResult result (λ _. AreFine options) (λ e. ComesWith e options) }
    ensures ends { IfOk result (λ end.
        Ends S.reported S.failed files.now options.pages steps end sink.old sink.new) }
    ensures breaks { IfErr result (λ e.
        Breaks S.reported S.failed files.now options.pages steps e sink.old sink.new) }
{
    match load_program(rt, alloc, files, options, gate) {
        Err(fault) => Err(fault),
        Ok(loaded) => end_of(alloc, loaded, steps, sink),
    }
}
