//! Program texts to a program that is ready to run.

ghost use Rattle.std.specs.Prelude.{IfOk, MatchResult};
ghost use Rattle.m2c.specs.declared.files.Outcome.{Outcome as Built};
ghost use Rattle.m2c.specs.Build.{AreAlike, IsBuilt};
ghost use Rattle.m2c.specs.Compiles.{AreFine};
ghost use Rattle.run_program.specs.Faults.{IsUnbuilt};
ghost use Rattle.run_program.specs.Loading.{IsLoaded};

use crate::fault::{ProgramFault, hand_on};
use crate::program::Program;
use crate::reading::read_modules;
use m2_tree::Refusal;
use m2c::{Options, Outcome, SourceFile, build};
use pool_board::Gate;
use std::alloc::Global;
use std::thread::Threads;

/// What program texts come to.
#[derive(Drop)]
pub enum Loaded {
    /// The rules that they break, in order of the files' names.
    Refused(Vec<Refusal>),
    /// A program that is ready to run.
    Ready(Program),
}

/// The outcome of a build.
fn build_files<R: Threads + Sync, G: Gate>(
    rt: &R,
    alloc: Global,
    files: &[SourceFile],
    options: Options,
    gate: &G,
) -> Result<Outcome, ProgramFault>
    ensures options { MatchResult result (λ _. AreFine options) (λ e. IsUnbuilt e options) }
    ensures built { IfOk result (λ o. IsBuilt files.now options.pages o) }
    ensures one { IfOk result
        (λ o. (other : Built) → IsBuilt files.now options.pages other → AreAlike o other) }
{
    match build(rt, alloc, files, options, gate) {
        Ok(outcome) => Ok(outcome),
        Err(fault) => Err(ProgramFault::from(fault)),
    }
}

/// Builds a program from its texts, and reads its modules back. It is refused exactly as `build` refuses it.
///
/// `Workers` (70) and `Pages` (73) come as in `build`, and `NoMemory` (90) if a request for memory was refused. Modules that were built are always read, valid and linked.
pub fn load_program<R: Threads + Sync, G: Gate>(
    rt: &R,
    alloc: Global,
    files: &[SourceFile],
    options: Options,
    gate: &G,
) -> Result<Loaded, ProgramFault>
    ensures options { MatchResult result (λ _. AreFine options) (λ e. IsUnbuilt e options) }
    ensures loaded { IfOk result (λ l. IsLoaded files.now options.pages l) }
{
    let outcome = build_files(rt, alloc, files, options, gate)?;
    match outcome {
        Outcome::Refused(refusals) => Ok(Loaded::Refused(refusals)),
        Outcome::Built {
            link,
            modules: others,
        } => {
            let modules = hand_on(read_modules(alloc, &link, &others))?;
            Ok(Loaded::Ready(Program::of_modules(modules)))
        }
    }
}
