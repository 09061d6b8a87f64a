//! A program that is ready to run.

ghost use Rattle.std.specs.Prelude.{◌≡◌, ◌+◌, ◌<◌, ◌^◌, false, Ok, IfErr, IfOk, IsOk, MatchResult};
ghost use Rattle.wasm_tree.specs.Linking.{link as linked};
ghost use Rattle.wasm_engine.specs.Instances.{config_of, has_failed, modules_of};
ghost use Rattle.run_directory.specs.Reported.{IsRun};
ghost use Rattle.run_program.specs.Cut.{IsCutBy};

use crate::fault::{ProgramFault, broken_by, hand_on};
use std::alloc::Global;
use wasm_engine::{End, Instances, Sink};
use wasm_valid::ValidModule;

/// The modules of a program, link first. They are valid, and they link.
#[derive(Drop)]
pub struct Program {
    modules: Vec<ValidModule>,
    ghost links: { IsOk (linked modules.items) },
}

impl Program {
    /// The program of these modules, link first.
    pub(crate) fn of_modules(modules: Vec<ValidModule>) -> Program
        requires { IsOk (linked modules.items) }
        ensures { result.modules.items ≡ modules.items }
    {
        Program { modules }
    }

    /// Links the modules. Who calls `run` of what is answered executes the program in slices. The only fault is `NoMemory`
    /// (90).
    pub fn link(&self, alloc: Global) -> Result<Instances<'_>, ProgramFault>
        ensures { MatchResult result
            (λ i. (linked self.now.modules.items ≡ Ok (config_of i))
            × (modules_of i ≡ self.now.modules.items)
            × (has_failed i ≡ false))
            (λ e. e ≡ ProgramFault.NoMemory) }
    {
        hand_on(Instances::link(alloc, &self.modules))
    }

    /// Executes the program from its begin for this many reductions, or up to its end if that comes first, and hands each
    /// printed byte to the sink. `Write` (91) comes if the sink failed, and `NoMemory` (90) if memory was refused.
    pub fn run<S: Sink>(&self, alloc: Global, steps: u64, sink: &mut S) -> Result<End, ProgramFault>
        requires { S.failed sink.old + 1 < 2 ^ 64 }
        ensures ok { IfOk result (λ end.
            IsRun S.reported S.failed self.now.modules.items steps end sink.old sink.new) }
        ensures err { IfErr result (λ e.
            IsCutBy S.reported S.failed self.now.modules.items steps e sink.old sink.new) }
    {
        match self.link(alloc) {
            Err(fault) => Err(fault),
            Ok(mut instances) => match instances.run(steps, sink) {
                Ok(end) => Ok(end),
                Err(fault) => Err(broken_by(fault)),
            },
        }
    }
}
