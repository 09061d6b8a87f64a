//! Why a program was not run to where it was asked for.

ghost use Rattle.std.specs.Prelude.{◌≡◌, ◌≢◌, Ok, IfErr, MatchResult};
ghost use Rattle.run_program.specs.Faults.{IsFaultOf};

use m2c::BuildFault;
use thiserror::Error;
use wasm_engine::RunFault;
use wasm_tree::WFault;

/// Why a program was not run, or why its run was broken off.
#[derive(Clone, Copy, Debug, PartialEq, Eq, Error)]
pub enum ProgramFault {
    /// 70: the number of workers is not from 1 to 64.
    #[error("refusal 70")]
    Workers,
    /// 73: the number of pages is not from 1 to 1024.
    #[error("refusal 73")]
    Pages,
    /// 90: a request for memory was refused.
    #[error("refusal 90")]
    NoMemory,
    /// 91: a printed byte was not taken.
    #[error("refusal 91")]
    Write,
}

impl ProgramFault {
    ghost use Rattle.run_program.specs.Faults.{number_of};

    /// The number by which the fault is reported.
    pub fn number(self) -> u32
        ensures { result ≡ number_of self }
    {
        match self {
            ProgramFault::Workers => 70,
            ProgramFault::Pages => 73,
            ProgramFault::NoMemory => 90,
            ProgramFault::Write => 91,
        }
    }
}

impl From<BuildFault> for ProgramFault {
    ghost use Rattle.run_program.specs.Faults.{fault_of};

    ghost from_gives = { λ build fault. fault ≡ fault_of build };

    fn from(fault: BuildFault) -> ProgramFault {
        match fault {
            BuildFault::Workers => ProgramFault::Workers,
            BuildFault::Pages => ProgramFault::Pages,
            BuildFault::NoMemory => ProgramFault::NoMemory,
        }
    }
}

/// Hands on what was asked of modules that were built. It fails for want of memory alone.
pub fn hand_on<T>(answer: Result<T, WFault>) -> Result<T, ProgramFault>
    requires { IfErr answer (λ e. e ≡ WFault.NoMemory) }
    ensures { MatchResult result (λ x. answer ≡ Ok x) (λ e. e ≡ ProgramFault.NoMemory) }
{
    match answer {
        Ok(value) => Ok(value),
        Err(WFault::NoMemory) => Err(ProgramFault::NoMemory),
        Err(
            WFault::Malformed
            | WFault::OutsideProfile
            | WFault::Invalid
            | WFault::Unlinked
            | WFault::SegmentOutside,
        ) => unreachable!(),
    }
}

/// The fault of a run that was broken off in its first call.
pub fn broken_by(fault: RunFault) -> ProgramFault
    requires { fault ≢ RunFault.Ended }
    ensures { IsFaultOf fault result }
{
    match fault {
        RunFault::NoMemory => ProgramFault::NoMemory,
        RunFault::Write => ProgramFault::Write,
        RunFault::Ended => unreachable!(),
    }
}
