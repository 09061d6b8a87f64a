//! What comes of a case.

ghost use Rattle.std.specs.Prelude.{◌≡◌, ◌↔◌, IsTrue};

use crate::excerpt::Mismatch;
use m2c::BuildFault;
use program_input::InputFault;
use run_directory::end_word;
use std::alloc::{AllocError, Global};
use wasm_core::WFault;
use wasm_engine::RunFault;

/// What comes of a case.
#[derive(Drop)]
pub enum Verdict {
    /// The program printed what it is to print, and ended as it is to end.
    Passed,
    /// It ended as it is to end, and printed something else.
    Differs(Mismatch),
    /// It ended otherwise.
    Ended(u8),
    /// It had not ended after the most reductions.
    StillRunning,
    /// It printed more than the most bytes.
    PrintedTooMuch(usize),
    /// Rules are broken: so many are reported.
    Refused(usize),
    /// There is no module for the input.
    NoInput(InputFault),
    /// The file of the program cannot be read.
    NoProgram,
    /// The program was not built.
    Unbuilt(BuildFault),
    /// What was built was not linked. It is for want of memory: all else is valid and links.
    Unlinked(WFault),
    /// Its run was broken off.
    BrokenOff(RunFault),
    /// It trapped, which no program of this compiler does.
    Trapped,
    /// A request for memory was refused.
    NoMemory,
}

impl From<AllocError> for Verdict {
    ghost use Rattle.std.specs.Prelude.{◌≡◌};
    ghost use Rattle.judge_cases.specs.declared.verdict.Verdict.TheVariants.{NoMemory};

    ghost from_gives = { λ _ v. v ≡ NoMemory };

    fn from(_: AllocError) -> Verdict {
        Verdict::NoMemory
    }
}

/// A verdict, and how many reductions the run took.
#[derive(Drop)]
pub struct Judgement {
    pub verdict: Verdict,
    /// How many reductions were made to the end of the run, or in all if it had not ended. None if it was not begun,
    /// was broken off, or trapped.
    pub steps: Option<u64>,
}

impl Judgement {
    /// A verdict on a program that was not run to an end.
    pub fn without_run(verdict: Verdict) -> Judgement {
        Judgement {
            verdict,
            steps: None,
        }
    }

    /// Whether the case was passed.
    pub fn is_passed(&self) -> bool
        ensures { IsTrue result ↔ (self.now.verdict ≡ Verdict.Passed) }
    {
        matches!(&self.verdict, Verdict::Passed)
    }

    /// Where the output differs, if this is what is wrong.
    pub fn mismatch(&self) -> Option<&Mismatch> {
        match &self.verdict {
            Verdict::Differs(mismatch) => Some(mismatch),
            _ => None,
        }
    }
}

/// How a program ended, in words.
fn end_words(alloc: Global, number: u8) -> Result<String, AllocError> {
    match number {
        0 => String::from_str(alloc, "it ended by itself"),
        9 => String::from_str(alloc, "it ended by HALT"),
        _ => {
            let word = end_word(number);
            format!(in alloc; "fault {number}: {word}")
        }
    }
}

/// Why a program was not run to its end, in words.
fn fault_words(alloc: Global, verdict: &Verdict) -> Result<String, AllocError> {
    match verdict {
        Verdict::PrintedTooMuch(bytes) => format!(in alloc; "it printed more than {bytes} bytes"),
        Verdict::Refused(1) => String::from_str(alloc, "it is refused: 1 rule is broken"),
        Verdict::Refused(count) => format!(in alloc; "it is refused: {count} rules are broken"),
        Verdict::NoInput(fault) => format!(in alloc; "its input has no module: {fault}"),
        Verdict::NoProgram => String::from_str(
            alloc,
            "there is no program: its file cannot be read",
        ),
        Verdict::Unbuilt(fault) => format!(in alloc; "it was not built: {fault}"),
        Verdict::Unlinked(fault) => format!(in alloc; "it was not linked: {fault}"),
        Verdict::BrokenOff(fault) => format!(in alloc; "its run was broken off: {fault}"),
        Verdict::NoMemory => String::from_str(alloc, "no memory left (90)"),
        Verdict::Trapped => String::from_str(alloc, "trap"),
        _ => String::from_str(alloc, "passed"),
    }
}

/// A verdict in words, on one line, without the reductions.
fn verdict_words(alloc: Global, verdict: &Verdict) -> Result<String, AllocError> {
    match verdict {
        Verdict::Differs(mismatch) => {
            let (line, column) = (mismatch.at.line, mismatch.at.column);
            format!(in alloc; "the output differs at line {line}, column {column}")
        }
        Verdict::Ended(number) => end_words(alloc, *number),
        Verdict::StillRunning => String::from_str(alloc, "it had not ended"),
        _ => fault_words(alloc, verdict),
    }
}

/// A judgement in words, on one line.
pub fn words_of(alloc: Global, judgement: &Judgement) -> Result<String, AllocError> {
    let words = verdict_words(alloc, &judgement.verdict)?;
    match (&judgement.verdict, judgement.steps) {
        (Verdict::Passed, Some(steps)) => format!(in alloc; "{steps} reductions"),
        (Verdict::StillRunning, Some(steps)) => format!(in alloc;
            "{words} after {steps} reductions"
        ),
        (_, Some(steps)) => format!(in alloc; "{words}, after {steps} reductions"),
        (_, None) => Ok(words),
    }
}
