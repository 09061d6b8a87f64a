//! Refusals for people.

ghost use Rattle.std.specs.Prelude.{◌≡◌, ◌<◌, ◌^◌, ◌+◌, ℕ, Bool, IsOk, length, take};
ghost use Rattle.std.specs.List.{flat_map};
ghost use Rattle.run_directory.specs.Reported.{Says};
ghost use Rattle.m2_tree.specs.Lines.{line_of};

use crate::explaining::explanation;
use build_jobs::SourceFile;
use m2_tree::Refusal;
use run_directory::{Sink, say_all};
use std::alloc::{AllocError, Global};

/// Prints each refusal in a line on `out`, as the compiler does, and below it on `err` its rule in a sentence, the line of
/// source and a mark under the token, and what to write if the profile leaves out the word. With `colour` the mark is red.
///
/// The files are those that were compiled; a refusal of none of them has no line of source. Each stream is left alone after
/// its first failure, and nothing is printed after the first failure of `out`. The error is want of memory: then the lines
/// of the first refusals are printed.
pub fn show<O: Sink, E: Sink>(
    alloc: Global,
    files: &[SourceFile],
    refusals: &[Refusal],
    colour: bool,
    out: &mut O,
    err: &mut E,
) -> Result<(), AllocError>
    requires out { O.failed out.old + 1 < 2 ^ 64 }
    requires err { E.failed err.old + 1 < 2 ^ 64 }
    // The lines of the first refusals are printed in order, and the lines of all unless memory ran out.
    ensures { (count : ℕ) × (all : Bool)
        × (IsOk result → count ≡ length refusals.now)
        × Says O.reported O.failed all (flat_map line_of (take count refusals.now)) out.old
        out.new }
{
    let failures = err.failures();
    for refusal in refusals {
        let line = refusal.to_string(alloc)?;
        if !say_all(out, &[line.as_str(), "\n"]) {
            return Ok(());
        }
        if err.failures() == failures {
            let words = explanation(alloc, files, refusal, colour)?;
            say_all(err, &[words.as_str()]);
        }
    }
    Ok(())
}
