//! What a compilation says.

ghost use Rattle.std.specs.Prelude.{◌≡◌, ◌<◌, ◌^◌, ◌+◌, Bool};
ghost use Rattle.std.specs.List.{flat_map};
ghost use Rattle.run_directory.specs.Reported.{Says};
ghost use Rattle.m2c.specs.Endings.{status, words, range_words, fault_words, unread_words, save_words};
ghost use Rattle.m2_tree.specs.Lines.{line_of};

use crate::ending::Ending;
use crate::files::BuildFault;
use build_jobs::{MAX_PAGES, MAX_WORKERS, Options};
use itoa::Buffer;
use m2_tree::Refusal;
use run_directory::{InDir, Sink, say_all};
use write_directory::SaveFault;

/// The status if all modules were saved.
const BUILT: u8 = 0;

/// The status of a program that was refused.
const REFUSED: u8 = 1;

/// The status of options that nothing can have.
const WRONG: u8 = 2;

/// The status if a file, memory or a stream failed.
const FAILED: u8 = 3;

/// Prints a refusal in a line. False if the stream failed.
fn print_refusal<S: Sink>(out: &mut S, refusal: &Refusal) -> bool
    requires { S.failed out.old + 1 < 2 ^ 64 }
    ensures { Says S.reported S.failed result (line_of refusal.now) out.old out.new }
{
    let mut line = Buffer::new();
    let mut column = Buffer::new();
    let mut number = Buffer::new();
    let line = line.format(refusal.pos.line);
    let column = column.format(refusal.pos.col);
    let number = number.format(refusal.number);
    say_all(
        out,
        &[
            refusal.file.as_str(),
            ":",
            line,
            ":",
            column,
            ": refusal ",
            number,
            "\n",
        ],
    )
}

/// Prints refusals, each in a line, up to the first failure of the stream. False if it failed.
pub fn print_refusals<S: Sink>(out: &mut S, refusals: &[Refusal]) -> bool
    requires { S.failed out.old + 1 < 2 ^ 64 }
    ensures { Says S.reported S.failed result (flat_map line_of refusals.now) out.old out.new }
{
    for refusal in refusals {
        if !print_refusal(out, refusal) {
            return false;
        }
    }
    true
}

/// The status that stands for an ending.
fn status(ending: Ending<'_>) -> u8
    ensures { result ≡ status ending.entry }
{
    match ending {
        Ending::Unbuilt(BuildFault::Workers) | Ending::Unbuilt(BuildFault::Pages) => WRONG,
        Ending::Unbuilt(BuildFault::NoMemory) => FAILED,
        Ending::Unread(_) => FAILED,
        Ending::Refused(all) => { if all { REFUSED } else { FAILED } }
        Ending::Saved(Ok(())) => BUILT,
        Ending::Saved(Err(_)) => FAILED,
    }
}

/// Says in a line which numbers an option takes, and which it was given. False if the stream failed.
fn say_range<E: Sink>(err: &mut E, front: &str, option: &str, most: u64, given: u64) -> bool
    requires { E.failed err.old + 1 < 2 ^ 64 }
    ensures { Says E.reported E.failed result (range_words front.now option.now most given) err.old
        err.new }
{
    let mut upper = Buffer::new();
    let mut number = Buffer::new();
    let upper = upper.format(most);
    let number = number.format(given);
    say_all(
        err,
        &[
            front,
            option,
            " takes a number from 1 to ",
            upper,
            ", and not '",
            number,
            "'\n",
        ],
    )
}

/// Says in a line why nothing was built. False if the stream failed.
fn say_fault<E: Sink>(err: &mut E, front: &str, options: Options, fault: BuildFault) -> bool
    requires { E.failed err.old + 1 < 2 ^ 64 }
    ensures { Says E.reported E.failed result (fault_words front.now options fault) err.old
        err.new }
{
    match fault {
        BuildFault::Workers => {
            say_range(
                err,
                front,
                "--workers",
                MAX_WORKERS as u64,
                options.workers as u64,
            )
        }
        BuildFault::Pages => {
            say_range(
                err,
                front,
                "--memory",
                u64::from(MAX_PAGES),
                u64::from(options.pages),
            )
        }
        BuildFault::NoMemory => say_all(err, &[front, "refusal 90\n"]),
    }
}

/// Says in a line that the file of this name cannot be read. False if the stream failed.
fn say_unread<I: InDir, E: Sink>(err: &mut E, files: &I, name: &str) -> bool
    requires { E.failed err.old + 1 < 2 ^ 64 }
    ensures { Says E.reported E.failed result
        (unread_words (I.in_front files.now) (I.behind files.now) name.now) err.old err.new }
{
    say_all(
        err,
        &[files.front(), "cannot read ", name, files.reason(), "\n"],
    )
}

/// Says in a line why modules were not saved. False if the stream failed.
fn say_save_fault<E: Sink>(err: &mut E, front: &str, fault: SaveFault) -> bool
    requires { E.failed err.old + 1 < 2 ^ 64 }
    ensures { Says E.reported E.failed result (save_words front.now fault) err.old err.new }
{
    match fault {
        SaveFault::NoMemory => say_all(err, &[front, "refusal 90\n"]),
        SaveFault::Device => say_all(err, &[front, "cannot write into the directory\n"]),
    }
}

/// Says an ending in a line, or says nothing if the program was saved or its refusals were printed. False if the stream
/// failed.
fn say_ending<I: InDir, E: Sink>(
    err: &mut E,
    files: &I,
    options: Options,
    ending: Ending<'_>,
) -> bool
    requires { E.failed err.old + 1 < 2 ^ 64 }
    ensures { Says E.reported E.failed result
        (words (I.in_front files.now) (I.behind files.now) options ending.entry) err.old err.new }
{
    match ending {
        Ending::Unbuilt(fault) => say_fault(err, files.front(), options, fault),
        Ending::Unread(name) => say_unread(err, files, name),
        Ending::Refused(true) => true,
        Ending::Refused(false) => {
            say_all(err, &[files.front(), "cannot write to standard output\n"])
        }
        Ending::Saved(Ok(())) => true,
        Ending::Saved(Err(fault)) => say_save_fault(err, files.front(), fault),
    }
}

/// Says an ending on a stream, and answers its status.
pub fn write_ending<I: InDir, E: Sink>(
    err: &mut E,
    files: &I,
    options: Options,
    ending: Ending<'_>,
) -> u8
    requires { E.failed err.old + 1 < 2 ^ 64 }
    ensures status { result ≡ status ending.entry }
    ensures says { (all : Bool) × Says E.reported E.failed all
        (words (I.in_front files.now) (I.behind files.now) options ending.entry) err.old err.new }
{
    say_ending(err, files, options, ending);
    status(ending)
}
