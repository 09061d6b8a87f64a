//! What is reported of a report.

ghost use Rattle.std.specs.Prelude.{◌≡◌, ◌<◌, ◌^◌, ◌+◌, ◌++◌, Bool, codes};
ghost use Rattle.std.specs.List.{flat_map};
ghost use Rattle.run_directory.specs.Reported.{status, end_word, number_of, number_of_run, unread_words, words, is_normal, Says};

use crate::dir::InDir;
use crate::report::Report;
use itoa::Buffer;
use wasm_engine::{End, RunFault, Sink};
use wasm_tree::WFault;

/// Hands bytes to a stream, up to its first failure.
fn say<E: Sink>(err: &mut E, bytes: &[u8]) -> bool
    requires { E.failed err.old + 1 < 2 ^ 64 }
    ensures { Says E.reported E.failed result bytes.now err.old err.new }
{
    for byte in bytes {
        if !err.take(*byte) {
            return false;
        }
    }
    true
}

/// Hands several texts to a stream, up to its first failure. False if it failed.
pub fn say_all<E: Sink>(err: &mut E, texts: &[&str]) -> bool
    requires { E.failed err.old + 1 < 2 ^ 64 }
    ensures { Says E.reported E.failed result (flat_map (λ t. t.now) texts.now) err.old err.new }
{
    for text in texts {
        if !say(err, text.as_bytes()) {
            return false;
        }
    }
    true
}

/// Whether a program ended by itself or by HALT.
fn is_normal(number: u8) -> bool
    ensures { result ≡ is_normal number }
{
    number == 0 || number == 9
}

/// The status that stands for a report.
fn status(report: Report<'_>) -> u8
    ensures { result ≡ status report.entry }
{
    match report {
        Report::Ran(End::Done(number)) => { if is_normal(number) { 0 } else { 1 } }
        Report::Ran(End::Trap) => 1,
        Report::Ran(End::StillRunning) => 4,
        Report::Unread(_) | Report::Refused(_, _) | Report::Broken(_) => 3,
    }
}

/// The word for the end of a run with this number: the word of a fault from 1 to 8, and `unknown` for any other number.
pub fn end_word(number: u8) -> &'static str
    ensures { result.now ≡ end_word number }
{
    match number {
        1 => "range",
        2 => "overflow",
        3 => "index",
        4 => "divisor",
        5 => "case",
        6 => "no return",
        7 => "empty procedure",
        8 => "storage",
        _ => "unknown",
    }
}

fn number_of(fault: WFault) -> u8
    ensures { result ≡ number_of fault }
{
    match fault {
        WFault::Malformed => 80,
        WFault::OutsideProfile => 81,
        WFault::Invalid => 82,
        WFault::Unlinked => 83,
        WFault::SegmentOutside => 84,
        WFault::NoMemory => 90,
    }
}

fn number_of_run(fault: RunFault) -> u8
    ensures { result ≡ number_of_run fault }
{
    match fault {
        RunFault::NoMemory => 90,
        RunFault::Write => 91,
        RunFault::Ended => 92,
    }
}

/// Says in a line that the file of the module of this name cannot be read. False if the stream failed.
fn say_unread<D: InDir, E: Sink>(err: &mut E, dir: &D, name: &str) -> bool
    requires { E.failed err.old + 1 < 2 ^ 64 }
    ensures { Says E.reported E.failed result
        (unread_words (D.in_front dir.now) (D.behind dir.now) name.now) err.old err.new }
{
    say_all(
        err,
        &[
            dir.front(),
            "cannot read ",
            name,
            ".wasm",
            dir.reason(),
            "\n",
        ],
    )
}

/// Writes a report on this directory in one line, or says nothing if the run ended by itself or goes on. False if the
/// stream failed.
fn say_report<D: InDir, E: Sink>(err: &mut E, dir: &D, report: Report<'_>) -> bool
    requires { E.failed err.old + 1 < 2 ^ 64 }
    ensures { Says E.reported E.failed result
        (words (D.in_front dir.now) (D.behind dir.now) report.entry) err.old err.new }
{
    let mut digits = Buffer::new();
    match report {
        Report::Ran(End::Done(number)) => {
            if is_normal(number) {
                true
            } else {
                let shown = digits.format(number);
                say_all(err, &["fault ", shown, ": ", end_word(number), "\n"])
            }
        }
        Report::Ran(End::Trap) => say(err, b"trap\n"),
        Report::Ran(End::StillRunning) => true,
        Report::Unread(name) => say_unread(err, dir, name),
        Report::Refused(name, fault) => {
            let shown = digits.format(number_of(fault));
            say_all(err, &[name, ": refusal ", shown, "\n"])
        }
        Report::Broken(fault) => {
            let shown = digits.format(number_of_run(fault));
            say_all(err, &["refusal ", shown, "\n"])
        }
    }
}

/// Writes a report on this directory on a stream, and answers its status.
pub fn write_report<D: InDir, E: Sink>(err: &mut E, dir: &D, report: Report<'_>) -> u8
    requires { E.failed err.old + 1 < 2 ^ 64 }
    ensures status { result ≡ status report.entry }
    ensures says { (all : Bool) × Says E.reported E.failed all
        (words (D.in_front dir.now) (D.behind dir.now) report.entry) err.old err.new }
{
    say_report(err, dir, report);
    status(report)
}
