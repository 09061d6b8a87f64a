//! The options and names of a command line.

ghost use Rattle.command_words.specs.Words.{number_of, has_letters};
ghost use Rattle.std.specs.List.{list_all};
ghost use Rattle.std.specs.Option.{IfSome};
ghost use Rattle.std.specs.Prelude.{◌≡◌, ◌≤◌, map, IfOk, string_bytes};

use crate::{COMMAND_LINE, Exit, FAILED, number};
use clap::error::ErrorKind;
use clap::{Arg, ArgMatches, Command, Error};
use std::alloc::{AllocError, Global};

/// The status for words of which nothing can be read: 0 for help and the version, 3 if memory ran out, and 2 for a mistake.
fn status_of(error: &Error) -> u8 {
    match error.kind() {
        ErrorKind::DisplayHelp | ErrorKind::DisplayVersion => 0,
        ErrorKind::OutOfMemory => FAILED,
        _ => COMMAND_LINE,
    }
}

/// What words ask for by this command, the first the program's name. Help and the version go to standard output, and what
/// is wrong with the words, or that memory ran out, to standard error. An error if that could not be written.
pub fn matches_of<'a, R: Print + Eprint>(
    rt: &R,
    command: Command<'a>,
    words: &'a [String],
) -> Result<ArgMatches<'a>, Exit> {
    match command.try_get_matches_from(words) {
        Ok(matches) => Ok(matches),
        Err(error) => {
            error.print(rt)?;
            Err(Exit::Reported(status_of(&error)))
        }
    }
}

/// The number that an option of this program has, from this text. A text that is no number from 1 to the bound is reported on
/// standard error.
pub fn number_option(
    rt: &impl Eprint,
    program: &str,
    option: &str,
    text: &str,
    most: u64,
) -> Option<u64>
    ensures exact { result ≡ number_of text.now most }
    ensures most { IfSome result (λ n. n ≤ most) }
{
    let number = number(text, most);
    if number.is_none() {
        let _ = eprintln!(rt;
            "{program}: --{option} takes a number from 1 to {most}, and not '{text}'"
        );
    }
    number
}

/// Whether a file or a folder is named. A name without a letter, as a variable that is not set gives it, is reported on
/// standard error.
pub fn is_named(rt: &impl Eprint, program: &str, what: &str, name: &str) -> bool
    ensures { result ≡ has_letters name.now }
{
    if name.is_empty() {
        let _ = eprintln!(rt; "{program}: {what} is empty");
        return false;
    }
    true
}

/// Whether each file is named. One without a name is reported on standard error.
pub fn are_named(rt: &impl Eprint, program: &str, what: &str, names: &[&str]) -> bool
    ensures { result ≡ list_all has_letters (map (λ t. t.now) names.now) }
{
    match names {
        [] => true,
        [name, rest @ ..] => {
            is_named(rt, program, what, name) && are_named(rt, program, what, rest)
        }
    }
}

/// The same texts once more. The only error is that memory ran out.
pub fn strings_of(alloc: Global, texts: &[&str]) -> Result<Vec<String>, AllocError>
    ensures { IfOk result (λ v. map string_bytes v.items ≡ map (λ t. t.now) texts.now) }
{
    let mut strings = Vec::new(alloc);
    for text in texts {
        strings.push(String::from_str(alloc, text)?)?;
    }
    Ok(strings)
}

/// The name of the option of the reductions of a run.
const STEPS: &str = "steps";

/// The most reductions that a run may be allowed.
const MOST_STEPS: u64 = 1000000000000;

/// The option `--steps`.
pub fn steps_option<'a>(alloc: Global) -> Arg<'a> {
    Arg::new(alloc, STEPS)
        .long(STEPS)
        .value_name("N")
        .default_value("1000000000")
        .help("The most reductions to make, from 1 to 1000000000000")
}

/// The most reductions that are asked for. A number that they cannot be is reported.
pub fn steps_of<R: Eprint>(rt: &R, program: &str, matches: &ArgMatches) -> Result<u64, Exit> {
    let text = matches.get_str(STEPS).unwrap_or("");
    number_option(rt, program, STEPS, text, MOST_STEPS).ok_or(Exit::Reported(COMMAND_LINE))
}
