//! The words of a command line, as the programs read them.
#![tactic(auto)]

mod exit;
mod options;

ghost use Rattle.command_words.specs.Words.{number_of};
ghost use Rattle.std.specs.Option.{IfSome};
ghost use Rattle.std.specs.Prelude.{◌≡◌, ◌≤◌};
ghost use Rattle.std.specs.Char.{is_ascii_digit};
ghost use Rattle.std.specs.List.{list_all};

pub use exit::Exit;
pub use options::{
    are_named, is_named, matches_of, number_option, steps_of, steps_option, strings_of,
};
use std::env::FillError;
use std::rt::Env;
use std::{env, str};

/// The version of all programs.
pub const VERSION: &str = "0.1.0";

/// The status of a command line that asks for nothing that can be done.
pub const COMMAND_LINE: u8 = 2;

/// The status if a file, memory or a stream failed.
pub const FAILED: u8 = 3;

/// The most bytes of a word that is searched for what is no text.
const LONGEST_WORD: usize = 4096;

/// Whether there are decimal digits alone.
fn are_digits(text: &[u8]) -> bool
    ensures { result ≡ list_all is_ascii_digit text.now }
{
    text.iter().all(|b| b.is_ascii_digit())
}

/// A number of decimal digits alone, from 1 to a bound. Nothing for any other text.
pub fn number(text: &str, most: u64) -> Option<u64>
    ensures exact { result ≡ number_of text.now most }
    ensures most { IfSome result (λ n. n ≤ most) }
{
    if !are_digits(text.as_bytes()) {
        return None;
    }
    match text.parse::<u64>() {
        Err(_) => None,
        Ok(number) => {
            if 1 <= number && number <= most {
                Some(number)
            } else {
                None
            }
        }
    }
}

/// Where the first word stands that is no UTF-8 text. A word longer than 4096 bytes is passed over.
fn first_that_is_no_text<R: Env + AllocGlobal>(rt: &R) -> Option<usize> {
    let mut bytes = vec![in rt.alloc(); 0; LONGEST_WORD].ok()?;
    for at in 0..usize::MAX {
        match rt.arg(at, &mut bytes) {
            Ok(count) => {
                if str::from_utf8(&bytes[..count]).is_err() {
                    return Some(at);
                }
            }
            Err(FillError::TooLong) => {}
            Err(FillError::NotPresent) => return None,
        }
    }
    None
}

/// The words of the command line of this program, of which the first is its name. A word that is no UTF-8 text is reported
/// on standard error, by its place; the name stands at place 0. Nothing else is reported but that memory ran out.
pub fn command_line<R: Env + Eprint + AllocGlobal>(
    rt: &R,
    program: &str,
) -> Result<Vec<String>, Exit> {
    match env::args(rt) {
        Ok(words) => Ok(words.collect(rt.alloc())?),
        Err(error) => match first_that_is_no_text(rt) {
            None => Err(error.into()),
            Some(at) => {
                let _ = eprintln!(rt; "{program}: word {at} of the command line is not UTF-8");
                Err(Exit::Reported(COMMAND_LINE))
            }
        },
    }
}
