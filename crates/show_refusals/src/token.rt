//! How long a token is.

ghost use Rattle.std.specs.Prelude.{◌≤◌, length};

use scan_tokens::pair_of;

/// The bytes up to the quote that ends a string, or all if none does.
fn string_length(rest: &[u8], quote: u8) -> usize
    ensures { result ≤ length rest.now }
{
    match rest.iter().position(|byte| *byte == quote) {
        Some(last) => last + 1,
        None => rest.len(),
    }
}

/// How many letters and digits stand in front.
fn word_length(rest: &[u8]) -> usize
    ensures { result ≤ length rest.now }
{
    rest.iter()
        .take_while(|byte| byte.is_ascii_alphanumeric())
        .count()
}

/// The bytes of the token in front of a line's rest: a word or number, a string, or a sign of one byte or two. 0 if nothing
/// is left.
pub fn token_length(rest: &[u8]) -> usize
    ensures { result ≤ length rest.now }
{
    match rest {
        [] => 0,
        [quote @ (b'"' | b'\''), others @ ..] => string_length(others, *quote) + 1,
        [first, ..] if first.is_ascii_alphanumeric() => word_length(rest),
        [first, second, ..] if pair_of(*first, *second).is_some() => 2,
        [_, ..] => 1,
    }
}
