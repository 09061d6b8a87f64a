//! Bytes, spelled by characters that a string can hold.

ghost use Rattle.std.specs.Prelude.{◌≡◌, ◌++◌, IfOk};
ghost use Rattle.input_module.specs.Spelling.{is_plain, spelling, spelled};

use std::alloc::AllocError;

/// The first of the four characters that begin a pair.
const FIRST_PAIR: u8 = b'{';

/// How many bytes the pairs of one first character stand for.
const PAIR_STEP: u8 = 64;

/// The least second character of a pair.
const LEAST_SECOND: u8 = b'0';

/// Whether a byte is spelled by itself: it is none that strings cannot hold, not their quote, and begins no pair.
fn is_plain(byte: u8) -> bool
    ensures { result ≡ is_plain byte }
{
    b' ' <= byte && byte < FIRST_PAIR && byte != b'"'
}

/// Appends the characters of a byte.
#[tactic(auto, unfolding(crate::specs::Spelling::spelling))]
fn put_byte(text: &mut Vec<u8>, byte: u8) -> Result<(), AllocError>
    ensures { IfOk result (λ _. text.new.items ≡ text.old.items ++ spelling byte) }
{
    if is_plain(byte) {
        text.push(byte)?;
        return Ok(());
    }
    text.push(FIRST_PAIR + byte / PAIR_STEP)?;
    text.push(LEAST_SECOND + byte % PAIR_STEP)?;
    Ok(())
}

/// Appends the characters of bytes.
pub fn put_bytes(text: &mut Vec<u8>, bytes: &[u8]) -> Result<(), AllocError>
    ensures { IfOk result (λ _. text.new.items ≡ text.old.items ++ spelled bytes.now) }
{
    for byte in bytes {
        put_byte(text, *byte)?;
    }
    Ok(())
}
