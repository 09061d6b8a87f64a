//! The text of the module.

ghost use Rattle.std.specs.Prelude.{◌≡◌, ◌≢◌, ◌<◌, ◌≤◌, ◌*◌, ◌++◌, length, take, drop, decimal, Err, IfOk, IfErr};
ghost use Rattle.input_module.specs.Text.{max_text, always_fits, part_bytes, part, arm, arms, parts_of, front, back, text_of};
ghost use Rattle.input_module.specs.declared.fault.InputFault.TheVariants.{TooLong};

use crate::fault::InputFault;
use crate::spelling::put_bytes;
use itoa::Buffer;
use std::alloc::{AllocError, Global};

/// The greatest number of bytes of a text that compiles.
pub const MAX_TEXT: usize = 1048576;

/// Any input of at most so many bytes has a text that compiles.
pub const ALWAYS_FITS: usize = 500000;

/// How many bytes each part but the last stands for.
const PART_BYTES: usize = 4096;

/// What stands before the number of bytes.
const BEFORE_SIZE: &str =
    "IMPLEMENTATION MODULE InputBytes;\n\nPROCEDURE Size(): CARDINAL;\nBEGIN\n  RETURN ";

/// What stands between the number of bytes and the parts.
const BEHIND_SIZE: &str =
    "\nEND Size;\n\nPROCEDURE Take(number: CARDINAL; VAR part: Part);\nBEGIN\n  CASE number OF\n";

/// What stands behind the parts.
const BACK: &str = "  ELSE part := \"\"\n  END\nEND Take;\n\nEND InputBytes.\n";

/// Appends a number, in decimal digits.
fn put_number(text: &mut Vec<u8>, number: usize) -> Result<(), AllocError>
    ensures { IfOk result (λ _. text.new.items ≡ text.old.items ++ decimal number) }
{
    let mut buffer = Buffer::new();
    text.extend_from_slice(buffer.format(number).as_bytes())
}

/// The front of the text of an input of this size.
fn front_of(alloc: Global, bytes: &[u8]) -> Result<Vec<u8>, AllocError>
    ensures { IfOk result (λ t. t.items ≡ front bytes.now) }
{
    let mut text = Vec::from_slice(alloc, BEFORE_SIZE.as_bytes())?;
    put_number(&mut text, bytes.len())?;
    text.extend_from_slice(BEHIND_SIZE.as_bytes())?;
    Ok(text)
}

/// What stands behind the first bytes.
fn behind(bytes: &[u8], begin: usize) -> &[u8]
    requires { begin ≤ length bytes.now }
    ensures { result.now ≡ drop begin bytes.now }
{
    &bytes[begin..]
}

/// The first bytes, or all if there are no more.
fn first_bytes(bytes: &[u8], most: usize) -> &[u8]
    ensures { result.now ≡ take most bytes.now }
{
    if bytes.len() <= most {
        bytes
    } else {
        &bytes[..most]
    }
}

/// The part of this number, if the input has so many bytes before it.
fn part_of(bytes: &[u8], number: usize) -> &[u8]
    requires { number * part_bytes ≤ length bytes.now }
    ensures { result.now ≡ part bytes.now number }
{
    first_bytes(behind(bytes, number * PART_BYTES), PART_BYTES)
}

/// Appends the arm of a part.
fn put_arm(text: &mut Vec<u8>, bytes: &[u8], number: usize) -> Result<(), AllocError>
    requires { number * part_bytes ≤ length bytes.now }
    ensures { IfOk result (λ _. text.new.items ≡ text.old.items ++ arm bytes.now number) }
{
    text.extend_from_slice(b"  | ")?;
    put_number(text, number)?;
    text.extend_from_slice(b": part := \"")?;
    put_bytes(text, part_of(bytes, number))?;
    text.extend_from_slice(b"\"\n")?;
    Ok(())
}

/// Appends the arms of all parts.
fn put_arms(text: &mut Vec<u8>, bytes: &[u8]) -> Result<(), AllocError>
    ensures { IfOk result (λ _.
        text.new.items ≡ text.old.items ++ arms bytes.now (parts_of bytes.now)) }
{
    for number in 0..bytes.len() / PART_BYTES + 1 {
        put_arm(text, bytes, number)?;
    }
    Ok(())
}

/// The text of an input, however long it is.
#[tactic(auto, unfolding(crate::specs::Text::text_of))]
fn whole_text(alloc: Global, bytes: &[u8]) -> Result<Vec<u8>, AllocError>
    ensures { IfOk result (λ t. t.items ≡ text_of bytes.now) }
{
    let mut text = front_of(alloc, bytes)?;
    put_arms(&mut text, bytes)?;
    text.extend_from_slice(BACK.as_bytes())?;
    Ok(text)
}

/// The text of the module `InputBytes` for an input of these bytes.
///
/// `TooLong` comes if the text would have more than `MAX_TEXT` bytes; it never comes for an input of at most `ALWAYS_FITS`
/// bytes. `NoMemory` comes if a request for memory was refused.
pub fn input_text(alloc: Global, bytes: &[u8]) -> Result<Vec<u8>, InputFault>
    ensures text { IfOk result (λ t. t.items ≡ text_of bytes.now) }
    ensures fits { IfOk result (λ t. length t.items ≤ max_text) }
    ensures too_long { IfErr result (λ e. e ≡ TooLong → max_text < length (text_of bytes.now)) }
    ensures always { length bytes.now ≤ always_fits → result ≢ Err TooLong }
{
    if bytes.len() > MAX_TEXT {
        return Err(InputFault::TooLong);
    }
    let text = whole_text(alloc, bytes)?;
    if text.len() > MAX_TEXT {
        return Err(InputFault::TooLong);
    }
    Ok(text)
}
