//! How bytes of source are shown.

ghost use Rattle.std.specs.Prelude.{◌≡◌, ◌<◌, ◌++◌, IfOk, OnOk, replicate, string_bytes};
ghost use Rattle.show_refusals.specs.Layout.{is_printable, put, show_source};

use std::alloc::{AllocError, Global};
use std::fmt::Write;

/// A tab goes on to the next multiple of this column.
const TAB_WIDTH: usize = 8;

/// Writes an ASCII sign several times.
pub fn push_times(text: &mut String, sign: char, count: usize) -> Result<(), AllocError>
    requires { sign < 128 }
    ensures { OnOk result (string_bytes text.new ≡ string_bytes text.old ++ replicate count sign) }
{
    for _ in 0..count {
        text.push(sign)?;
    }
    Ok(())
}

/// Whether a byte is shown as it is.
fn is_printable(byte: u8) -> bool
    ensures { result ≡ is_printable byte }
{
    byte >= b' ' && byte <= b'~'
}

/// Writes a byte of source behind a text: a tab as blanks, a printable byte as it is, and any other as `\xNN`.
fn push_cell(text: &mut String, byte: u8) -> Result<(), AllocError>
    ensures { OnOk result (string_bytes text.new ≡ put (string_bytes text.old) byte) }
{
    if byte == b'\t' {
        return push_times(text, ' ', TAB_WIDTH - text.len() % TAB_WIDTH);
    }
    if is_printable(byte) {
        return text.push(byte as char);
    }
    write!(text, "\\x{byte:02X}")
}

/// Bytes of source as they are shown behind a text.
#[tactic(auto, using(crate::proofs::Cells::shown_more))]
pub fn show_bytes(alloc: Global, front: &str, bytes: &[u8]) -> Result<String, AllocError>
    ensures { IfOk result (λ text. string_bytes text ≡ show_source front.now bytes.now) }
{
    let mut text = String::from_str(alloc, front)?;
    for byte in bytes {
        push_cell(&mut text, *byte)?;
    }
    Ok(text)
}
