//! Parts of a module whose number of bytes stands before them.

ghost use Rattle.std.specs.Prelude.{◌≡◌, ◌≢◌, ◌≤◌, take, Err, IfOk, length};
ghost use Rattle.wasm_tree.specs.Format.{Gives, skip, byte_at};
ghost use Rattle.wasm_code.specs.Parts.{close_part};

use wasm_tree::WFault;

/// The first bytes, `size` or as many as there are.
pub fn front(bytes: &[u8], size: u32) -> &[u8]
    ensures front { result.now ≡ take size bytes.now }
    ensures short { length result.now ≤ size }
    ensures shorter { length result.now ≤ length bytes.now }
{
    let size = size as usize;
    if size < bytes.len() {
        &bytes[..size]
    } else {
        bytes
    }
}

/// The bytes behind a part of `size` bytes, of which these are left. `Malformed` if some are, or some are missing.
pub fn close_part<'a>(size: u32, bytes: &'a [u8], left: &[u8]) -> Result<&'a [u8], WFault>
    ensures gives { Gives (λ x. x.now) result (close_part size bytes.now left.now) }
    ensures memory { result ≢ Err WFault.NoMemory }
    ensures shorter { IfOk result (λ x. length x.now ≤ length bytes.now) }
{
    let size = size as usize;
    if left.is_empty() && size <= bytes.len() {
        Ok(&bytes[size..])
    } else {
        Err(WFault::Malformed)
    }
}

/// The bytes behind this one. `Malformed` if another one or the end stands.
pub fn skip(byte: u8, bytes: &[u8]) -> Result<&[u8], WFault>
    ensures gives { Gives (λ x. (tt, x.now)) result (skip byte bytes.now) }
    ensures memory { result ≢ Err WFault.NoMemory }
    ensures shorter { IfOk result (λ x. length x.now ≤ length bytes.now) }
{
    match bytes {
        [first, rest @ ..] if *first == byte => Ok(rest),
        _ => Err(WFault::Malformed),
    }
}

/// The first byte and those behind it. `Malformed` at the end.
pub fn byte_at(bytes: &[u8]) -> Result<(u8, &[u8]), WFault>
    ensures gives { Gives (λ x. (x.0, x.1.now)) result (byte_at bytes.now) }
    ensures memory { result ≢ Err WFault.NoMemory }
    ensures shorter { IfOk result (λ x. length x.1.now ≤ length bytes.now) }
{
    match bytes {
        [first, rest @ ..] => Ok((*first, rest)),
        [] => Err(WFault::Malformed),
    }
}
