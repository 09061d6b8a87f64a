//! Names in bytes (Core 1.0, section 5.2.4).

ghost use Rattle.std.specs.Prelude.{◌≡◌, ◌≤◌, ◌++◌, Err, IfOk, length, IsOk, OnErr, OnOk, true, false};
ghost use Rattle.std.specs.Str.{is_utf8};
ghost use Rattle.wasm_tree.specs.Format.{Gives};
ghost use Rattle.wasm_code.specs.Parts.{name};

use crate::number::unsigned_at;
use crate::parts::{close_part, front};
use crate::writer::Writer;
use std::alloc::Global;
use tree_parts::Items;
use wasm_tree::{EncodeError, WFault};

fn is_utf8(text: &[u8]) -> bool
    ensures { result ≡ is_utf8 text.now }
{
    std::str::from_utf8(text).is_ok()
}

/// A name in UTF-8.
#[tactic(auto, unfolding(crate::specs::Parts::name))]
pub fn name_at(alloc: Global, bytes: &[u8]) -> Result<(Items<u8>, &[u8]), WFault>
    ensures gives { Gives (λ x. (x.0, x.1.now)) result (name.reading bytes.now) }
    // Memory is asked for only if there is a name.
    ensures memory { result ≡ Err WFault.NoMemory → IsOk (name.reading bytes.now) }
    ensures shorter { IfOk result (λ x. length x.1.now ≤ length bytes.now) }
{
    let (size, rest) = unsigned_at(bytes)?;
    let text = front(rest, size);
    let rest = close_part(size, rest, &[])?;
    if !is_utf8(text) {
        return Err(WFault::Malformed);
    }
    Ok((Items::from_slice(alloc, text)?, rest))
}

/// Appends a name, or nothing. The only error is that memory ran out, or that the name has no encoding: it is not UTF-8, or
/// is too long.
#[tactic(auto, unfolding(crate::specs::Parts::name))]
pub fn write_name(out: &mut Writer, text: &[u8]) -> Result<(), EncodeError>
    ensures ok { OnOk result (out.new ≡ out.old ++ name.encoding text.now) }
    ensures err { OnErr result (out.new ≡ out.old) }
    ensures fits { OnOk result (name.fits text.now ≡ true) }
    ensures unfit { result ≡ Err EncodeError.NoEncoding → name.fits text.now ≡ false }
{
    if !is_utf8(text) {
        return Err(EncodeError::NoEncoding);
    }
    out.part(text)
}
