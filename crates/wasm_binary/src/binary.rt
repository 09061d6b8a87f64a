//! Values with a binary format, and lists of them.

ghost use Rattle.std.specs.Prelude.{◌≡◌, ◌≢◌, ◌<◌, ◌≤◌, ◌^◌, IfOk, length, Err, ◌++◌, List, ℕ, OnOk, true, false};
ghost use Rattle.wasm_tree.specs.Format.{Format, Gives};
ghost use Rattle.wasm_code.specs.Number.{unsigned};
ghost use Rattle.wasm_code.specs.Parts.{many, vector, entries, section};

mod body;
mod kinds;
mod sections;

pub use body::body_over;
use std::alloc::Global;
use tree_parts::Items;
use wasm_code::{Writer, close_part, front, unsigned_at};
use wasm_tree::{EncodeError, WFault};

/// The most entries of a list.
pub const MAX_ENTRIES: usize = 4294967295;

/// A value that is read from the front of bytes, and written.
pub trait Binary: Drop {
    ghost format: { Format Self };

    fn read(alloc: Global, bytes: &[u8]) -> Result<(Self, &[u8]), WFault>
        requires { length bytes.now < 2 ^ 32 }
        ensures gives { Gives (λ x. (x.0, x.1.now)) result (format.reading bytes.now) }
        ensures shorter { IfOk result (λ x. length x.1.now ≤ length bytes.now) };

    /// Appends the encoding. The only error is that memory ran out, or that the value has no encoding.
    fn write(&self, out: &mut Writer) -> Result<(), EncodeError>
        ensures written { OnOk result (out.new ≡ out.old ++ format.encoding self.now) }
        ensures fits { OnOk result (format.fits self.now ≡ true) }
        ensures unfit { result ≡ Err EncodeError.NoEncoding → format.fits self.now ≡ false };
}

impl Binary for u32 {
    ghost format = { unsigned };

    fn read(_alloc: Global, bytes: &[u8]) -> Result<(u32, &[u8]), WFault>
        ensures gives { Gives (λ x. (x.0, x.1.now)) result (unsigned.reading bytes.now) }
        ensures memory { result ≢ Err WFault.NoMemory }
        ensures shorter { IfOk result (λ x. length x.1.now ≤ length bytes.now) }
    {
        unsigned_at(bytes)
    }

    fn write(&self, out: &mut Writer) -> Result<(), EncodeError> {
        out.unsigned(u64::from(*self))?;
        Ok(())
    }
}

/// `count` values, one after another.
pub fn many<T: Binary>(alloc: Global, count: u32, bytes: &[u8]) -> Result<(Items<T>, &[u8]), WFault>
    requires { length bytes.now < 2 ^ 32 }
    ensures gives { Gives (λ x. (x.0, x.1.now)) result (many T.format count bytes.now) }
    ensures shorter { IfOk result (λ x. length x.1.now ≤ length bytes.now) }
{
    let mut items = Items::new(alloc);
    let mut rest = bytes;
    for _ in 0..count {
        let (item, after) = T::read(alloc, rest)?;
        items.push(item)?;
        rest = after;
    }
    Ok((items, rest))
}

/// How many there are, and then each.
pub fn vector<T: Binary>(alloc: Global, bytes: &[u8]) -> Result<(Items<T>, &[u8]), WFault>
    requires { length bytes.now < 2 ^ 32 }
    ensures gives { Gives (λ x. (x.0, x.1.now)) result ((vector T.format).reading bytes.now) }
    ensures shorter { IfOk result (λ x. length x.1.now ≤ length bytes.now) }
{
    let (count, rest) = unsigned_at(bytes)?;
    many(alloc, count, rest)
}

/// The same, of at least one.
fn entries<T: Binary>(alloc: Global, bytes: &[u8]) -> Result<(Items<T>, &[u8]), WFault>
    requires { length bytes.now < 2 ^ 32 }
    ensures gives { Gives (λ x. (x.0, x.1.now)) result ((entries T.format).reading bytes.now) }
    ensures shorter { IfOk result (λ x. length x.1.now ≤ length bytes.now) }
{
    let (count, rest) = unsigned_at(bytes)?;
    if count == 0 {
        return Err(WFault::Malformed);
    }
    many(alloc, count, rest)
}

/// The section of this number, or nothing if another one or the end stands.
pub fn section<T: Binary>(
    alloc: Global,
    number: u8,
    bytes: &[u8],
) -> Result<(Items<T>, &[u8]), WFault>
    ensures { Gives (λ x. (x.0, x.1.now)) result ((section number T.format).reading bytes.now) }
{
    match bytes {
        [first, rest @ ..] if *first == number => {
            let (size, rest) = unsigned_at(rest)?;
            let (items, left) = entries(alloc, front(rest, size))?;
            let rest = close_part(size, rest, left)?;
            Ok((items, rest))
        }
        _ => Ok((Items::new(alloc), bytes)),
    }
}

/// Appends how many there are, and then each. The only error is that memory ran out, or that one of them has no encoding,
/// or that they are too many.
pub fn write_vector<T: Binary>(out: &mut Writer, items: &[T]) -> Result<(), EncodeError>
    ensures written { OnOk result (out.new ≡ out.old ++ (vector T.format).encoding items.now) }
    ensures fits { OnOk result ((vector T.format).fits items.now ≡ true) }
    ensures unfit { result ≡ Err EncodeError.NoEncoding → (vector T.format).fits items.now ≡ false }
{
    if items.len() > MAX_ENTRIES {
        return Err(EncodeError::NoEncoding);
    }
    out.unsigned(items.len() as u64)?;
    for item in items {
        item.write(out)?;
    }
    Ok(())
}

/// Appends the section of this number, or nothing if it has no entry. The only error is that memory ran out, or that
/// the section has no encoding.
pub fn write_section<T: Binary>(
    out: &mut Writer,
    number: u8,
    items: &[T],
) -> Result<(), EncodeError>
    ensures written { OnOk result
        (out.new ≡ out.old ++ (section number T.format).encoding items.now) }
    ensures fits { OnOk result ((section number T.format).fits items.now ≡ true) }
    ensures unfit { result ≡ Err EncodeError.NoEncoding
        → (section number T.format).fits items.now ≡ false }
{
    if items.is_empty() {
        return Ok(());
    }
    let mut content = out.inner();
    write_vector(&mut content, items)?;
    out.byte(number)?;
    out.part(content.as_slice())
}
