//! A buffer that bytes are appended to.

ghost use Rattle.std.specs.Prelude.{◌≡◌, ◌++◌, ◌∷◌, [], ◌+◌, ◌-◌, ◌*◌, ◌/◌, ◌%◌, ◌^◌, ◌<◌, ◌≤◌, length, vec_len, vec_capacity, OnOk, OnErr, Err, IsTrue, ◌↔◌, true, false, nat_lt};
ghost use Rattle.wasm_tree.specs.Format.{Format};
ghost use Rattle.wasm_code.specs.Parts.{bytes_left, with_size};
ghost use Rattle.wasm_code.specs.Number.{unsigned, groups, signed32, signed64, signed_groups, shift_group};

use std::alloc::{AllocError, Global};
use std::marker::Model;
use wasm_tree::EncodeError;

/// The most bytes that a number takes.
const LONGEST: u8 = 10;

/// The most bytes of a part.
const MAX_PART: usize = 4294967295;

/// Bytes of the binary format, in the order in which they are written. Contracts see the list of them. If memory is
/// refused, nothing is appended.
#[derive(Drop)]
pub struct Writer {
    bytes: Vec<u8>,
}

impl Model for Writer {
    ghost use Rattle.std.specs.Prelude.{List, ℕ};

    ghost Value = { List ℕ };

    ghost view = { λ w. w.bytes.items };
}

impl Writer {
    /// Nothing written.
    pub fn new(alloc: Global) -> Writer
        ensures { result ≡ [] }
    {
        Writer {
            bytes: Vec::new(alloc),
        }
    }

    /// Another one, with nothing written, for a part whose length comes before it.
    pub fn inner(&self) -> Writer
        ensures { result ≡ [] }
    {
        Writer::new(*self.bytes.allocator())
    }

    /// How many bytes were written.
    pub fn len(&self) -> usize
        ensures { result ≡ length self.now }
    {
        self.bytes.len()
    }

    /// Whether nothing was written.
    pub fn is_empty(&self) -> bool
        ensures { IsTrue result ↔ (self.now ≡ []) }
    {
        self.bytes.is_empty()
    }

    /// Appends one byte.
    pub fn byte(&mut self, byte: u8) -> Result<(), AllocError>
        ensures ok { OnOk result (self.new ≡ self.old ++ byte ∷ []) }
        ensures err { OnErr result (self.new ≡ self.old) }
    {
        self.bytes.push(byte)?;
        Ok(())
    }

    /// Appends these bytes.
    pub fn bytes(&mut self, bytes: &[u8]) -> Result<(), AllocError>
        ensures ok { OnOk result (self.new ≡ self.old ++ bytes.now) }
        ensures err { OnErr result (self.new ≡ self.old) }
    {
        self.bytes.extend_from_slice(bytes)
    }

    /// Makes room for `count` bytes more, so that they ask for memory once.
    pub(crate) fn reserve(&mut self, count: usize) -> Result<(), AllocError>
        ensures { self.new ≡ self.old }
    {
        self.bytes.reserve(count)
    }

    /// Appends an index, a count or a size (Core 1.0, section 5.2.2).
    pub fn unsigned(&mut self, number: u64) -> Result<(), AllocError>
        ensures ok { OnOk result (self.new ≡ self.old ++ unsigned.encoding number) }
        ensures err { OnErr result (self.new ≡ self.old) }
    {
        self.bytes.reserve(usize::from(LONGEST))?;
        push_groups(&mut self.bytes, LONGEST, number);
        Ok(())
    }

    /// Appends a byte, and behind it an index, a count or a size. Most of these take one byte, too.
    #[tactic(auto, unfolding(crate::specs::Number::groups))]
    pub(crate) fn with_index(&mut self, byte: u8, number: u64) -> Result<(), AllocError>
        ensures ok { OnOk result (self.new ≡ self.old ++ byte ∷ unsigned.encoding number) }
        ensures err { OnErr result (self.new ≡ self.old) }
    {
        self.bytes.reserve(1 + usize::from(LONGEST))?;
        self.bytes.push_reserved(byte);
        if number < 128 {
            self.bytes.push_reserved(number as u8);
            return Ok(());
        }
        push_groups(&mut self.bytes, LONGEST, number);
        Ok(())
    }

    /// Appends a constant of 32 bits, given by its bits, as the signed number that they stand for.
    pub fn signed32(&mut self, bits: u32) -> Result<(), AllocError>
        ensures ok { OnOk result (self.new ≡ self.old ++ signed32.encoding bits) }
        ensures err { OnErr result (self.new ≡ self.old) }
    {
        self.bytes.reserve(usize::from(LONGEST))?;
        push_signed(&mut self.bytes, 5, u64::from(u32::MAX), u64::from(bits));
        Ok(())
    }

    /// Appends a constant of 64 bits, given by its bits, as the signed number that they stand for.
    pub fn signed64(&mut self, bits: u64) -> Result<(), AllocError>
        ensures ok { OnOk result (self.new ≡ self.old ++ signed64.encoding bits) }
        ensures err { OnErr result (self.new ≡ self.old) }
    {
        self.bytes.reserve(usize::from(LONGEST))?;
        push_signed(&mut self.bytes, LONGEST, u64::MAX, bits);
        Ok(())
    }

    /// Appends a part behind the number of its bytes: a section's content, a body or a name. The only error is that memory
    /// ran out, or that the part has no encoding: it has more than `MAX_PART` bytes.
    pub fn part(&mut self, part: &[u8]) -> Result<(), EncodeError>
        ensures ok { OnOk result
            (self.new ≡ self.old ++ (unsigned.encoding (length part.now) ++ part.now)) }
        ensures err { OnErr result (self.new ≡ self.old) }
        ensures fits { OnOk result ((with_size bytes_left).fits part.now ≡ true) }
        ensures unfit { result ≡ Err EncodeError.NoEncoding
            → nat_lt (length part.now) (2 ^ 32) ≡ false }
    {
        if part.len() > MAX_PART {
            return Err(EncodeError::NoEncoding);
        }
        self.bytes.reserve(usize::from(LONGEST) + part.len())?;
        push_groups(&mut self.bytes, LONGEST, part.len() as u64);
        self.bytes.extend_from_slice(part)?;
        Ok(())
    }

    /// What was written.
    pub fn as_slice(&self) -> &[u8]
        ensures { result.now ≡ self.now }
    {
        self.bytes.as_slice()
    }

    /// What was written.
    pub fn into_bytes(self) -> Vec<u8>
        ensures { result.items ≡ self }
    {
        let Writer { bytes } = self;
        bytes
    }
}

/// Appends the groups of a number, for which there is room.
fn push_groups(bytes: &mut Vec<u8>, most: u8, number: u64)
    requires { vec_len bytes.old + most ≤ vec_capacity bytes.old }
    ensures items { bytes.new.items ≡ bytes.old.items ++ groups most number }
    ensures within { vec_len bytes.new ≤ vec_len bytes.old + most }
    ensures capacity { vec_capacity bytes.new ≡ vec_capacity bytes.old }
{
    let mut rest = number;
    for _ in 0..most {
        if rest < 128 {
            bytes.push_reserved(rest as u8);
            return;
        }
        bytes.push_reserved((128 + rest % 128) as u8);
        rest /= 128;
    }
}

/// Appends the groups of a signed number, for which there is room.
fn push_signed(bytes: &mut Vec<u8>, most: u8, top: u64, bits: u64)
    requires room { vec_len bytes.old + most ≤ vec_capacity bytes.old }
    requires wide { top % 256 ≡ 255 }
    requires within { bits ≤ top }
    ensures { bytes.new.items ≡ bytes.old.items ++ signed_groups most top bits }
{
    let mut rest = bits;
    for _ in 0..most {
        if rest < 64 {
            bytes.push_reserved(rest as u8);
            return;
        }
        if top - 64 < rest {
            bytes.push_reserved((127 - (top - rest)) as u8);
            return;
        }
        bytes.push_reserved((128 + rest % 128) as u8);
        rest = shift_group(top, rest);
    }
}

fn shift_group(top: u64, bits: u64) -> u64
    requires { bits ≤ top }
    ensures { result ≡ shift_group top bits }
{
    if bits <= top / 2 {
        bits / 128
    } else {
        bits / 128 + (top - top / 128)
    }
}
