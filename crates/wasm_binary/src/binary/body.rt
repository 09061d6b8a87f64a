//! Function bodies in bytes (Core 1.0, section 5.5.13).

ghost use Rattle.std.specs.Prelude.{◌≡◌, ◌++◌, ◌+◌, ◌<◌, ◌≤◌, ◌^◌, ◌≢◌, IfOk, OnOk, Err, true, false, length};
ghost use Rattle.wasm_tree.specs.Format.{Format, Gives};
ghost use Rattle.wasm_binary.specs.Binary.{local_count, locals, locals_at, locals_encoding, body};

use crate::binary::{Binary, MAX_ENTRIES};
use std::alloc::Global;
use tree_parts::Items;
use wasm_code::{Writer, close_part, code_over, front, unsigned_at, write_code};
use wasm_tree::{Body, EncodeError, Locals, Op, ValueType, WFault};

/// The most locals of a body.
const MAX_LOCALS: u64 = 4294967295;

/// `count` groups of locals, with no locals before them.
fn groups_at(alloc: Global, count: u32, bytes: &[u8]) -> Result<(Items<Locals>, &[u8]), WFault>
    ensures gives { Gives (λ x. (x.0, x.1.now)) result (locals_at count 0 bytes.now) }
    ensures shorter { IfOk result (λ x. length x.1.now ≤ length bytes.now) }
{
    let mut groups = Items::new(alloc);
    let mut before = 0u32;
    let mut rest = bytes;
    for _ in 0..count {
        let (number, after) = unsigned_at(rest)?;
        let Some(total) = before.checked_add(number) else {
            return Err(WFault::Malformed);
        };
        let (value_type, after) = ValueType::read(alloc, after)?;
        groups.push(Locals {
            count: number,
            value_type,
        })?;
        before = total;
        rest = after;
    }
    Ok((groups, rest))
}

#[tactic(auto, unfolding(crate::specs::Binary::locals))]
fn locals_at(alloc: Global, bytes: &[u8]) -> Result<(Items<Locals>, &[u8]), WFault>
    ensures gives { Gives (λ x. (x.0, x.1.now)) result (locals.reading bytes.now) }
    ensures shorter { IfOk result (λ x. length x.1.now ≤ length bytes.now) }
{
    let (count, rest) = unsigned_at(bytes)?;
    groups_at(alloc, count, rest)
}

/// Appends the groups, one after another.
#[tactic(auto, unfolding(crate::specs::Binary::locals))]
fn write_groups(out: &mut Writer, groups: &[Locals]) -> Result<(), EncodeError>
    ensures written { OnOk result (out.new ≡ out.old ++ locals.encoding groups.now) }
    ensures always { result ≢ Err EncodeError.NoEncoding }
{
    out.unsigned(groups.len() as u64)?;
    for group in groups {
        out.unsigned(u64::from(group.count))?;
        group.value_type.write(out)?;
    }
    Ok(())
}

/// How many locals there are.
fn local_count(groups: &[Locals]) -> u64
    requires { length groups.now < 2 ^ 32 }
    ensures { result ≡ local_count groups.now }
{
    let mut total = 0u64;
    for group in groups {
        total += u64::from(group.count);
    }
    total
}

/// Appends the groups of locals. The only error is that memory ran out, or that the locals are too many.
#[tactic(auto, unfolding(crate::specs::Binary::locals))]
fn write_locals(out: &mut Writer, groups: &[Locals]) -> Result<(), EncodeError>
    ensures written { OnOk result (out.new ≡ out.old ++ locals.encoding groups.now) }
    ensures fits { OnOk result (locals.fits groups.now ≡ true) }
    ensures unfit { result ≡ Err EncodeError.NoEncoding → locals.fits groups.now ≡ false }
{
    if groups.len() > MAX_ENTRIES || local_count(groups) > MAX_LOCALS {
        return Err(EncodeError::NoEncoding);
    }
    write_groups(out, groups)
}

/// A body, read over a scratch that may be used again.
#[tactic(auto, unfolding(crate::specs::Binary::body))]
pub fn body_over<'a>(
    alloc: Global,
    scratch: &mut Vec<Op>,
    bytes: &'a [u8],
) -> Result<(Body, &'a [u8]), WFault>
    ensures gives { Gives (λ x. (x.0, x.1.now)) result (body.reading bytes.now) }
    ensures shorter { IfOk result (λ x. length x.1.now ≤ length bytes.now) }
{
    let (size, after) = unsigned_at(bytes)?;
    let (locals, rest) = locals_at(alloc, front(after, size))?;
    let (code, left) = code_over(alloc, scratch, rest)?;
    let rest = close_part(size, after, left)?;
    Ok((Body { locals, code }, rest))
}

#[tactic(auto, unfolding(crate::specs::Binary::body))]
impl Binary for Body {
    ghost format = { body };

    fn read(alloc: Global, bytes: &[u8]) -> Result<(Body, &[u8]), WFault> {
        let mut scratch = Vec::new(alloc);
        body_over(alloc, &mut scratch, bytes)
    }

    fn write(&self, out: &mut Writer) -> Result<(), EncodeError> {
        let mut content = out.inner();
        write_locals(&mut content, self.locals.as_slice())?;
        write_code(&mut content, self.code.ops())?;
        out.part(content.as_slice())
    }
}
