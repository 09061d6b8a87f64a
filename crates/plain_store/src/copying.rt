//! Copies of what variables hold.

ghost use Rattle.std.specs.Prelude.{◌≡◌, ◌++◌, ◌-◌, length, IfOk};
ghost use Rattle.plain_store.specs.Contents.{repeat_item};

use crate::held::Held;
use std::alloc::{AllocError, Global};
use tree_parts::{Boxed, Items};

/// The same once more. The only error is that memory ran out.
#[cycle(copy)]
pub fn copy(alloc: Global, held: &Held) -> Result<Held, AllocError>
    ensures { IfOk result (λ h. h ≡ held.now) }
{
    match held {
        Held::Same(v) => Ok(Held::Same(*v)),
        Held::Parts(own, parts, rest) => {
            let parts = copies(alloc, parts.as_slice())?;
            let rest = copy(alloc, rest.get())?;
            Ok(Held::Parts(*own, parts, Boxed::new(alloc, rest)?))
        }
        Held::Array(count, one) => {
            let one = copy(alloc, one.get())?;
            Ok(Held::Array(*count, Boxed::new(alloc, one)?))
        }
    }
}

#[cycle(copy)]
fn copies(alloc: Global, parts: &[Held]) -> Result<Items<Held>, AllocError>
    ensures { IfOk result (λ all. all ≡ parts.now) }
{
    let mut all = Items::new(alloc);
    for part in parts {
        all.push(copy(alloc, part)?)?;
    }
    Ok(all)
}

/// These parts, and this many copies of one more behind them. The only error is that memory ran out.
pub fn fill_parts(
    alloc: Global,
    parts: Items<Held>,
    count: usize,
    one: &Held,
) -> Result<Items<Held>, AllocError>
    ensures { IfOk result (λ all. all ≡ parts ++ repeat_item count one.now) }
{
    let mut all = parts;
    for _ in 0..count {
        all.push(copy(alloc, one)?)?;
    }
    Ok(all)
}
