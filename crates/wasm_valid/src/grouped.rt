//! The locals that a function declares, in groups of one type (Core 1.0, section 5.5.13).

ghost use Rattle.std.specs.Prelude.{◌≡◌, OnOk, slice_get};
ghost use Rattle.std.specs.Option.{option_map};
ghost use Rattle.wasm_tree.specs.Validity.{local_types};
ghost use Rattle.wasm_valid.specs.Ends.{ends_from};

use std::alloc::AllocError;
use tree_parts::at;
use wasm_tree::{Locals, ValueType};

/// Declared locals. The local of an index is found without a walk over the groups.
#[derive(Clone, Copy)]
pub struct Groups<'a> {
    pub groups: &'a [Locals],
    /// How many locals there are up to the end of each group.
    pub ends: &'a [u128],
    ghost counted: { ends.now ≡ ends_from 0 groups.now },
}

/// Puts into the list how many locals there are up to the end of each group. The only error is that memory ran out.
pub fn count_ends(ends: &mut Vec<u128>, groups: &[Locals]) -> Result<(), AllocError>
    ensures { OnOk result (ends.new.items ≡ ends_from 0 groups.now) }
{
    ends.clear();
    let mut end: u128 = 0;
    for group in groups {
        end += u128::from(group.count);
        ends.push(end)?;
    }
    Ok(())
}

/// The number of the group that a declared local stands in.
fn group_of(locals: Groups<'_>, index: usize) -> usize
    ensures { option_map (λ g. g.value_type) (slice_get locals.entry.groups.now result)
        ≡ slice_get (local_types locals.entry.groups.now) index }
{
    let index = index as u128;
    locals.ends.partition_point(|end| *end <= index)
}

/// The type of a declared local.
pub fn in_groups(locals: Groups<'_>, index: usize) -> Option<ValueType>
    ensures { result ≡ slice_get (local_types locals.entry.groups.now) index }
{
    match at(locals.groups, group_of(locals, index)) {
        None => None,
        Some(group) => Some(group.value_type),
    }
}
