//! The list of the types of functions that are marked, and their numbers.

ghost use Rattle.std.specs.Prelude.{◌≡◌, ◌+◌, ◌++◌, IfOk, OnOk};
ghost use Rattle.emit_tables.specs.Tables.{enter_signature, number_behind, table_of};

use crate::marks::Mark;
use crate::signature::{Numbers, Signature};
use std::alloc::{AllocError, Global};
use tree_parts::Items;

/// The number of the first type that a module lists for itself.
const FIRST_NUMBER: usize = 6;

/// Types of functions in order, and their numbers by how many arguments they have.
#[derive(Drop)]
pub struct Table {
    pub list: Items<Signature>,
    pub numbers: Items<Numbers>,
}

/// Enters a type if it is wanted, and answers its number.
fn enter_signature(
    list: &mut Items<Signature>,
    wanted: bool,
    arguments: usize,
    has_result: bool,
) -> Result<usize, AllocError>
    ensures number { IfOk result (λ n. n ≡ number_behind wanted list.old) }
    ensures list { OnOk result
        (list.new ≡ list.old ++ enter_signature wanted arguments has_result) }
{
    if !wanted {
        return Ok(FIRST_NUMBER);
    }
    let number = list.as_slice().len() + FIRST_NUMBER;
    list.push(Signature {
        arguments,
        has_result,
    })?;
    Ok(number)
}

/// The types that are marked. The only error is that memory ran out.
pub fn table_of(alloc: Global, marks: &[Mark]) -> Result<Table, AllocError>
    ensures { IfOk result (λ t. t ≡ table_of marks.now) }
{
    let mut table = Table {
        list: Items::new(alloc),
        numbers: Items::new(alloc),
    };
    for mark in marks {
        let arguments = table.numbers.len();
        let wanted = mark.without && arguments != 0;
        let without = enter_signature(&mut table.list, wanted, arguments, false)?;
        let giving = enter_signature(&mut table.list, mark.giving, arguments, true)?;
        table.numbers.push(Numbers { without, giving })?;
    }
    Ok(table)
}
