//! The tables that a body is checked with.

ghost use Rattle.std.specs.Prelude.{◌≡◌, IfOk};
ghost use Rattle.std.specs.Option.{option_copied};
ghost use Rattle.build_jobs.specs.Own.{own_table, tables_behind};

use m2_tree::Module;
use std::alloc::{AllocError, Global};
use tree_parts::{Items, Shared};
use typed_tree::Table;

/// The table of a body's own definition, which is the first that it needs.
pub fn own_table<'a>(tree: &Module, tables: &'a [Shared<Table>]) -> Option<&'a Table>
    ensures { option_copied result ≡ own_table tree.now tables.now }
{
    match tables {
        [] => None,
        [first, ..] => {
            if first.get().name.as_bytes() == tree.name.name.as_bytes() {
                Some(first.get())
            } else {
                None
            }
        }
    }
}

/// The same tables once more.
fn share_tables(alloc: Global, tables: &[Shared<Table>]) -> Result<Items<Shared<Table>>, AllocError>
    ensures { IfOk result (λ all. all ≡ tables.now) }
{
    let mut all = Items::new(alloc);
    for table in tables {
        all.push(table.share()?)?;
    }
    Ok(all)
}

/// The tables of a body's imports, which stand behind the table of its own definition.
pub fn tables_behind(
    alloc: Global,
    own: Option<&Table>,
    tables: &[Shared<Table>],
) -> Result<Items<Shared<Table>>, AllocError>
    ensures { IfOk result
        (λ behind. behind ≡ tables_behind (option_copied own.entry) tables.now) }
{
    match (own, tables) {
        (None, _) => share_tables(alloc, tables),
        (Some(_), []) => Ok(Items::new(alloc)),
        (Some(_), [_, behind @ ..]) => share_tables(alloc, behind),
    }
}
