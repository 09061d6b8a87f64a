//! Names of modules.

ghost use Rattle.std.specs.Prelude.{◌≡◌, IfOk};
ghost use Rattle.std.specs.Option.{option_copied};
ghost use Rattle.check_scope.specs.Elaborated.{least};
ghost use Rattle.check_const.specs.Denote.{exported_by, exported_meaning};

use check_scope::{Elaborated, Scope, report};
use m2_rule::{Breach, Rule};
use m2_tree::Ident;
use std::alloc::AllocError;
use tree_parts::Shared;
use typed_tree::{Meaning, Table};

fn exported_by<'a>(table: Option<&'a Shared<Table>>, name: &[u8]) -> Option<&'a Meaning>
    ensures { option_copied result ≡ exported_by name.now (option_copied table.entry) }
{
    match table {
        None => None,
        Some(table) => table.get().exported.find(name),
    }
}

/// What a name of a module means. The module is known by the place of its table.
pub fn exported_meaning(
    scope: &Scope<Breach>,
    place: usize,
    name: &Ident,
) -> Result<Elaborated<Meaning>, AllocError>
    ensures { IfOk result (λ m. m ≡ exported_meaning least scope.now.tables place name.now) }
{
    match exported_by(scope.tables.get(place), name.name.as_bytes()) {
        None => Ok(report(name.pos, Rule::NotExported)),
        Some(meaning) => Ok(Ok(meaning.copy()?)),
    }
}
