//! Fields of records, and formals of procedures.

ghost use Rattle.std.specs.Prelude.{◌≡◌, [], IfOk};
ghost use Rattle.std.specs.List.{fold};
ghost use Rattle.check_scope.specs.Elaborated.{least};
ghost use Rattle.check_type_expr.specs.Fields.{with_name};

use crate::cells::plus;
use check_scope::{Elaborated, beside, report};
use m2_rule::Rule;
use m2_tree::Ident;
use std::alloc::{AllocError, Global};
use typed_tree::{Dictionary, TypeNo};

/// Names of one list of fields or formals, and their cells together.
#[derive(Drop)]
pub struct Fields {
    pub names: Dictionary<TypeNo>,
    pub cells: u32,
}

/// No fields.
pub fn no_fields(alloc: Global) -> Fields
    ensures { result ≡ record { names = []; cells = 0 } }
{
    Fields {
        names: Dictionary::new(alloc),
        cells: 0,
    }
}

/// More names of one type, unless they are there.
pub fn with_names(
    alloc: Global,
    fields: &mut Fields,
    before: Elaborated<()>,
    names: &[Ident],
    t: TypeNo,
    cells: u32,
) -> Result<Elaborated<()>, AllocError>
    ensures { IfOk result (λ j.
        (fields.new, j) ≡ fold (with_name least t cells) (fields.old, before) names.now) }
{
    let mut elaborated = before;
    for name in names {
        if fields.names.find(name.name.as_bytes()).is_some() {
            elaborated = beside(elaborated, report(name.pos, Rule::DeclaredTwice));
        } else {
            fields.names.enter(alloc, name.name.as_bytes(), t)?;
            fields.cells = plus(fields.cells, cells);
        }
    }
    Ok(elaborated)
}
