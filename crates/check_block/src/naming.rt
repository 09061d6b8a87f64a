//! The names that a block declares, wherever they stand.

ghost use Rattle.std.specs.Prelude.{◌≡◌, OnOk, IfOk};
ghost use Rattle.check_block.specs.Naming.{marked_decl, marked_decls};

use check_definition::{mark_constants, mark_types, mark_variables};
use check_scope::{Known, Scope, mark};
use m2_rule::Breach;
use m2_tree::Decl;
use std::alloc::{AllocError, Global};
use tree_parts::Items;

fn mark_decl(alloc: Global, scope: &mut Scope<Breach>, decl: &Decl) -> Result<(), AllocError>
    ensures { OnOk result (scope.new ≡ marked_decl scope.old decl.now) }
{
    match decl {
        Decl::Constants(list) => mark_constants(alloc, scope, list.as_slice()),
        Decl::Types(list) => mark_types(alloc, scope, list.as_slice()),
        Decl::Variables(list) => mark_variables(alloc, scope, list.as_slice()),
        Decl::Procedure(heading, _) => mark(alloc, scope, &heading.name, Known::Ahead),
    }
}

/// Marks the names that a block declares, and answers how many names stand before each declaration.
pub fn mark_decls(
    alloc: Global,
    scope: &mut Scope<Breach>,
    decls: &[Decl],
) -> Result<Items<usize>, AllocError>
    ensures { IfOk result (λ seen. (scope.new, seen) ≡ marked_decls scope.old decls.now) }
{
    let mut seen = Items::new(alloc);
    for decl in decls {
        seen.push(scope.own.len())?;
        mark_decl(alloc, scope, decl)?;
    }
    Ok(seen)
}
