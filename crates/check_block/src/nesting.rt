//! Procedures in procedures, in the order of their headings.

ghost use Rattle.std.specs.Prelude.{◌≡◌, [], IfOk, OnOk};
ghost use Rattle.std.specs.List.{fold};
ghost use Rattle.check_block.specs.Nesting.{with_ends_within, with_decl_ends, procedure_ends};

use m2_tree::Decl;
use std::alloc::{AllocError, Global};
use tree_parts::Items;

/// Puts the numbers behind the procedures of a procedure's declarations at the end.
#[cycle(nesting)]
fn push_all(ends: &mut Items<usize>, decls: &[Decl]) -> Result<(), AllocError>
    ensures { OnOk result (ends.new ≡ fold with_ends_within ends.old decls.now) }
{
    for decl in decls {
        push_within(ends, decl)?;
    }
    Ok(())
}

#[cycle(nesting)]
#[tactic(auto, using(crate::proofs::Ends::no_ends))]
fn push_within(ends: &mut Items<usize>, decl: &Decl) -> Result<(), AllocError>
    ensures { OnOk result (ends.new ≡ with_ends_within ends.old decl.now) }
{
    match decl {
        Decl::Constants(_) => Ok(()),
        Decl::Types(_) => Ok(()),
        Decl::Variables(_) => Ok(()),
        Decl::Procedure(_, block) => {
            let place = ends.len();
            ends.push(0)?;
            push_all(ends, block.get().decls.as_slice())?;
            let end = ends.len();
            ends.set(place, end);
            Ok(())
        }
    }
}

#[tactic(auto, using(crate::proofs::Ends::ends_block))]
fn push_decl(ends: &mut Items<usize>, decl: &Decl) -> Result<(), AllocError>
    ensures { OnOk result (ends.new ≡ with_decl_ends ends.old decl.now) }
{
    match decl {
        Decl::Constants(_) => Ok(()),
        Decl::Types(_) => Ok(()),
        Decl::Variables(_) => Ok(()),
        Decl::Procedure(_, block) => push_all(ends, block.get().decls.as_slice()),
    }
}

/// The procedures in the procedures of a module are numbered in the order of their headings. For each of them this
/// answers the number that comes behind it and those within it. The only error is that memory ran out.
pub fn procedure_ends(alloc: Global, decls: &[Decl]) -> Result<Items<usize>, AllocError>
    ensures { IfOk result (λ ends. ends ≡ procedure_ends decls.now) }
{
    let mut ends = Items::new(alloc);
    for decl in decls {
        push_decl(&mut ends, decl)?;
    }
    Ok(ends)
}
