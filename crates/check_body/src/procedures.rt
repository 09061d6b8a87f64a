//! The bodies of the procedures of a block, and of those in them.

ghost use Rattle.std.specs.Prelude.{◌≡◌, IfOk, OnOk, slice_get};
ghost use Rattle.std.specs.Option.{unwrap_or};
ghost use Rattle.check_scope.specs.Elaborated.{least};
ghost use Rattle.check_body.specs.Bodies.{checks_decl, checks_block, procedure_checked, begun_block, bodies_checked};

use crate::procedure::{Walk, begin_procedure, end_procedure, which_of};
use crate::statements::{Statements, check_statements};
use check_block::declare_block;
use check_scope::Elaborated;
use m2_rule::Breach;
use m2_tree::{Block, Decl, Heading};
use std::alloc::{AllocError, Global};
use tree_parts::Items;
use typed_tree::{TypeNo, TypedStmt, Which};

/// Declares what the block of a procedure declares, and answers how many names stand before each declaration.
fn declare_in(
    alloc: Global,
    ends: &[usize],
    walk: &mut Walk<Breach>,
    decls: &[Decl],
) -> Result<Items<usize>, AllocError>
    ensures { IfOk result
        (λ seen. (walk.new, seen) ≡ begun_block least ends.now walk.old decls.now) }
{
    let first = walk.bodies.locals.len();
    let (elaborated, seen) = declare_block(
        alloc,
        &mut walk.scope,
        ends,
        walk.so_far,
        first,
        decls,
    )?;
    walk.so_far = elaborated;
    Ok(seen)
}

fn seen_at(seen: &[usize], place: usize) -> usize
    ensures { result ≡ unwrap_or (slice_get seen.now place) 0 }
{
    match seen.get(place) {
        None => 0,
        Some(count) => *count,
    }
}

/// Checks the bodies of the procedures that a block declares, and of those in them. The numbers are those behind the
/// procedures in procedures, and how many names of the block stand before each declaration.
#[cycle(procedures)]
pub fn check_procedures<S: Statements>(
    alloc: Global,
    statements: &S,
    ends: &[usize],
    around: Option<Which>,
    seen: &[usize],
    walk: &mut Walk<Breach>,
    decls: &[Decl],
) -> Result<(), AllocError>
    ensures { OnOk result (walk.new ≡
        bodies_checked least (S.elaborated statements.now)
        ends.now around seen.now walk.old decls.now) }
{
    for (place, decl) in decls.iter().enumerate() {
        let before = seen_at(seen, place);
        check_decl(alloc, statements, ends, around, before, walk, decl)?;
    }
    Ok(())
}

#[cycle(procedures)]
#[tactic(auto, using(crate::proofs::Variants::variants))]
fn check_decl<S: Statements>(
    alloc: Global,
    statements: &S,
    ends: &[usize],
    around: Option<Which>,
    seen: usize,
    walk: &mut Walk<Breach>,
    decl: &Decl,
) -> Result<(), AllocError>
    ensures { OnOk result (walk.new ≡
        checks_decl least (S.elaborated statements.now) ends.now decl.now around seen walk.old) }
{
    match decl {
        Decl::Constants(_) => Ok(()),
        Decl::Types(_) => Ok(()),
        Decl::Variables(_) => Ok(()),
        Decl::Procedure(heading, block) => {
            let block = block.get();
            check_procedure(alloc, statements, ends, around, seen, walk, heading, block)
        }
    }
}

#[cycle(procedures)]
fn check_procedure<S: Statements>(
    alloc: Global,
    statements: &S,
    ends: &[usize],
    around: Option<Which>,
    seen: usize,
    walk: &mut Walk<Breach>,
    heading: &Heading,
    block: &Block,
) -> Result<(), AllocError>
    ensures { OnOk result (walk.new
        ≡ procedure_checked least (S.elaborated statements.now) ends.now heading.now
        (checks_block least (S.elaborated statements.now) ends.now block.now) around seen
        walk.old) }
{
    let begun = begin_procedure(alloc, walk, seen, heading)?;
    let which = which_of(begun.procedure);
    let body = check_block(alloc, statements, ends, which, &begun.returns, walk, block)?;
    end_procedure(alloc, walk, &heading.name, around, begun, body)
}

#[cycle(procedures)]
fn check_block<S: Statements>(
    alloc: Global,
    statements: &S,
    ends: &[usize],
    around: Option<Which>,
    returns: &Option<Elaborated<TypeNo>>,
    walk: &mut Walk<Breach>,
    block: &Block,
) -> Result<Elaborated<Items<TypedStmt>>, AllocError>
    ensures { IfOk result (λ j. (walk.new, j) ≡
        checks_block least (S.elaborated statements.now)
        ends.now block.now around returns.now walk.old) }
{
    let decls = block.decls.as_slice();
    let seen = declare_in(alloc, ends, walk, decls)?;
    check_procedures(
        alloc,
        statements,
        ends,
        around,
        seen.as_slice(),
        walk,
        decls,
    )?;
    check_statements(alloc, statements, &mut walk.scope, returns, &block.body)
}
