//! From a block into a procedure, and back.

ghost use Rattle.std.specs.Prelude.{◌≡◌, IfOk, OnOk};
ghost use Rattle.check_scope.specs.Inwards.{inwards, outside, split_last, pop_block, left_procedure};

use crate::known::Known;
use crate::scope::{Block, Scope};
use m2_rule::Breach;
use std::alloc::{AllocError, Global};
use std::mem;
use tree_parts::Items;
use typed_tree::{Dictionary, TypeNo};

/// What is put back behind a procedure.
#[derive(Drop)]
pub struct Outside {
    pub level: usize,
    /// The types of the variables of the block around the procedure.
    pub variables: Items<TypeNo>,
}

/// Steps into a procedure of the innermost block, before its formals are known. `seen` names of the block stand before it.
pub fn step_in(alloc: Global, scope: &mut Scope<Breach>, seen: usize) -> Result<Outside, AllocError>
    ensures within { OnOk result (scope.new ≡ inwards scope.old seen) }
    ensures around { IfOk result (λ o. o ≡ outside scope.old) }
{
    let names = mem::replace(&mut scope.own, Dictionary::new(alloc));
    let variables = mem::replace(&mut scope.variables, Items::new(alloc));
    let level = mem::replace(&mut scope.level, scope.outer.len());
    scope.outer.push(Block { names, seen })?;
    Ok(Outside { level, variables })
}

/// Takes the names of the innermost block around a place.
fn pop_names(alloc: Global, outer: &mut Items<Block<Breach>>) -> Dictionary<Known<Breach>>
    ensures { (outer.new, result) ≡ pop_block (split_last outer.old) }
{
    match outer.pop() {
        None => Dictionary::new(alloc),
        Some(block) => block.names,
    }
}

/// Steps out of a procedure. What is around it is as it was, but for the types that were made in it.
pub fn step_out(alloc: Global, scope: &mut Scope<Breach>, outside: Outside)
    ensures { scope.new ≡ left_procedure outside scope.old }
{
    scope.own = pop_names(alloc, &mut scope.outer);
    scope.level = outside.level;
    scope.variables = outside.variables;
}
