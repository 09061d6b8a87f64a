//! What becomes of a module, from what became of those that it needs.

ghost use Rattle.std.specs.Prelude.{◌≡◌, IfOk, map};
ghost use Rattle.check_scope.specs.Elaborated.{least};
ghost use Rattle.layout_storage.specs.Layouts.{too_large};
ghost use Rattle.check_definition.specs.Compiled as types;
ghost use Rattle.build_jobs.specs.Compiling.{compilation_of, of_checked, of_definition, of_fit, typed_body};

use crate::outcome::{Compiled, are_sound, tables_of};
use crate::tables::{own_table, tables_behind};
use check_body::check;
use check_definition::compile_definition;
use check_scope::Elaborated;
use layout_storage::Layout;
use m2_emit::emit;
use m2_rule::{Breach, Rule};
use m2_tree::{Contents, Module};
use std::alloc::{AllocError, Global};
use tree_parts::{Items, Shared};
use typed_tree::{Table, TypedModule};

/// A definition gives its table, or breaks a rule.
fn definition(
    alloc: Global,
    tree: &Module,
    number: u32,
    tables: Items<Shared<Table>>,
) -> Result<Compiled, AllocError>
    ensures { IfOk result (λ c.
        c ≡ of_definition (types.definition_table least number tree.now tables)) }
{
    match compile_definition(alloc, number, tree, tables)? {
        Ok(table) => Ok(Compiled::Defined(Shared::new(alloc, table)?)),
        Err(broken) => Ok(Compiled::Refused(broken)),
    }
}

/// The body of a module in which no rule is broken, or the least rule that is.
fn typed_body(
    alloc: Global,
    tree: &Module,
    number: u32,
    tables: &[Shared<Table>],
) -> Result<Elaborated<TypedModule>, AllocError>
    ensures { IfOk result (λ j. j ≡ typed_body tree.now number tables.now) }
{
    let own = own_table(tree, tables);
    let imports = tables_behind(alloc, own, tables)?;
    check(alloc, number, tree, own, imports)
}

/// The module of a body that breaks no rule, or 60 if its storage is too large.
fn fit_storage(alloc: Global, typed: &TypedModule) -> Result<Compiled, AllocError>
    ensures { IfOk result (λ c. c ≡ of_fit typed.now (too_large typed.now)) }
{
    match Layout::of(alloc, typed)? {
        Err(pos) => Ok(Compiled::Refused(Breach::at(pos, Rule::LargeStorage))),
        Ok(layout) => {
            let module = emit(alloc, typed, &layout)?;
            Ok(Compiled::Built(Shared::new(alloc, module)?))
        }
    }
}

/// A body that breaks no rule gives its module.
fn body(
    alloc: Global,
    tree: &Module,
    number: u32,
    tables: &[Shared<Table>],
) -> Result<Compiled, AllocError>
    ensures { IfOk result (λ c. c ≡ of_checked (typed_body tree.now number tables.now)) }
{
    match typed_body(alloc, tree, number, tables)? {
        Err(broken) => Ok(Compiled::Refused(broken)),
        Ok(typed) => fit_storage(alloc, &typed),
    }
}

/// What becomes of the module of a job, from what became of the modules that it needs: of its own definition if it is a
/// body, and of the definitions that it imports, in this order. It is blocked if one of these is refused or blocked.
/// Else each is checked, with its types known by the job's number, and reported where it breaks a rule. A definition
/// gives its table. A body gives its module, or 60 if its variables and texts, or a frame, are too large. The only error
/// is that memory ran out.
#[tactic(auto, unfolding(crate::specs::Compiling::compilation_of))]
pub fn compile(
    alloc: Global,
    tree: &Module,
    number: u32,
    needed: &[&Compiled],
) -> Result<Compiled, AllocError>
    ensures { IfOk result (λ c.
        c ≡ compilation_of tree.now number (map (λ n. n.now) needed.now)) }
{
    if !are_sound(needed) {
        return Ok(Compiled::Blocked);
    }
    let tables = tables_of(alloc, needed)?;
    match &tree.contents {
        Contents::Definition(_) => definition(alloc, tree, number, tables),
        Contents::Implementation(_) => body(alloc, tree, number, tables.as_slice()),
        Contents::Program(_) => body(alloc, tree, number, tables.as_slice()),
    }
}
