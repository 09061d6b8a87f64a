//! Program and implementation modules, checked in any way of elaborating statements.

ghost use Rattle.std.specs.Prelude.{◌≡◌, None, IfOk};
ghost use Rattle.std.specs.Option.{option_copied};
ghost use Rattle.check_scope.specs.Elaborated.{least};
ghost use Rattle.check_definition.specs.Predeclared.{first_scope};
ghost use Rattle.check_body.specs.Checked.{module_or, begun_module, walk_body, of_walk, of_body, of_implementation, body_module};

use crate::procedure::Walk;
use crate::procedures::check_procedures;
use crate::statements::{Statements, check_statements};
use crate::{implementation_scope, no_bodies, typed_module};
use check_block::{declare_module, procedure_ends};
use check_definition::{first_scope, modules_of, with_console};
use check_scope::{Elaborated, Scope, both, report};
use m2_rule::{Breach, Rule};
use m2_tree::{Block, Contents, Decl, Module};
use std::alloc::{AllocError, Global};
use tree_parts::{Items, Shared};
use typed_tree::{Dictionary, Table, TypedModule, TypedStmt};

/// The module of a body that was checked.
fn module_or(
    alloc: Global,
    modules: &Dictionary<usize>,
    own: Option<&Table>,
    tree: &Module,
    walk: Walk<Breach>,
    body: Elaborated<Items<TypedStmt>>,
) -> Result<Elaborated<TypedModule>, AllocError>
    ensures { IfOk result (λ j. j ≡
        module_or least modules.now (option_copied own.entry) tree.now (walk, body)) }
{
    match both(walk.so_far, body) {
        Err(breach) => Ok(Err(breach)),
        Ok((_, body)) => {
            let Walk { scope, bodies, .. } = walk;
            let module = typed_module(alloc, scope, modules, own, tree, bodies, body)?;
            Ok(Ok(module))
        }
    }
}

/// Declares what a module imports and what its block declares, and answers how many names stand before each
/// declaration.
fn begin_module(
    alloc: Global,
    modules: &Dictionary<usize>,
    ends: &[usize],
    scope: Scope<Breach>,
    tree: &Module,
    decls: &[Decl],
) -> Result<(Walk<Breach>, Items<usize>), AllocError>
    ensures { IfOk result (λ r. r ≡
        begun_module least modules.now ends.now scope tree.now decls.now) }
{
    let mut scope = scope;
    let (so_far, seen) = declare_module(alloc, &mut scope, modules, ends, tree, decls)?;
    let bodies = no_bodies(alloc, scope.procedures.as_slice())?;
    let walk = Walk {
        scope,
        so_far,
        bodies,
    };
    Ok((walk, seen))
}

/// Checks the bodies of the procedures of a module, and then its own.
fn walk_through<S: Statements>(
    alloc: Global,
    statements: &S,
    modules: &Dictionary<usize>,
    ends: &[usize],
    scope: Scope<Breach>,
    tree: &Module,
    block: &Block,
) -> Result<(Walk<Breach>, Elaborated<Items<TypedStmt>>), AllocError>
    ensures { IfOk result (λ r.
        r
        ≡ walk_body least (S.elaborated statements.now) modules.now ends.now scope tree.now
        block.now) }
{
    let decls = block.decls.as_slice();
    let (mut walk, seen) = begin_module(alloc, modules, ends, scope, tree, decls)?;
    check_procedures(
        alloc,
        statements,
        ends,
        None,
        seen.as_slice(),
        &mut walk,
        decls,
    )?;
    let body = check_statements(alloc, statements, &mut walk.scope, &None, &block.body)?;
    Ok((walk, body))
}

fn check_from<S: Statements>(
    alloc: Global,
    statements: &S,
    modules: &Dictionary<usize>,
    scope: Scope<Breach>,
    own: Option<&Table>,
    tree: &Module,
    block: &Block,
) -> Result<Elaborated<TypedModule>, AllocError>
    ensures { IfOk result (λ j. j ≡
        of_walk least (S.elaborated statements.now) modules.now scope
        (option_copied own.entry) tree.now block.now) }
{
    let ends = procedure_ends(alloc, block.decls.as_slice())?;
    let ends = ends.as_slice();
    let (walk, body) = walk_through(alloc, statements, modules, ends, scope, tree, block)?;
    module_or(alloc, modules, own, tree, walk, body)
}

/// Checks the body of a module from the scope where it begins.
fn check_body<S: Statements>(
    alloc: Global,
    statements: &S,
    scope: Scope<Breach>,
    own: Option<&Table>,
    tree: &Module,
    block: &Block,
) -> Result<Elaborated<TypedModule>, AllocError>
    ensures { IfOk result (λ j. j ≡
        of_body least (S.elaborated statements.now) scope (option_copied own.entry)
        tree.now block.now) }
{
    let modules = modules_of(alloc, scope.tables.as_slice())?;
    check_from(alloc, statements, &modules, scope, own, tree, block)
}

fn check_program<S: Statements>(
    alloc: Global,
    statements: &S,
    number: u32,
    tree: &Module,
    tables: Items<Shared<Table>>,
    block: &Block,
) -> Result<Elaborated<TypedModule>, AllocError>
    ensures { IfOk result (λ j. j ≡
        of_body least (S.elaborated statements.now) (first_scope number tables) None
        tree.now block.now) }
{
    let scope = first_scope(alloc, number, tables)?;
    check_body(alloc, statements, scope, None, tree, block)
}

fn check_implementation<S: Statements>(
    alloc: Global,
    statements: &S,
    tree: &Module,
    own: Option<&Table>,
    tables: Items<Shared<Table>>,
    block: &Block,
) -> Result<Elaborated<TypedModule>, AllocError>
    ensures { IfOk result (λ j. j ≡
        of_implementation least (S.elaborated statements.now) tree.now
        (option_copied own.entry) tables block.now) }
{
    match own {
        None => Ok(report(tree.name.pos, Rule::LonelyModule)),
        Some(table) => {
            let scope = implementation_scope(alloc, table, tables)?;
            check_body(alloc, statements, scope, own, tree, block)
        }
    }
}

/// Checks a program module or an implementation module, from the tables of the definitions that it imports and, for an
/// implementation, from the table of its own definition. It answers the module if no rule is broken, and else the least
/// rule that is, by place and then by number: of its imports, of its declarations, of the statements of its procedures
/// and of its own. A procedure in front of its heading is reported only if nothing else is. A module of another kind, and
/// an implementation without the table, is 24 at its name. The only error is that memory ran out.
pub fn check_with<S: Statements>(
    alloc: Global,
    statements: &S,
    number: u32,
    tree: &Module,
    own: Option<&Table>,
    imports: Items<Shared<Table>>,
) -> Result<Elaborated<TypedModule>, AllocError>
    ensures { IfOk result (λ j.
        j
        ≡ body_module least (S.elaborated statements.now) number tree.now (option_copied own.entry)
        imports) }
{
    let tables = with_console(alloc, imports)?;
    match &tree.contents {
        Contents::Definition(_) => Ok(report(tree.name.pos, Rule::LonelyModule)),
        Contents::Implementation(block) => {
            check_implementation(alloc, statements, tree, own, tables, block)
        }
        Contents::Program(block) => {
            check_program(alloc, statements, number, tree, tables, block)
        }
    }
}
