//! The table of a definition.

ghost use Rattle.std.specs.Prelude.{◌≡◌, IfOk, ◌++◌, ◌∷◌, []};
ghost use Rattle.check_scope.specs.Elaborated.{least};
ghost use Rattle.check_definition.specs.Predeclared.{console};
ghost use Rattle.check_definition.specs.Compiled.{declared_in, table_or, of_definition, definition_table};

use crate::again::again_defs;
use crate::declare::declare_all;
use crate::export::{exports, imported_modules, reached_of};
use crate::importing::{import_all, modules_of};
use crate::marking::mark_defs;
use crate::predeclared::{console, first_scope};
use check_scope::{Elaborated, Scope, report};
use m2_rule::{Breach, Rule};
use m2_tree::{Contents, Def, Module};
use std::alloc::{AllocError, Global};
use tree_parts::{Items, Shared};
use typed_tree::{Dictionary, Table};

/// The tables of a module's imports, and the table of Console.
pub fn with_console(
    alloc: Global,
    tables: Items<Shared<Table>>,
) -> Result<Items<Shared<Table>>, AllocError>
    ensures { IfOk result (λ all. all ≡ tables ++ console ∷ []) }
{
    let mut all = tables;
    all.push(Shared::new(alloc, console(alloc)?)?)?;
    Ok(all)
}

/// The table of a definition whose declarations are known, unless something is reported of them.
fn table_or(
    alloc: Global,
    tree: &Module,
    modules: &Dictionary<usize>,
    scope: Scope<Breach>,
    elaborated: Elaborated<()>,
) -> Result<Elaborated<Table>, AllocError>
    ensures { IfOk result (λ j. j ≡ table_or tree.now modules.now scope elaborated) }
{
    match elaborated {
        Err(breach) => Ok(Err(breach)),
        Ok(()) => {
            let imports = imported_modules(alloc, modules, &scope.tables, tree.imports.as_slice())?;
            let exported = exports(alloc, &scope.own)?;
            let number = scope.types.home;
            let name = tree.name.name.clone()?;
            let (types, _) = scope.into_types(alloc);
            let reached = reached_of(alloc, types)?;
            Ok(Ok(Table {
                number,
                name,
                imports,
                exported,
                reached,
            }))
        }
    }
}

/// What is known behind a definition's declarations, and what is reported of it.
fn declared_in(
    alloc: Global,
    scope: &mut Scope<Breach>,
    tree: &Module,
    modules: &Dictionary<usize>,
    defs: &[Def],
) -> Result<Elaborated<()>, AllocError>
    ensures { IfOk result (λ j.
        (scope.new, j) ≡ declared_in least tree.now modules.now scope.old defs.now) }
{
    let elaborated = import_all(alloc, scope, modules, tree.imports.as_slice())?;
    let first = scope.own.len();
    mark_defs(alloc, scope, defs)?;
    let elaborated = declare_all(alloc, scope, elaborated, defs)?;
    again_defs(alloc, scope, first, elaborated, defs)
}

fn of_definition(
    alloc: Global,
    number: u32,
    tree: &Module,
    tables: Items<Shared<Table>>,
    defs: &[Def],
) -> Result<Elaborated<Table>, AllocError>
    ensures { IfOk result (λ j. j ≡ of_definition least number tree.now tables defs.now) }
{
    let modules = modules_of(alloc, tables.as_slice())?;
    let mut scope = first_scope(alloc, number, tables)?;
    let elaborated = declared_in(alloc, &mut scope, tree, &modules, defs)?;
    table_or(alloc, tree, &modules, scope, elaborated)
}

/// The table of a definition, or the least rule that it breaks. Users call that of m2_types, which lists the rules. The only
/// error is that memory ran out.
pub fn compile_definition(
    alloc: Global,
    number: u32,
    tree: &Module,
    imports: Items<Shared<Table>>,
) -> Result<Elaborated<Table>, AllocError>
    ensures { IfOk result (λ j. j ≡ definition_table least number tree.now imports) }
{
    let tables = with_console(alloc, imports)?;
    match &tree.contents {
        Contents::Definition(defs) => of_definition(alloc, number, tree, tables, defs.as_slice()),
        Contents::Implementation(_) => Ok(report(tree.name.pos, Rule::LonelyModule)),
        Contents::Program(_) => Ok(report(tree.name.pos, Rule::LonelyModule)),
    }
}
