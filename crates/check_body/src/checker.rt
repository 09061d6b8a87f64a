//! Program and implementation modules, checked with the statements of their bodies.

ghost use Rattle.std.specs.Prelude.{◌≡◌, IfOk};
ghost use Rattle.std.specs.Option.{option_copied};
ghost use Rattle.check_scope.specs.Elaborated.{least};
ghost use Rattle.check_body.specs.Checks.{elaborate_body, body_module};

use crate::{Statements, check_with};
use check_scope::{Elaborated, Scope};
use check_stmt::statements;
use check_stmt_parts::Around;
use m2_rule::Breach;
use m2_tree::{Module, Stmt};
use std::alloc::{AllocError, Global};
use tree_parts::{Items, Shared};
use typed_tree::{Table, TypeNo, TypedModule, TypedStmt};

/// Elaborates the statements of a body.
struct Checker;

impl Statements for Checker {
    ghost elaborated = { λ checker. elaborate_body least };

    fn check(
        &self,
        alloc: Global,
        scope: &mut Scope<Breach>,
        returns: &Option<Elaborated<TypeNo>>,
        body: &[Stmt],
    ) -> Result<Elaborated<Items<TypedStmt>>, AllocError> {
        let around = Around {
            gives: *returns,
            in_loop: false,
        };
        statements(alloc, scope, &around, body)
    }
}

/// The typed module of a body, or the least rule that it breaks. Users call that of m2_check. The only error is that memory
/// ran out.
pub fn check(
    alloc: Global,
    number: u32,
    tree: &Module,
    own: Option<&Table>,
    imports: Items<Shared<Table>>,
) -> Result<Elaborated<TypedModule>, AllocError>
    ensures { IfOk result
        (λ j. j ≡ body_module least number tree.now (option_copied own.entry) imports) }
{
    check_with(alloc, &Checker, number, tree, own, imports)
}
