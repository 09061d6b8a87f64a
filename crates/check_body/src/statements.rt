//! How the statements of a body are elaborated.

ghost use Rattle.std.specs.Prelude.{◌≡◌, IfOk, OnOk};
ghost use Rattle.m2_rule.specs.declared.breach.Breach.{Breach as TheBreach};
ghost use Rattle.check_body.specs.Elaborating.{Elaborates, statements_of};

use check_scope::{Elaborated, Scope};
use m2_rule::Breach;
use m2_tree::Stmt;
use std::alloc::{AllocError, Global};
use tree_parts::Items;
use typed_tree::{TypeNo, TypedStmt};

/// Elaborates the statements of bodies.
pub trait Statements {
    /// What it answers.
    ghost elaborated: { Self → Elaborates TheBreach };

    /// Elaborates the statements of a body in the scope in which they stand. A body that returns something comes with the
    /// type of that, or with what is reported of the type. The only error is that memory ran out.
    fn check(
        &self,
        alloc: Global,
        scope: &mut Scope<Breach>,
        returns: &Option<Elaborated<TypeNo>>,
        body: &[Stmt],
    ) -> Result<Elaborated<Items<TypedStmt>>, AllocError>
        ensures stays { OnOk result (scope.new ≡ scope.old) }
        ensures means { IfOk result (λ j. j ≡ elaborated self.now scope.old returns.now body.now) };
}

/// Elaborates the statements behind a BEGIN, if there is one.
pub fn check_statements<S: Statements>(
    alloc: Global,
    statements: &S,
    scope: &mut Scope<Breach>,
    returns: &Option<Elaborated<TypeNo>>,
    body: &Option<Items<Stmt>>,
) -> Result<Elaborated<Items<TypedStmt>>, AllocError>
    ensures stays { OnOk result (scope.new ≡ scope.old) }
    ensures means { IfOk result (λ j. j ≡
        statements_of (S.elaborated statements.now) scope.old returns.now body.now) }
{
    match body {
        None => Ok(Ok(Items::new(alloc))),
        Some(list) => statements.check(alloc, scope, returns, list.as_slice()),
    }
}
