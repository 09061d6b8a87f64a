//! Equality of trees.

ghost use Rattle.std.specs.Prelude.{◌≡◌, ◌↔◌, IsTrue, true};
ghost use Rattle.m2_tree.specs.SoundExpr as exprs;
ghost use Rattle.m2_tree.specs.SoundModule as modules;
ghost use Rattle.m2_tree.specs.SoundStmt as stmts;
ghost use Rattle.m2_tree.specs.SoundTypes as types;

use crate::decl::{Block, Decl, Def, Module, TypeExpr};
use crate::expr::{Designator, Expr};
use crate::stmt::Stmt;

/// A type whose `==` holds of equal values alone, as it does of all trees.
pub trait Exact: Eq {
    ghost exact: { (a b : Self) → Self.PartialEq.eq a b ≡ true → a ≡ b };
}

impl Exact for Expr {
    ghost exact = { exprs.expr };
}

impl Exact for Designator {
    ghost exact = { exprs.designator };
}

impl Exact for TypeExpr {
    ghost exact = { types.type_of };
}

impl Exact for Stmt {
    ghost exact = { stmts.stmt };
}

impl Exact for Decl {
    ghost exact = { modules.decl };
}

impl Exact for Block {
    ghost exact = { modules.block };
}

impl Exact for Def {
    ghost exact = { modules.def };
}

impl Exact for Module {
    ghost exact = { modules.module_of };
}

/// Whether two trees are equal, as `==` says.
pub fn are_equal<T: Exact>(first: &T, second: &T) -> bool
    ensures { IsTrue result ↔ (first.now ≡ second.now) }
{
    *first == *second
}
