//! Laws alone: what statements mean moves with the numbers of the modules.
//!
//! - `specs/MovedStatements` says what moves: what stands around statements, the course of a FOR, where labels stand.
//! - `specs/Laws` has the laws, of whatever way of gathering broken rules.
//! - `proofs/` has a law for each function: `Simple`, `Control`, `Around` and `Labels` of those that take results, and
//!   `Meant` and `Labelled` of those that take expressions. `Statements` is the induction over all statements.
//!
//! The values of the labels of a CASE are kept in an order that rests on the numbers of modules, so these lists do not
//! move: they stand in another order. What the next label asks of them is the same (`proofs/Points` and `Entering`):
//! ranges of one type alone meet, and their points have one order. `Alike` says so of two lists, and the laws of labels
//! and arms keep it.
#![tactic(auto)]

ghost use Rattle.check_scope.specs.Elaborated.{least, every};
ghost use Rattle.law_exchange_stmts.specs.Laws.{StatementMoves, RestMoves, StatementsMove, ArmsMove};

/// Statements, what follows the first part of an IF, lists of statements, and the arms of a CASE.
pub fn statement_laws()
    ensures every_rule { StatementMoves every × RestMoves every × StatementsMove every
        × ArmsMove every }
    ensures least_rule { StatementMoves least × RestMoves least × StatementsMove least
        × ArmsMove least }
{}
