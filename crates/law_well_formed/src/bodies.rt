//! What the checker makes of expressions, of statements and of the bodies of procedures is well formed.
//!
//! - `specs/Formed` says when what is made of a part is well formed, and what a scope is to know for that.
//!   `proofs/Basics` has results that are as a fact says. `proofs/Operators` and `proofs/Calls` have a lemma for each
//!   definition of `check_value`, and `proofs/Meanings` those of `check_expr`, with the induction.
//! - `specs/FormedStmts` says it of statements. `proofs/Effects` has a lemma for each definition of assignments and
//!   calls, `proofs/StmtsSteps` for each of `check_stmt_parts`, and `proofs/Statements` the induction.
//! - `specs/FormedBodies` says what checking a block keeps and adds. `proofs/Scopes` has scopes whose names are
//!   formed, `proofs/Parts` the declarations of a block with their numbers, `proofs/Checks` the body of one
//!   procedure, `proofs/BodiesBlocks` the bodies of a block, and `proofs/Induction` blocks in blocks.

ghost use Rattle.check_body.specs.Checks.{elaborate_body};
ghost use Rattle.law_well_formed.specs.Formed.{ExpressionsAreFormed};
ghost use Rattle.law_well_formed.specs.FormedBodies.{FormsStatements, BlocksAreFormed};
ghost use Rattle.law_well_formed.specs.FormedStmts.{StatementsAreFormed};
ghost use Rattle.check_scope.specs.Elaborated.{least, every};

/// What the checker makes of expressions is well formed.
pub fn formed_laws()
    // That is so if the least broken rule is kept,
    ensures least { ExpressionsAreFormed least }
    // and if all of them are.
    ensures every { ExpressionsAreFormed every }
{}

/// What the checker makes of statements is well formed.
pub fn formed_statement_laws()
    // That is so if the least broken rule is kept,
    ensures least { StatementsAreFormed least }
    // and if all of them are.
    ensures every { StatementsAreFormed every }
{}

/// The statements of bodies are well formed, and so is what stands in the blocks of procedures.
pub fn formed_body_laws()
    // That is so if the least broken rule is kept,
    ensures least { FormsStatements least (elaborate_body least) × BlocksAreFormed least }
    // and if all of them are.
    ensures every { FormsStatements every (elaborate_body every) × BlocksAreFormed every }
{}
