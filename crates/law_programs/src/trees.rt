//! What the checker makes of expressions and statements is typed, wherever what it asks for is there.
//!
//! - `specs/Wanted` says what a tree asks for where it stands: its texts, and the types of its calls through the
//!   table. `specs/Typing` says when what is made of a part is typed, and what a scope is to know for that.
//! - `proofs/Wants` has what each construct asks for, `proofs/Constructs` constructs of typed parts, and
//!   `proofs/Known` the types that a scope knows. `proofs/Operators` and `proofs/Calls` go through `check_value`, and
//!   `proofs/Meanings` through `check_expr`, with the induction.
//! - `specs/Asked` and `specs/TypingStmts` say the same of statements. `proofs/StmtsWants` and
//!   `proofs/StmtsConstructs` are as above, `proofs/Within` has scopes within a WITH, `proofs/StmtsSteps` what stands
//!   before and around other statements, `proofs/Labels` the labels of CASE, `proofs/Effects` assignments and calls,
//!   and `proofs/Statements` the induction.

ghost use Rattle.check_scope.specs.Elaborated.{least, every};
ghost use Rattle.law_programs.specs.Typing.{ExpressionsAreTyped, DesignatorsAreTyped};
ghost use Rattle.law_programs.specs.TypingStmts.{StatementsAreTyped};

/// What the checker makes of expressions and designators is typed, wherever what it asks for is there. That is so if
/// the least broken rule is kept, and if all of them are.
pub fn typing_laws()
    // Expressions are typed,
    ensures least_expressions { ExpressionsAreTyped least }
    ensures every_expressions { ExpressionsAreTyped every }
    // and so are designators.
    ensures least_designators { DesignatorsAreTyped least }
    ensures every_designators { DesignatorsAreTyped every }
{}

/// What the checker makes of statements is typed.
pub fn typing_statement_laws()
    // That is so if the least broken rule is kept,
    ensures least { StatementsAreTyped least }
    // and if all of them are.
    ensures every { StatementsAreTyped every }
{}
