//! Laws alone: what the checker answers of a definition moves with the numbers of the modules.
//!
//! In a build of a whole program a module has another number than where it is compiled alone, and so have those that it
//! imports. The answers are the same, with these numbers exchanged. What is reported is places and rules, and does not move.
//!
//! - `specs/Scopes`, `Constants`, `Trees`, `Values` and `Types` say what moves: scopes, and what the layers of the checker answer.
//! - `specs/Laws` has the laws.
//! - Each function of the checker has a law in `proofs/`, in a file for each of its files: `Known`, `InScope`, `Operands` to `Calls`
//!   of constants, `Classes` to `Actuals` of values, `Named` to `MadePieces` of types. What takes parts of expressions follows by
//!   hand in `Fixed` and `Meaning`, and `Exprs` is the induction over all expressions. `Types` is the one over types, `Begin` has
//!   marks and imports, `Again` constant expressions that are read again, and `Defs` the table of a definition.
#![tactic(auto)]

ghost use Rattle.law_exchange_types.specs.Laws.{NamesMove, ConstantsMove, ExpressionsMove, TypesMove, HeadingsMove, DefinitionsMove};

/// What names and expressions mean.
pub fn expression_laws()
    ensures names { NamesMove }
    ensures constants { ConstantsMove }
    ensures expressions { ExpressionsMove }
{}

/// Types that are written, headings, and the table of a definition. The number of Console stays, since its table is the checker's
/// own.
pub fn definition_laws()
    ensures types { TypesMove }
    ensures headings { HeadingsMove }
    ensures definitions { DefinitionsMove }
{}
