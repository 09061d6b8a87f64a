//! The checker answers definition modules exactly as the rules of the language say.
//!
//! `importing` has imports, and `law_typing` the declarations of a block. Those of a definition are elaborated by the same
//! definitions, but its procedures make their types in another way. These laws hold
//! of the elaboration in `check_definition`, of all that it gathers and of the least refusal alike.
//!
//! - `specs/Defining` says what is answered of a definition, `specs/Exports` what its table exports, and `specs/Importers` what
//!   those who import it, and its own implementation, know of this table. The rules of its declarations stand in
//!   `def_typing/specs/Definitions`.
//! - `proofs/Sections` has a declaration as the first of a block, `proofs/Ordinary` the same in a definition, and
//!   `proofs/Procedures` a procedure. `proofs/Stepping` says what is known behind one declaration, `proofs/Running` behind all
//!   of them, and `proofs/Starting` before the first one.
//! - `proofs/DefinitionsAgain` reads constant expressions again behind all declarations.
//! - `proofs/Taking` says what a declaration enters into the scope if nothing is reported, `proofs/Listing` that it is exported
//!   in the order of the text, `proofs/Marks` and `proofs/Keeping` that names keep this order, `proofs/Constants` that the
//!   constants of enumerations are new, and `proofs/Entries` that no other name is exported.
//! - `proofs/Only` says that the rules read a definition in one way, `proofs/Finding` that a refusal has a rule,
//!   `proofs/Outside` what names stand for outside, `proofs/Modules` which modules stand in its table, `proofs/Meeting` which
//!   types are met through it, and `proofs/DefinitionsImporting` what importers know.

ghost use Rattle.check_scope.specs.Elaborated.{every, least};
ghost use Rattle.law_typing.specs.Judging.{all_of_them, the_least};
ghost use Rattle.law_rules.specs.Defining.{DefinitionsAreExact, DefinitionsAreKnown};
ghost use Rattle.law_rules.specs.Importers.{TablesAreForeign, OwnNamesAreKnown, NamesAgree};

/// A definition has a table exactly if no rule is broken in its imports and in its declarations, also where their constant
/// expressions are read again. Else what is reported are exactly the rules that are broken there; and the least refusal is a
/// broken rule, and no broken rule is less, as in a program. Its table exports each name that is declared, in the order of the
/// text, with what the rules say that it means and with its number, and no other name. It lists the modules that the definition
/// imports, and the types that are met through it.
pub fn definition_laws()
    ensures { DefinitionsAreExact least the_least }
{}

/// No definition lacks what names stand for before its declarations, so the law above speaks of each.
pub fn definition_scope_laws()
    ensures every_rule { DefinitionsAreKnown every all_of_them }
    ensures least_rule { DefinitionsAreKnown least the_least }
{}

/// No variable counts as a module's own that it imports from the table of another definition, or from Console.
pub fn foreign_table_laws()
    ensures { TablesAreForeign least }
{}

/// A definition exports each name once. Where its implementation begins, these names are taken, and its procedures await their
/// headings.
pub fn own_name_laws()
    ensures { OwnNamesAreKnown least the_least }
{}

/// A name that a definition exports stands for the same behind its declarations, in its own implementation, and in those who
/// import it.
pub fn agreeing_name_laws()
    ensures { NamesAgree least the_least }
{}
