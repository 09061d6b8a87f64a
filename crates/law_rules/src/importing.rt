//! The checker answers the imports of a module exactly as the rules of the language say.
//!
//! `def_typing` has the rules: what names stand for behind imports (`Brings`), and which rules are broken in them (`BrokenIn`).
//! These laws hold of the elaboration in `check_definition`, of all that it gathers and of the least refusal alike. They speak
//! of all imports, whatever the tables have.
//!
//! - `specs/Importing` says what a scope knows behind imports, and what is proved of it.
//! - `proofs/Tables` finds modules and entries by their names, `proofs/ImportsImporting` goes from one import to the next,
//!   `proofs/Behind` says what is known behind all of them, `proofs/ImportsDefining` that a definition marks its names there,
//!   `proofs/Implementing` what is known before those of an implementation, and `proofs/Following` what is reported of the block behind imports.

ghost use Rattle.check_scope.specs.Elaborated.{every, least};
ghost use Rattle.law_typing.specs.Judging.{all_of_them, the_least};
ghost use Rattle.law_rules.specs.Importing.{ImportsAreExact, FirstImportsAreExact, DefinitionImportsAreExact, ImplementationImportsAreExact, FollowingBlocksAreExact};

/// What is reported of the imports of a module are exactly the rules that are broken in them, and behind them the scope knows
/// exactly what they bring. The module's own definition alone may have declared names before, and its procedures may await
/// their headings. What `block_laws` asks for is known where the declarations of the module begin.
pub fn import_laws()
    ensures every_rule { ImportsAreExact every all_of_them }
    ensures least_rule { ImportsAreExact least the_least }
{}

/// The same where a program module begins: nothing is declared there but what every module knows.
pub fn first_import_laws()
    ensures every_rule { FirstImportsAreExact every all_of_them }
    ensures least_rule { FirstImportsAreExact least the_least }
{}

/// The same in a definition: behind its imports the names that it declares are marked, and nothing else is new there.
pub fn definition_import_laws()
    ensures every_rule { DefinitionImportsAreExact every all_of_them }
    ensures least_rule { DefinitionImportsAreExact least the_least }
{}

/// The same in an implementation, where its own definition has declared what it exports.
pub fn implementation_import_laws()
    ensures every_rule { ImplementationImportsAreExact every all_of_them }
    ensures least_rule { ImplementationImportsAreExact least the_least }
{}

/// What is reported of imports and of the declarations behind them are exactly the rules that are broken in both, also where
/// constant expressions of the declarations are read again, if the declarations are as `block_laws` has them.
pub fn following_block_laws()
    ensures every_rule { FollowingBlocksAreExact every all_of_them }
    ensures least_rule { FollowingBlocksAreExact least the_least }
{}
