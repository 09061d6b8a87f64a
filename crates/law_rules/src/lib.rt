//! Laws alone: the rules of the language decide what is answered of a module.
//!
//! `def_typing` has the rules. `law_typing` proves that the checker answers expressions, statements and the declarations of a block
//! by them. Here this is proved of imports, of definitions with what they export, and of blocks with all procedures inside; and
//! then of whole modules, which `build` cites.
//!
//! - `specs/Importing`, `Defining`, `Exports`, `Importers`, `Blocks` and `Bodies` say what is answered of each of them.
//!   `specs/Outside` says what names stand for before imports, `specs/Standing` behind them, and `specs/Tables` which tables are
//!   those of definitions. `specs/Ruled` says what is known of a module by the rules, and what is answered of it.
//! - `importing`, `defining` and `bodies` say which files of `proofs` have what.
//! - `proofs/ModulesTables` says what tables of definitions do not export, and that their procedures are numbered.
//!   `proofs/Predeclared` says what every module knows, and `proofs/Ruled` puts the laws together.
#![tactic(auto)]

mod bodies;
mod defining;
mod importing;

ghost use Rattle.law_rules.specs.Ruled.{DefinitionsAreRuled, ProgramsAreRuled, ImplementationsAreRuled, LonelyAreRefused};

pub use bodies::{implementation_laws, implementation_scope_laws, inner_block_laws, program_laws};
pub use defining::{
    agreeing_name_laws, definition_laws, definition_scope_laws, foreign_table_laws, own_name_laws,
};
pub use importing::{
    definition_import_laws, first_import_laws, following_block_laws, implementation_import_laws,
    import_laws,
};

/// A definition has a table exactly if no rule is broken in it, and a program or an implementation has a typed module exactly if
/// no rule is broken in it. Else the least of the broken rules is reported, by place and then by number. What is reported only if
/// nothing else is comes last. The typed module is the one that the rules of `def_typed` give, and there is no other. The tables
/// that a body imports from are those of definitions. An implementation without a definition is refused.
pub fn rule_laws()
    ensures definitions { DefinitionsAreRuled }
    ensures programs { ProgramsAreRuled }
    ensures implementations { ImplementationsAreRuled }
    ensures lonely { LonelyAreRefused }
{}
