//! Laws alone: what small steps keep, all that is made of them keeps. A relation between the scope before and the scope
//! behind is shown of the entry of one name and of one new type. Then it holds of marks, types, imports, definitions and
//! whole blocks.
//!
//! - `proofs/Orders` says which relations can be followed through a walk (`IsOrder`). A fact that stays is one (`fact`).
//! - `proofs/TypeFolds` has the induction over type expressions, for any fact of a tree and what a function gives for
//!   it (`all_trees`), and what marks and types are of a tree whose layer is known.
//! - `proofs/MarkSteps` has marks (`KeepsMarks`), and `proofs/TypeSteps` types (`KeepsShapes`).
//! - `proofs/ImportSteps` has imports (`KeepsImports`), also where something is known of what the tables export
//!   (`KeepsExports`).
//! - `proofs/NameSteps` has constants, types and variables (`KeepsNames`), `proofs/DefinitionSteps` definitions
//!   (`KeepsDefinitions`), and `proofs/BlockSteps` blocks (`KeepsBlocks`).
//! - `proofs/AgainSteps` says of constant expressions that are read again behind all headings: if nothing is reported
//!   there, nothing was reported before (`decls_report`, `defs_report`).
//!
//! Each of these records has the small steps, and the functions behind it the walks.
#![tactic(auto)]
