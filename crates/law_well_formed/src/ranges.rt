//! The trees of texts fit, and what the checker makes has ranges of the language.
//!
//! - `specs/FormedFits` says when tokens fit. `proofs/Folds` has what fits by its variants, `proofs/Spelled` the
//!   induction over the grammar, and `proofs/Tokens` what the scanner gives.
//! - `specs/FormedRanges` says when a value is a number of its type, and a scope knows types with ranges of the
//!   language.
//! - `proofs/Values` has a lemma for each operator and standard function on constants, and `proofs/Constants` those
//!   of constant expressions, with the induction.
//! - `proofs/RangesTypes` has one type more, `proofs/Subranges` subranges, `proofs/RangesMade` type expressions, and
//!   `proofs/RangesDeclarations` the declarations of definitions and of blocks.
//! - `proofs/RangesBlocks` has imports, whole blocks, and the way into procedures and back, and `proofs/RangesTables`
//!   where a module begins, and what it exports.

ghost use Rattle.law_well_formed.specs.FormedFits.{TextsFit, TokensFit, TreesFit};
ghost use Rattle.law_well_formed.specs.FormedRanges.{BlocksAreRanged, ConstantsAreRanged, DeclsAreRanged, DefinitionsAreRanged, DefsAreRanged, EnteredAreRanged, ExportsAreRanged, FirstAreRanged, LeftAreRanged, ModulesAreRanged, ReachedAreRanged, TypesAreRanged};
ghost use Rattle.check_scope.specs.Elaborated.{least, every};

/// The trees of texts fit.
pub fn fits_laws()
    // The tree of tokens that fit, fits.
    ensures trees { TreesFit }
    // The tokens of a text fit,
    ensures tokens { TokensFit }
    // and so does its tree.
    ensures texts { TextsFit }
{}

/// In a scope whose types have ranges of the language, and whose constants are numbers of their types, constant
/// expressions mean numbers of their types, and declarations lead to a scope of the same kind. That is so if the least
/// broken rule is kept, and if all of them are.
pub fn formed_range_laws()
    // Constant expressions mean numbers of their types.
    ensures least_constants { ConstantsAreRanged least }
    ensures every_constants { ConstantsAreRanged every }
    // Type expressions make types with ranges of the language.
    ensures least_types { TypesAreRanged least }
    ensures every_types { TypesAreRanged every }
    // So do the declarations of definitions,
    ensures least_defs { DefsAreRanged least }
    ensures every_defs { DefsAreRanged every }
    // and the declarations of blocks.
    ensures least_decls { DeclsAreRanged least }
    ensures every_decls { DeclsAreRanged every }
{}

/// The same of whole definitions, blocks and modules, and of the way into procedures and back.
pub fn block_range_laws()
    // The imports and the declarations of a definition lead to a scope of this kind,
    ensures least_definitions { DefinitionsAreRanged least }
    ensures every_definitions { DefinitionsAreRanged every }
    // and so do the declarations of a block and of a module.
    ensures least_blocks { BlocksAreRanged least }
    ensures every_blocks { BlocksAreRanged every }
    ensures least_modules { ModulesAreRanged least }
    ensures every_modules { ModulesAreRanged every }
    // The scope in which a procedure's block begins is a scope of this kind,
    ensures least_entered { EnteredAreRanged least }
    ensures every_entered { EnteredAreRanged every }
    // and so is the one behind the procedure.
    ensures least_left { LeftAreRanged least }
    ensures every_left { LeftAreRanged every }
    // A module begins in a scope of this kind, if its tables allow it, and exports constants of this kind.
    ensures least_first { FirstAreRanged least }
    ensures every_first { FirstAreRanged every }
    ensures least_exports { ExportsAreRanged least }
    ensures every_exports { ExportsAreRanged every }
    // The ranges of types go through the tables of definitions.
    ensures reached { ReachedAreRanged }
{}
