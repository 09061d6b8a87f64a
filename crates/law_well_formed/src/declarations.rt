//! Declarations lead from scopes whose names mean what is there to scopes of the same kind, names keep their numbers,
//! and a procedure's block begins with the types of its heading.
//!
//! - `specs/FormedScopes` says when names are formed, and what a declaration keeps. `proofs/Names` and
//!   `proofs/ScopesGrowth` have one name more and one type more, and `proofs/ScopesDeclarations` all declarations of
//!   a block.
//! - `specs/FormedNumbers` says when names carry the numbers under which their scope has them. `proofs/NumbersGrowth`
//!   and `proofs/NumbersDeclarations` are as above, and `proofs/Entered` has where the block of a procedure begins.
//! - `specs/FormedHeadings` has a block up to one of its declarations, and what stands behind it.
//!   `proofs/HeadingsLists` and `proofs/HeadingsSteps` say what one name more leaves as it was,
//!   `proofs/HeadingsTypeExprs` and `proofs/HeadingsDeclarations` that a declaration changes only names that it
//!   marks, `proofs/Resolving` that names of types are found again, `proofs/Agreeing` that headings which agree are
//!   equal, and `proofs/Headings` what a heading leaves under its name.

ghost use Rattle.law_well_formed.specs.FormedHeadings.{HeadingsStay, NamesStay};
ghost use Rattle.law_well_formed.specs.FormedNumbers.{DeclarationsNumber, EnteredNumbers};
ghost use Rattle.law_well_formed.specs.FormedScopes.{DeclarationsLead};
ghost use Rattle.check_scope.specs.Elaborated.{least, every};

/// Declarations lead from formed names to formed names.
pub fn formed_scope_laws()
    // That is so if the least broken rule is kept,
    ensures least { DeclarationsLead least }
    // and if all of them are.
    ensures every { DeclarationsLead every }
{}

/// Names are numbered, if the least broken rule is kept, and if all of them are.
pub fn formed_number_laws()
    // Declarations lead from numbered names to numbered names.
    ensures least { DeclarationsNumber least }
    ensures every { DeclarationsNumber every }
    // The block of a procedure begins with its formals under their numbers.
    ensures least_entered { EnteredNumbers least }
    ensures every_entered { EnteredNumbers every }
{}

/// What a heading is where it is declared it is where its procedure's block begins, whether the least broken rule is kept or
/// all of them are.
pub fn formed_heading_laws()
    // A type that has a name where a heading is declared has it where the block begins.
    ensures least { NamesStay least }
    ensures every { NamesStay every }
    // The type of the heading has the formals and the result that are computed there.
    ensures least_headings { HeadingsStay least }
    ensures every_headings { HeadingsStay every }
{}
