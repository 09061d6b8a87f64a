//! Why the modules of well formed programs are valid, and why they link. There is no code here but what names the laws.
//!
//! Valid modules:
//!
//! - `specs/WellFormed` says what stands in a typed tree whose every construct has code, and `specs/Valid` what is valid.
//! - `proofs/Leading` has instructions in a row, `proofs/Fits` code in the making, and `proofs/Parts` its fixed pieces.
//! - `proofs/Exprs` and `proofs/Steps` have a lemma for each construct (`proofs/Cases` for CASE), and `proofs/Values`
//!   and `proofs/Statements` the inductions; `proofs/Opened` opens one layer of a tree.
//! - `proofs/Numbers` has the numbers of types of functions, `proofs/Own` what a module has, `proofs/Functions` its
//!   functions, `proofs/Modules` the whole, and `proofs/LinkModule` the module link.
//!
//! Linked modules:
//!
//! - `specs/Linked` says what stands in the store once link and the bodies are linked, and which programs have room for it.
//! - `proofs/Stores` has one module more in this store, and what stands where; `proofs/Links` links the module link and
//!   answers a body's imports; `proofs/Placed` puts its functions into the table and its texts into the memory.
//!
//! Types whose ranges are ranges of the language:
//!
//! - `specs/Ranges` says what these ranges are, and `proofs/Known` finds the range of a type that is known.
#![tactic(auto)]

ghost use Rattle.law_modules.specs.Linked.{ModulesLink};
ghost use Rattle.law_modules.specs.Ranges.{RangesAreKnown};
ghost use Rattle.law_modules.specs.Valid.{ModulesAreValid, LinkIsValid};

/// The modules of well formed programs are valid.
pub fn valid_laws()
    // The module of each body is,
    ensures modules { ModulesAreValid }
    // and so is the one that owns the memory and the table.
    ensures link { LinkIsValid }
{}

/// The modules of a program link, the module link first.
pub fn link_laws()
    ensures { ModulesLink }
{}

/// Types whose ranges are ranges of the language.
pub fn range_laws()
    ensures { RangesAreKnown }
{}
