//! The modules of every graph are well formed, and so valid, and they are as the code of their bodies asks.
//!
//! - `specs/FormedPrograms` says of all that the jobs of a graph make of bodies that it is well formed, and its
//!   modules valid. `proofs/ValidPrograms` has the tables that jobs make, and what becomes of bodies by them;
//!   `proofs/Links` has link.
//! - `specs/FormedReach` says that the modules of bodies know types in order, and `proofs/Reach` has the types that
//!   tables reach.
//! - `specs/FormedCoherent` says that what a module knows of the others is as they have it. `proofs/TreesAgree` has
//!   the trees of types that two modules know, `proofs/Kept` what declarations keep, `proofs/CoherentBodies` what the
//!   module of a body knows, `proofs/Imports` what it imports, and `proofs/Graphs` the bodies that start.
//!   `proofs/GraphsPrograms` puts them together.
//! - `specs/FormedTrees` says which modules fit with all that stands in them. `proofs/Fits` says it of each part of
//!   the grammar, `proofs/Exprs`, `proofs/Stmts` and `proofs/GraphsBlocks` of its variants, and `proofs/Rules` has
//!   the induction.
//! - `specs/FormedGraphs` says which modules of a graph are meant, and `proofs/GraphModules` that they are as their
//!   code asks.

ghost use Rattle.law_programs.specs.FormedCoherent.{GraphsAreCoherent, GraphsAreWhole, ProgramsAreCoherent};
ghost use Rattle.law_programs.specs.FormedGraphs.{GraphsAreModules};
ghost use Rattle.law_programs.specs.FormedPrograms.{ProgramsAreFormed, ProgramsAreValid, LinksAreValid};
ghost use Rattle.law_programs.specs.FormedReach.{BodiesKnowTypes, TablesReachSame};
ghost use Rattle.law_programs.specs.FormedTrees.{TextsFit, TreesFit};

/// What the jobs of a graph make of bodies is well formed, and its module is valid.
pub fn formed_program_laws()
    // Of all that a job makes of a body,
    ensures formed { ProgramsAreFormed }
    // of the module that it is compiled to,
    ensures valid { ProgramsAreValid }
    // and of link.
    ensures links { LinksAreValid }
{}

/// All tables that jobs make reach the same types of each module, so the modules of bodies know types in order, with ranges
/// of the language.
pub fn formed_reach_laws()
    ensures tables { TablesReachSame }
    ensures bodies { BodiesKnowTypes }
{}

/// The modules of a program know one another's variables.
pub fn coherent_laws()
    // Those that jobs make do, if they are a whole program,
    ensures programs { ProgramsAreCoherent }
    // which the bodies are that start by a graph.
    ensures graphs { GraphsAreWhole }
    // So the modules of each program of this kind do, and they know types in order, with ranges of the language.
    ensures coherent { GraphsAreCoherent }
{}

/// The tree of a text fits, with all statements in it.
pub fn formed_tree_laws()
    // The tree of tokens that fit, fits,
    ensures trees { TreesFit }
    // and so does the tree of a text.
    ensures texts { TextsFit }
{}

/// The modules that the jobs of a graph make are as the code of their bodies asks.
pub fn graph_laws()
    ensures { GraphsAreModules }
{}
