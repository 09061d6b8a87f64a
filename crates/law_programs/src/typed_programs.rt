//! The modules of a graph are typed, since what their bodies ask for is there.
//!
//! - `specs/TypingWants` says that procedures with bodies stand in the order of bodies (`proofs/Orders`), and when
//!   what bodies ask for is there (`proofs/Provided`).
//! - `specs/TypingTables` says what stands of the tables that jobs make, and where their bodies begin. `proofs/Done`
//!   has the variables and procedures of a block in the order of their names, `proofs/Counting` that they stand in
//!   its lists, `proofs/GraphsSteps` that other declarations keep it, `proofs/Definitions` that it is so behind a
//!   definition, and `proofs/Exported` what is exported of them. `proofs/Reached` has what is asked of tables, and
//!   `proofs/Tables` that jobs make them. `proofs/Begins` has where a body begins, `proofs/Walked` what it comes to,
//!   and `proofs/Bodies` all bodies.
//! - `specs/TypingNames` says which names are meant, also where they stand for what other modules export.
//!   `proofs/Brought` has what imports bring into a module's block, `proofs/Preserved` that declarations keep it,
//!   `proofs/Begun` the names of that block, and `proofs/Around` the predeclared ones. `proofs/HeadingsAgree` has
//!   what two modules know of a heading that a table exports, `proofs/Imported` what stands among imports,
//!   `proofs/Whole` what the modules of a program are by their tables, and `proofs/Exports` that what a table exports
//!   is there. `proofs/NamesThere` puts all together.
//! - `specs/TypingGraphs` says which modules are typed so. `proofs/BlockNames` has the names of a module's block
//!   typed, and `proofs/TypedModules` puts together what is known of a module.

ghost use Rattle.check_scope.specs.Elaborated.{least, every};
ghost use Rattle.law_programs.specs.TypingGraphs.{GraphsAreTyped};
ghost use Rattle.law_programs.specs.TypingNames.{NamesAreThere};
ghost use Rattle.law_programs.specs.TypingTables.{BodiesStand, TablesStand};
ghost use Rattle.law_programs.specs.TypingWants.{BodiesAreOrdered, BodiesAreProvided, BodiesMakeModules};

/// In each module that the checker makes, what its bodies ask for is there.
pub fn typing_want_laws()
    // Each procedure with a body stands in the order of bodies, if the least broken rule is kept,
    ensures least { BodiesAreOrdered least }
    // and if all of them are.
    ensures every { BodiesAreOrdered every }
    // So the texts of each body, and the types of its calls, are where the code looks for them,
    ensures provided { BodiesAreProvided }
    // and a module of typed bodies is typed.
    ensures modules { BodiesMakeModules }
{}

/// What a definition exports stands under its number. Each body begins where its names and its types stand.
pub fn typing_table_laws()
    // The tables that jobs make stand so,
    ensures tables { TablesStand }
    // and so do the bodies.
    ensures bodies { BodiesStand }
{}

/// The names of the modules of a graph mean what is there.
pub fn typing_name_laws()
    ensures { NamesAreThere }
{}

/// The modules that the jobs of a graph make are typed.
pub fn typing_graph_laws()
    ensures { GraphsAreTyped }
{}
