//! The modules that the checker accepts are well formed, and stand on the modules that they import and on no others.
//!
//! - `specs/FormedImports` says the latter. `proofs/NamedTables` and `proofs/ImportsWalks` say that no declaration
//!   and no body changes the tables of a scope, by the induction over bodies in `proofs/BodyFolds`.
//!   `proofs/ImportsLists` has what is done with lists of names, and `proofs/NamedImports` the laws.
//! - `specs/FormedTables` says what the table of a definition exports. `proofs/Own` and `proofs/Exports` say that it
//!   is the module's own. `proofs/Order` has the order of procedures among the names of a block, and `proofs/Numbers`
//!   that they are exported in it: declarations keep it (`proofs/TablesSteps`), and take the names that they mark
//!   (`proofs/Takes`), so each procedure stands behind those before it (`proofs/TablesDefinitions`).
//! - `specs/FormedModules` says what the tables have to be by which a body is checked. `proofs/Opens` has the modules
//!   that names may stand for, `proofs/ModulesSteps` the declarations of a module and the numbers of its procedures,
//!   `proofs/Heads` their headings, `proofs/ModulesProcedures` their bodies, `proofs/ModulesBegins` where a module
//!   begins, and `proofs/WholeModules` whole modules.
//! - `specs/FormedFrames` says where procedures stand, when frames have room, and what the characters of texts are.
//!   `proofs/Rooms` has the frames, `proofs/Nested` one procedure in a procedure, `proofs/FramesBlocks` the
//!   procedures of a block and blocks in blocks, `proofs/FramesProcedures` those of a module, and
//!   `proofs/FramesModules` whole modules.

ghost use Rattle.law_well_formed.specs.FormedFrames.{FramesHaveRoom, ModulesAreNested};
ghost use Rattle.law_well_formed.specs.FormedImports.{TablesNameImports, ModulesNameImports};
ghost use Rattle.law_well_formed.specs.FormedModules.{ModulesAreFormed};
ghost use Rattle.law_well_formed.specs.FormedTables.{TablesExportOwn, TablesNumberProcedures};
ghost use Rattle.check_scope.specs.Elaborated.{least, every};

/// The modules that a table or a typed module names are imported.
pub fn import_laws()
    // That is so of tables if the least broken rule is kept,
    ensures tables_least { TablesNameImports least }
    // and if all of them are,
    ensures tables_every { TablesNameImports every }
    // and of typed modules.
    ensures least { ModulesNameImports least }
    ensures every { ModulesNameImports every }
{}

/// What the table of a definition exports is the module's own, and the procedures among it are numbered in their order.
pub fn table_laws()
    // That is so if the least broken rule is kept,
    ensures least { TablesExportOwn least × TablesNumberProcedures least }
    // and if all of them are.
    ensures every { TablesExportOwn every × TablesNumberProcedures every }
{}

/// The modules of bodies are well formed.
pub fn formed_module_laws()
    // That is so if the least broken rule is kept,
    ensures least { ModulesAreFormed least }
    // and if all of them are.
    ensures every { ModulesAreFormed every }
{}

/// Frames that the build accepts have room, texts are bytes, and each procedure stands in a procedure that is there, or in
/// none.
pub fn frame_laws()
    // What the build accepts has frames of less than two gigabytes.
    ensures room { FramesHaveRoom }
    // Procedures stand where they are to stand, if the least broken rule is kept,
    ensures least { ModulesAreNested least }
    // and if all of them are.
    ensures every { ModulesAreNested every }
{}
