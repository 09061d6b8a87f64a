//! What the checker makes has types in order, and what modules know of the types of others is in order too.
//!
//! - `specs/Ordered` says when types stand in order. `proofs/Trees` has the trees of one module and of those before
//!   it, and `proofs/Shaped` the trees of all types.
//! - `specs/FormedOrder` says when a scope knows types in order. `proofs/OrderTypes` has one type more,
//!   `proofs/Named` what names mean, `proofs/OrderMade` type expressions, `proofs/OrderDeclarations` declarations,
//!   `proofs/OrderBlocks` whole blocks, with the way into procedures and back, and `proofs/OrderTables` where a
//!   module begins, and what it exports.
//! - `specs/FormedKnown` says what the tables of definitions reach. `proofs/Gathered` has all that they reach,
//!   `proofs/KnownBegins` where modules begin, `proofs/KnownDefinitions` the table of a definition, and
//!   `proofs/KnownWalks` the bodies of procedures, with the induction over blocks.
//! - `specs/FormedSizes` says that types have few bytes. `proofs/Cells` has the cells of types that stay known,
//!   `proofs/Prefixes` the induction over types in order, and `proofs/Sizes` their bytes.

ghost use Rattle.law_well_formed.specs.FormedKnown.{BodiesAreFormed, TablesAreFormed};
ghost use Rattle.law_well_formed.specs.FormedOrder.{BlocksAreOrdered, DeclsAreOrdered, DefinitionsAreOrdered, DefsAreOrdered, EnteredAreOrdered, ExportsAreOrdered, FirstAreOrdered, LeftAreOrdered, ModulesAreOrdered, TypesAreOrdered};
ghost use Rattle.law_well_formed.specs.FormedSizes.{TypesFit, BodiesHaveSizes};
ghost use Rattle.law_well_formed.specs.Ordered.{NamedAreKnown, TreesAreByShape, TypesAreWhole};
ghost use Rattle.check_scope.specs.Elaborated.{least, every};

/// What is so if types stand in order.
pub fn ordered_laws()
    // The tree of a type is by its shape,
    ensures trees { TreesAreByShape }
    // the types that it names are known,
    ensures named { NamedAreKnown }
    // and are there.
    ensures whole { TypesAreWhole }
{}

/// Declarations lead from scopes whose types stand in order to scopes of the same kind. That is so if the least broken
/// rule is kept, and if all of them are.
pub fn formed_order_laws()
    // Type expressions make types in order.
    ensures least_types { TypesAreOrdered least }
    ensures every_types { TypesAreOrdered every }
    // So do the declarations of definitions,
    ensures least_defs { DefsAreOrdered least }
    ensures every_defs { DefsAreOrdered every }
    // and the declarations of blocks,
    ensures least_decls { DeclsAreOrdered least }
    ensures every_decls { DeclsAreOrdered every }
    // whole definitions,
    ensures least_definitions { DefinitionsAreOrdered least }
    ensures every_definitions { DefinitionsAreOrdered every }
    // whole blocks,
    ensures least_blocks { BlocksAreOrdered least }
    ensures every_blocks { BlocksAreOrdered every }
    // and whole modules.
    ensures least_modules { ModulesAreOrdered least }
    ensures every_modules { ModulesAreOrdered every }
{}

/// The same of the way into procedures and back, and of where a module begins.
pub fn order_bound_laws()
    // The scope in which a procedure's block begins is a scope of this kind,
    ensures least_entered { EnteredAreOrdered least }
    ensures every_entered { EnteredAreOrdered every }
    // and so is the one behind the procedure.
    ensures least_left { LeftAreOrdered least }
    ensures every_left { LeftAreOrdered every }
    // A module begins in a scope of this kind, if its tables allow it, and what it exports means types of this kind.
    ensures least_first { FirstAreOrdered least }
    ensures every_first { FirstAreOrdered every }
    ensures least_exports { ExportsAreOrdered least }
    ensures every_exports { ExportsAreOrdered every }
{}

/// Tables of definitions reach types in order, with ranges of the language, and so the modules of bodies know these
/// types. That is so if the least broken rule is kept, and if all of them are.
pub fn formed_known_laws()
    // Tables reach these types,
    ensures least_tables { TablesAreFormed least }
    ensures every_tables { TablesAreFormed every }
    // and the modules of bodies know these types.
    ensures least_bodies { BodiesAreFormed least }
    ensures every_bodies { BodiesAreFormed every }
{}

/// All types that the module of a body knows have few bytes, so that none of their sizes and offsets is cut.
pub fn formed_size_laws()
    // That holds for all types in order with ranges of the language,
    ensures types { TypesFit }
    // and so for bodies, if the least broken rule is kept,
    ensures least { BodiesHaveSizes least }
    // and if all of them are.
    ensures every { BodiesHaveSizes every }
{}
