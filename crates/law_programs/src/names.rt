//! The names of a scope mean what is there, and declarations keep it so.
//!
//! - `specs/Scopes` says when names are typed, block by block, and `proofs/Scoping` that this is enough.
//!   `specs/Names` says what each sort of name asks for, and `proofs/Naming` that the names of a block are typed
//!   then.
//! - `specs/Carried` says what declarations carry on: arrays have indices of scalar types, the variables of a module
//!   stand where their names say, and sets that are constants have 32 bits (`proofs/Words`).
//! - `proofs/Denoting` has constant expressions, `proofs/Carrying` and `proofs/Declaring` declarations,
//!   `proofs/Bounding` the way into procedures and back, `proofs/Entering` formals, `proofs/Reaching` tables,
//!   `proofs/Exporting` what modules export, and `proofs/Walking` whole bodies.

ghost use Rattle.check_scope.specs.Elaborated.{least, every};
ghost use Rattle.law_programs.specs.Carried.{BlocksCarry, BodiesCarry, ConstantsAreWords, DeclsCarry, DefinitionsCarry, DefsCarry, FormalsAreSlots, FormalsStay, ImplementationsAreWords, ImplementationsCarry, IndexedAreKnown, ModulesCarry, ModulesHaveNoSlots, ProceduresStay, ReachedStay, TablesCarry, WordsCarry};
ghost use Rattle.law_programs.specs.Names.{NamesAreTyped, VariablesAreThere};
ghost use Rattle.law_programs.specs.Scopes.{BlocksStay, ScopesAreTyped, SlotsAreKinds};

/// If the names of a scope are typed block by block, they mean what is there. That is so if the least broken rule is
/// kept, and if all of them are.
pub fn scope_laws()
    // Names mean what is there,
    ensures least_scopes { ScopesAreTyped least }
    ensures every_scopes { ScopesAreTyped every }
    // and the blocks around stay so in a procedure.
    ensures least_blocks { BlocksStay least }
    ensures every_blocks { BlocksStay every }
    // Formals and variables have their kinds in the frame of their procedure,
    ensures slots { SlotsAreKinds }
    // formals are the first variables of the procedure's scope,
    ensures least_formals { FormalsAreSlots least }
    ensures every_formals { FormalsAreSlots every }
    // and they are the same in all scopes in which names of types mean the same.
    ensures least_same { FormalsStay least }
    ensures every_same { FormalsStay every }
    // A variable of a module that is known is there,
    ensures variables { VariablesAreThere }
    // and the names of a block are typed, if all sorts of them stand where they say.
    ensures least_names { NamesAreTyped least }
    ensures every_names { NamesAreTyped every }
{}

/// Declarations carry on from scope to scope: arrays have indices of scalar types, variables stand where their names
/// say, and sets that are constants have 32 bits. That is so if the least broken rule is kept, and if all of them are.
pub fn carried_laws()
    // The declarations of definitions carry on,
    ensures least_defs { DefsCarry least }
    ensures every_defs { DefsCarry every }
    // the declarations of blocks,
    ensures least_decls { DeclsCarry least }
    ensures every_decls { DeclsCarry every }
    ensures least_blocks { BlocksCarry least }
    ensures every_blocks { BlocksCarry every }
    // whole definitions and whole modules,
    ensures least_definitions { DefinitionsCarry least }
    ensures every_definitions { DefinitionsCarry every }
    ensures least_modules { ModulesCarry least }
    ensures every_modules { ModulesCarry every }
    // and the ways into procedures and back leave the types as they are.
    ensures least_procedures { ProceduresStay least }
    ensures every_procedures { ProceduresStay every }
    // Constant expressions mean sets of 32 bits, and so do the names that a module exports.
    ensures least_constants { ConstantsAreWords least }
    ensures every_constants { ConstantsAreWords every }
    ensures least_words { WordsCarry least }
    ensures every_words { WordsCarry every }
    ensures least_own { ImplementationsAreWords least }
    ensures every_own { ImplementationsAreWords every }
    // Modules have no variables of procedures.
    ensures least_free { ModulesHaveNoSlots least }
    ensures every_free { ModulesHaveNoSlots every }
    // Indices go through tables,
    ensures tables { TablesCarry }
    ensures reached { ReachedStay }
    // and through whole bodies,
    ensures implementations { ImplementationsCarry }
    ensures least_bodies { BodiesCarry least }
    ensures every_bodies { BodiesCarry every }
    // and so the index of an array that is known has a range.
    ensures indexed { IndexedAreKnown }
{}
