//! The bodies of procedures and of modules are typed.
//!
//! - `specs/Words` says of the constants of all scopes of a walk that sets have 32 bits. `specs/TypingBodies` says
//!   where the trees of a module stand, when names mean what is there, and what is asked of headings and of scopes.
//! - `proofs/Shifting` has one frame more in front, `proofs/Scopes` scopes whose names mean what is there, and
//!   `proofs/Own` the own names of a procedure's block. `proofs/Locals` says that it declares no names but local
//!   ones, and `proofs/Agreeing` that headings agree with what is computed where their blocks begin.
//! - `proofs/Entered` has where a block begins, `proofs/Nested` one procedure in a procedure, `proofs/BodiesBlocks`
//!   the bodies of a block, and `proofs/Induction` blocks in blocks.
//! - `proofs/Outermost` has the procedures of a module, `proofs/Apart` that they have different numbers, and
//!   `proofs/Modules` whole modules.

ghost use Rattle.check_scope.specs.Elaborated.{least, every};
ghost use Rattle.law_programs.specs.TypingBodies.{BlocksAreTyped, ModulesAreTyped};

/// The bodies of the procedures in a procedure's block are typed, and so is its own. So are the bodies of a module.
pub fn typing_body_laws()
    // That is so if the least broken rule is kept,
    ensures least { BlocksAreTyped least }
    // and if all of them are.
    ensures every { BlocksAreTyped every }
    // The same is so of modules.
    ensures least_modules { ModulesAreTyped least }
    ensures every_modules { ModulesAreTyped every }
{}
