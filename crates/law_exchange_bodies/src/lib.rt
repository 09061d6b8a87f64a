//! Laws alone: what the checker answers of a body moves with the numbers of the modules.
//!
//! In a build of a whole program a module has another number than where it is compiled alone, and so have those that it
//! imports. The typed module of a body is the same, with these numbers exchanged.
//!
//! - `specs/Modules` says what moves: procedures with their bodies, walks over blocks, and typed modules. `specs/Laws` has
//!   the law.
//! - Each function of the checker of blocks and bodies has a law in `proofs/`, in a file for each of its files: `Agreeing` to
//!   `Declarations` of blocks, `Own` to `Checked` of bodies. `Bodies` has the induction over blocks.
#![tactic(auto)]

ghost use Rattle.law_exchange_bodies.specs.Laws.{BodiesMove};

/// The typed modules of program and implementation modules. The number of Console stays, since its table is the checker's own.
pub fn body_laws()
    ensures bodies { BodiesMove }
{}
