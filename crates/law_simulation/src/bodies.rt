//! The functions of procedures and of modules do what is asked of them, with calls to every depth.
//!
//! A procedure's function first takes storage, keeps the link and the formals, and copies open arrays. Then its body
//! does what the definition of a run says, and its end gives the result.
//!
//! - `specs/Stage` says what is known while a procedure begins, and `specs/ProceduresLaws` in which scene its body
//!   runs.
//! - `specs/Knot` says what is known of all functions of a program, and `specs/Main` has the law on the bodies of
//!   modules.
//! - `specs/Linked` says what linking gives each module. `specs/BodiesLaws` has the laws on typed bodies in linked
//!   modules, and `specs/BodiesPrograms` the one on whole programs.

ghost use Rattle.law_simulation.specs.BodiesLaws.{Mains, Parts, TypedBodies};
ghost use Rattle.law_simulation.specs.BodiesPrograms.{TypedPrograms};
ghost use Rattle.law_simulation.specs.Main.{MainDoes};
ghost use Rattle.law_simulation.specs.ProceduresLaws.{RoutineDoes};

/// Functions do what is asked of procedures.
pub fn procedure_laws()
    // If the body does what the definition says, the function does what is asked, with fault 8 if storage ends.
    ensures routines { RoutineDoes }
{}

/// The function of a module's body does what its statements do.
pub fn body_laws()
    ensures { MainDoes }
{}

/// Typed bodies do what the definition of a run says.
pub fn typed_body_laws()
    // The body of each procedure, if the functions that it calls do what is asked.
    ensures parts { Parts }
    // The body of each module.
    ensures mains { Mains }
    // The function of each module's body, with calls to every depth.
    ensures bodies { TypedBodies }
    // The linked modules of a whole program.
    ensures programs { TypedPrograms }
{}
