//! The linked modules of a program do what the program does.
//!
//! - `specs/Behaves` says what it is for a machine's run to be the run of a program, and `specs/Bodies` when the
//!   function of a body does what its statements do. If those of all bodies do, so does the program.
//! - `specs/RunsPrograms` says what stands in the memory and in the table when a program begins.
//! - `specs/TypesLaws` says what storage and values have if all ranges are ranges of the language, as `specs/Ranges`
//!   of `law_modules` has them.
//! - `specs/Knows` says what a module knows of the others, and `specs/Modules` what is known of the modules of a
//!   program and of the trees of their bodies. `specs/LinkedLaws` has the laws: the code of a linked program finds
//!   what it looks for, and modules that are as the checker leaves them do what the program does.

ghost use Rattle.law_simulation.specs.Bodies.{BodiesBehave};
ghost use Rattle.law_simulation.specs.LinkedLaws.{ModulesLinked, TypedBehave};
ghost use Rattle.law_simulation.specs.RunsPrograms.{ProgramBehaves};
ghost use Rattle.law_simulation.specs.TypesLaws.{FormalsArePlain, FramesFit, ModulesFit, ProceduresAreCells, RangesAreSmall, ScalarsAreCells, SetsAreCells, TreesArePlain};

/// Link's run calls the bodies in start order. If each does what its statements do, the whole run ends as the program's
/// run does, goes on as it does, and prints the same.
pub fn program_laws()
    ensures bodies { BodiesBehave }
    // The modules link; the memory that link begins with holds the first store, and its table has the bodies.
    ensures programs { ProgramBehaves }
{}

/// Types whose ranges are ranges of the language.
pub fn type_laws()
    // Variables have no hidden room, and their cells are scalars of the language.
    ensures plain { TreesArePlain }
    ensures small { RangesAreSmall }
    // A variable of a scalar type has one cell, which holds the numbers of the type.
    ensures cells { ScalarsAreCells }
    // One of a set type has a cell for numbers of 32 bits, and one of a procedure type one for procedures with its heading.
    ensures sets { SetsAreCells }
    ensures procedures { ProceduresAreCells }
    // What is passed and what stands in frames and modules fits.
    ensures formals { FormalsArePlain }
    ensures frames { FramesFit }
    ensures modules { ModulesFit }
{}

/// Linking gives each module what the code of typed bodies looks for: variables, texts, slots of the table, functions.
pub fn linked_laws()
    ensures modules { ModulesLinked }
    // The modules link, and do what the program does.
    ensures programs { TypedBehave }
{}
