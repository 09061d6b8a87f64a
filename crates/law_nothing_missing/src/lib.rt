//! Why the run of a program that the checker accepts never comes to a case that its definition leaves to a default. There is
//! no code here but what names the law.
//!
//! - `specs/Expressions`, `specs/Statements`, `specs/Calls` and `specs/Runs` have the strict meaning: the meaning of
//!   def_meaning, with an end of its own in place of each default.
//! - `specs/Laws` has the law.
#![tactic(auto)]

ghost use Rattle.law_nothing_missing.specs.Laws.{StrictRuns, NothingLacks, MissingLacks, UnknownLacks, NamedLacks, LocalLacks, FiveIsNone};

/// The strict run of a program, which ends with a number of its own if something is lacking.
pub fn whole_run_laws()
    // It is the run, whatever that number is.
    ensures runs { StrictRuns }
    // It does not end with that number.
    ensures nothing { NothingLacks }
    // A program that prints a variable of a module that is not there does,
    ensures missing { MissingLacks }
    // and so does one with a variable whose type is not there, or with a type that names one,
    ensures unknown { UnknownLacks }
    ensures named { NamedLacks }
    // and a call of a procedure with a variable of this kind.
    ensures local { LocalLacks }
    // No predeclared type has the number 5.
    ensures five { FiveIsNone }
{}
