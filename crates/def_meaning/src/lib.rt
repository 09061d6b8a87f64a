//! What programs do by the language's definition. There is no code here but what names the laws.
//!
//! - `specs/Runs` has the run of a program: the bodies of its modules in start order, on fresh variables. `specs/Statements`,
//!   `specs/Expressions` and `specs/Calls` have what their parts do, each loop and the depth of calls within a bound.
//! - `specs/Store` has what variables hold, `specs/Environment` what stands around a part while it runs, `specs/Answer` how a
//!   part ends, and `specs/Operators` what operators make of numbers.
//! - `specs/Whiles` has the same with a WHILE that is bounded in another way, for laws on code.
//! - `specs/Later` says what more time makes of a run, and `specs/Calm` what expressions without calls leave alone.
#![tactic(auto)]

ghost use Rattle.def_meaning.specs.Calm.{ChangesNothing, FindsAlone};
ghost use Rattle.def_meaning.specs.Later.{EndsAlike, PrintsOn};

/// Runs of one program with a bound and with a greater one.
pub fn bound_laws()
    // What has ended stays as it is,
    ensures ends_alike { EndsAlike }
    // and what goes on keeps what it has printed.
    ensures prints_on { PrintsOn }
{}

/// Expressions and designators without calls.
pub fn calm_laws()
    // They change nothing and print nothing:
    ensures changes_nothing { ChangesNothing }
    // neither if a value is asked for, nor if a variable is.
    ensures finds_alone { FindsAlone }
{}
