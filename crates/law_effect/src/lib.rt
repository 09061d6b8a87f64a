//! What nested code does, as a function of its state, and that the machine does it. There is no code here but what names
//! the laws.
//!
//! - `specs/Effect` has the function: code falls through, branches, returns, ends the run, traps, or still runs, if
//!   each loop is begun at most this many times and calls nest at most this deep.
//! - `specs/Laws` says how the machine's run follows it; `proofs/Steps` has one equation for each instruction.
#![tactic(auto)]

ghost use Rattle.law_effect.specs.Laws.{Follows, NestedFollows, NestedOnly, NestedPrints, NestedRuns, Only, Prints, Runs};

/// The machine does what the effect of the code says, and nothing else.
pub fn effect_laws()
    // From each configuration with this code in front the machine comes to what the effect says.
    ensures follows { Follows }
    // So does a whole run that begins in a function.
    ensures runs { Runs }
    // A run that is over is what the effect says.
    ensures only { Only }
    // What a run has printed is a beginning of what the effect prints.
    ensures prints { Prints }
    // The same if the calls of some functions, which serve the others, do not count.
    ensures nested_follows { NestedFollows }
    ensures nested_runs { NestedRuns }
    ensures nested_only { NestedOnly }
    ensures nested_prints { NestedPrints }
{}
