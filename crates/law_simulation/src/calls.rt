//! The code of what calls need does what the definition of a run says: values that are taken for others, whole
//! copies, strings and results, formals and variables of procedures, arguments, and calls.
//!
//! - `specs/Frames` says what the formals and variables of a procedure, and of those around it, stand for.
//! - `specs/Passing` says what calls pass and give, and when a function does what is asked of a procedure.
//! - `specs/CallsLaws` has the laws, and `specs/Held` those on values of procedure types and on results.

ghost use Rattle.law_simulation.specs.CallsLaws.{Aliases, Copies, Gives, Highs, Locals, OpenArrays, OpenElements, ProcedureValues, Strings, Taken};
ghost use Rattle.law_simulation.specs.Held.{HeldAssigns, HeldCalls, HeldGives, HeldLoads, HeldNumbers, HeldPasses, HeldProcedures, HeldResults, HeldTaken, NumberResults};

/// Values, copies and results.
pub fn value_laws()
    // A value is taken as one of another type.
    ensures taken { Taken }
    // A procedure of a module as a value.
    ensures procedure_values { ProcedureValues }
    // Whole arrays and records are copied.
    ensures copies { Copies }
    // Strings are assigned to arrays of characters.
    ensures strings { Strings }
    // RETURN with a value.
    ensures gives { Gives }
    // The result of a function is a number of its type.
    ensures number_results { NumberResults }
{}

/// Formals and variables of procedures.
pub fn slot_laws()
    // Of the procedure itself, or of one around it.
    ensures locals { Locals }
    // A VAR formal is another name of a variable.
    ensures aliases { Aliases }
    // Open arrays, their elements (fault 3 outside), and HIGH.
    ensures open_arrays { OpenArrays }
    ensures open_elements { OpenElements }
    ensures highs { Highs }
{}

/// Values of procedure types.
pub fn held_laws()
    // A procedure variable, a procedure of a module and the result of a function give them.
    ensures loads { HeldLoads }
    ensures procedures { HeldProcedures }
    ensures results { HeldResults }
    // They are compared as numbers,
    ensures numbers { HeldNumbers }
    // and taken without a check, assigned, passed and returned.
    ensures taken { HeldTaken }
    ensures assigns { HeldAssigns }
    ensures passes { HeldPasses }
    ensures gives { HeldGives }
    // In a call a procedure's number is kept while its arguments are evaluated, and 0 is fault 7.
    ensures calls { HeldCalls }
{}
