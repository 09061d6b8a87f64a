//! The code of whole trees does what the definition of a run says.
//!
//! - `specs/TreesTyped` says which expressions, designators and calls have parts of the types that their constructs
//!   ask for, and `specs/StmtsTyped` which statements do.
//! - `specs/Fitting` says in which scenes the code of a tree runs, and `specs/Placed` what it is to have the texts
//!   where the module has them.
//! - `specs/TreesLaws` and `specs/StmtsLaws` have the laws.

ghost use Rattle.law_simulation.specs.StmtsLaws.{Bodies, Stays};
ghost use Rattle.law_simulation.specs.TreesLaws.{CallsOf, Exprs, Places, ProcedureExprs};

/// The code of typed trees, at every depth.
pub fn tree_laws()
    // An expression's code leaves its value, which is one of its type.
    ensures exprs { Exprs }
    // Of one of a procedure type it is the number of a procedure with the type's heading, or of none.
    ensures procedure_exprs { ProcedureExprs }
    // A designator's code leaves the address of its location.
    ensures places { Places }
    // A call's code runs the procedure with its arguments, and leaves its result.
    ensures calls { CallsOf }
{}

/// The code of typed statements, at every depth.
pub fn statement_tree_laws()
    // The code of a body does what its statements do.
    ensures bodies { Bodies }
    // EXIT does not leave a body.
    ensures stays { Stays }
{}
