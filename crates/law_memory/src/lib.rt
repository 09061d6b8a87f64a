//! Memory that holds a store, and what the helpers do with it. There is no code here but what names the laws.
//!
//! - `specs/Cells` says what code does with a cell; the sizes of types and the offsets of components stand in `layout_storage`.
//! - `specs/Relation` says when a memory holds a store: the instances that live stand one after another from address 0.
//! - `specs/Laws` says what holds after a read, a write, a copy, a call's begin and its end.
//! - `specs/Called` says what calls of copy, fill, check, div and mod do, and calls through the table.
//! - `specs/Bodies` says where a run of the function leads that calls the bodies of all modules.
#![tactic(auto)]

ghost use Rattle.law_memory.specs.Laws.{Assigns, Begins, Copies, CopiesArgument, Ends, Reads, ReadsAddress, ReadsLink, ReadsProcedure, Starts, WritesHidden};
ghost use Rattle.law_memory.specs.Bodies.{BodiesCalled, ProgramRuns};
ghost use Rattle.law_memory.specs.Called.{CopyRuns, FillRuns, CopyCalled, FillCalled, CheckCalled, DivCalled, DividesDown, ModCalled, TableCalled};

/// Cells, whole copies, new instances and their ends.
pub fn cell_laws()
    // A variable is read from its cell.
    ensures reads { Reads }
    // A procedure variable holds no procedure, or one with its heading.
    ensures reads_procedure { ReadsProcedure }
    // A variable is written to its cell, and all others stay as they were.
    ensures assigns { Assigns }
    // A whole array or record is copied byte by byte, also onto itself.
    ensures copies { Copies }
    // An activation's variables are fresh in cleared bytes.
    ensures begins { Begins }
    // The last instances end.
    ensures ends { Ends }
{}

/// Room in which no variable stands, copies of arguments, and where all begins.
pub fn room_laws()
    // An argument's copy is an instance of its own.
    ensures copies_argument { CopiesArgument }
    // Addresses, HIGH and links are written beside the variables,
    ensures writes_hidden { WritesHidden }
    // and read as they were written.
    ensures reads_address { ReadsAddress }
    ensures reads_link { ReadsLink }
    // A memory of zeros holds fresh variables.
    ensures starts { Starts }
{}

/// What the helpers' code does, and calls of it.
pub fn helper_laws()
    ensures copy_runs { CopyRuns }
    ensures fill_runs { FillRuns }
    ensures copy_called { CopyCalled }
    ensures fill_called { FillCalled }
    ensures check_called { CheckCalled }
    ensures div_called { DivCalled }
    ensures mod_called { ModCalled }
    // What div and mod leave is the quotient rounded down, and the remainder from 0 up.
    ensures divides_down { DividesDown }
    ensures table_called { TableCalled }
{}

/// What the run of a whole program does: the bodies, one after another.
pub fn program_laws()
    ensures bodies_called { BodiesCalled }
    ensures program_runs { ProgramRuns }
{}
