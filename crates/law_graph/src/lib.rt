//! Laws of import graphs. There is no code here but what names the law.
//!
//! - `specs/Started` says what a compiler may rely on: the modules that start are bodies with names of their own, and
//!   whatever one of them or its definition imports starts too. `proofs/Started` proves this of each graph that
//!   `m2_graph` answers.
//! - `specs/Outcomes` says that all files have a graph or are refused, and `proofs/Outcomes` proves it. Files have an order
//!   (`proofs/Inserting`), each walk comes to an end (`proofs/Entering`), so it is decided which chains of pairs there are
//!   (`proofs/Leading`), with it what is reported of cycles (`proofs/Returning`), and definitions have their numbers
//!   (`proofs/Numbering`). `proofs/Turned` finds the order in which each job is seen to compile a file of its own.
//! - `proofs/Once` proves that files have at most one graph, at most one list of refusals, and never both.
//! - `specs/Defined` says that what a definition imports is what the definition of its name imports; `proofs/Defined`
//!   proves this of each of these graphs.
//! - `proofs/Sorting` proves for any order that a list which is in order, and in which those that tie stand as they
//!   were given, is the only one.
#![tactic(auto)]

ghost use Rattle.law_graph.specs.Outcomes.{GraphOrRefusal};

/// All files have a graph, or they are refused.
pub fn graph_or_refusal()
    ensures { GraphOrRefusal }
{}
