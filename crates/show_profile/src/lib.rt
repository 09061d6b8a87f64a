//! What ran of a program, for people and for other programs: as tables, as the source with counts in front, as a flame graph, and in
//! the formats that KCachegrind and lcov read.
#![tactic(auto)]

mod callgrind;
mod cost;
mod flame;
mod lcov;
mod lines;
mod source;
mod tables;

use build_jobs::SourceFile;
pub use cost::{Cost, cost_plot, cost_table};
pub use explain_runs::{Counted, profile_run};
use std::alloc::{AllocError, Global};
pub use tables::{coverage_table, profile_table};

/// A form in which it is written what ran.
#[derive(Clone, Copy, PartialEq, Eq)]
pub enum Form {
    /// The source, with the reductions and the times of each line in front of it.
    Source,
    /// A picture (SVG) of the calls: the wider a function is, the more reductions it took.
    Flame,
    /// The format of callgrind, which KCachegrind opens.
    Callgrind,
    /// The format of lcov: which lines and procedures ran how often.
    Lcov,
}

/// What ran of the program of these files, in a form. The only error is that memory ran out.
pub fn show_counted(
    alloc: Global,
    files: &[SourceFile],
    counted: &Counted,
    form: Form,
) -> Result<String, AllocError> {
    match form {
        Form::Source => source::counted_source(alloc, files, counted),
        Form::Flame => flame::flame_graph(alloc, counted),
        Form::Callgrind => callgrind::callgrind_profile(alloc, files, counted),
        Form::Lcov => lcov::lcov_records(alloc, files, counted),
    }
}
