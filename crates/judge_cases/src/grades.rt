//! What comes of all cases of a program.

use crate::case::{Case, Limits};
use crate::compiled::compile_once;
use crate::judging::judge_all;
use crate::verdict::{Judgement, Verdict};
use m2c::{Options, SourceFile};
use std::alloc::{AllocError, Global};
use std::thread::Threads;

/// What comes of all cases of a program.
#[derive(Drop)]
pub enum Grades {
    /// A judgement for each case, in their order.
    Each(Vec<Judgement>),
    /// The program was not compiled: this of all cases.
    All(Judgement),
}

impl Grades {
    /// What comes of each case of a program whose file cannot be read.
    pub fn without_program() -> Grades {
        Grades::All(Judgement::without_run(Verdict::NoProgram))
    }

    /// What came of the case at this place.
    pub fn at(&self, place: usize) -> Option<&Judgement> {
        match self {
            Grades::Each(judgements) => judgements.get(place),
            Grades::All(judgement) => Some(judgement),
        }
    }

    /// How many cases were passed.
    pub fn passed(&self) -> usize {
        match self {
            Grades::Each(judgements) => judgements.iter().filter(|one| one.is_passed()).count(),
            Grades::All(_) => 0,
        }
    }
}

/// Compiles the program of these files once, and judges it by each case.
pub fn grade<R: Threads + Sync>(
    rt: &R,
    alloc: Global,
    files: Vec<SourceFile>,
    options: Options,
    cases: &[Case],
    limits: Limits,
) -> Result<Grades, AllocError> {
    match compile_once(rt, alloc, files, options) {
        Ok(program) => {
            let judgements = judge_all(rt, alloc, &program, cases, limits)?;
            Ok(Grades::Each(judgements))
        }
        Err(verdict) => Ok(Grades::All(Judgement::without_run(verdict))),
    }
}
