//! A case is judged.

ghost use Rattle.std.specs.Prelude.{◌≡◌, ◌≢◌, ◌↔◌, ◌+◌, ◌<◌, ◌^◌, Ok};

use crate::case::{Case, Limits};
use crate::compiled::{Compiled, modules_with};
use crate::excerpt::mismatch_at;
use crate::places::first_difference;
use crate::verdict::{Judgement, Verdict};
use memory_streams::Screen;
use std::alloc::{AllocError, Global};
use std::thread;
use std::thread::Threads;
use wasm_core::ValidModule;
use wasm_engine::{End, Instances, RunFault};

/// How many reductions are made at once.
const SLICE: u64 = 4096;

/// Where a run came to, and how many reductions it had made when the last slice began.
#[derive(Clone, Copy)]
struct Course {
    end: Result<End, RunFault>,
    before: u64,
}

/// How many of the cases each worker takes.
fn share_of(cases: usize, workers: usize) -> usize
    ensures { 0 < result }
{
    cases.div_ceil(workers.max(1)).max(1)
}

/// Runs to the end, or up to the most reductions.
fn run_slices(instances: &mut Instances<'_>, most: u64, screen: &mut Screen) -> Course {
    let mut course = Course {
        end: Ok(End::StillRunning),
        before: 0,
    };
    for slice in 0..most.div_ceil(SLICE) {
        if screen.failures > 0 {
            break;
        }
        let before = slice.saturating_mul(SLICE);
        let left = most.saturating_sub(before);
        course = Course {
            end: instances.run(left.min(SLICE), screen),
            before,
        };
        if !matches!(course.end, Ok(End::StillRunning)) {
            break;
        }
    }
    course
}

/// After how many reductions a run ends that ended in the slice behind these. It is made again, and the last slice
/// one by one.
fn count_steps(
    instances: &mut Instances<'_>,
    before: u64,
    screen: &mut Screen,
) -> Result<u64, RunFault>
    requires { screen.old.failures ≡ 0 }
{
    instances.run(before, screen)?;
    let mut steps = before;
    for _ in 0..SLICE {
        if screen.failures > 0 {
            break;
        }
        steps = steps.saturating_add(1);
        if instances.run(1, screen)? != End::StillRunning {
            break;
        }
    }
    Ok(steps)
}

/// The verdict on a run that ended with this number, having printed this.
fn verdict_of_end(alloc: Global, case: &Case, number: u8, printed: &[u8]) -> Verdict
    ensures { (result ≡ Verdict.Passed)
        ↔ ((number ≡ case.now.end) × (printed.now ≡ case.now.output.items)) }
{
    if number != case.end {
        return Verdict::Ended(number);
    }
    match first_difference(printed, &case.output) {
        None => Verdict::Passed,
        Some(at) => match mismatch_at(alloc, at, printed, &case.output) {
            Ok(mismatch) => Verdict::Differs(mismatch),
            Err(_) => Verdict::NoMemory,
        },
    }
}

/// The verdict on a run that was broken off, with this left of what it may print. A byte that was not taken is one
/// too many, or want of memory.
fn verdict_of_fault(fault: RunFault, left: usize, limits: Limits) -> Verdict
    ensures { result ≢ Verdict.Passed }
{
    match fault {
        RunFault::Write if left == 0 => Verdict::PrintedTooMuch(limits.bytes),
        RunFault::Write | RunFault::NoMemory => Verdict::NoMemory,
        RunFault::Ended => Verdict::BrokenOff(fault),
    }
}

/// The verdict on a run that came to here, having printed this.
fn verdict_of(
    alloc: Global,
    case: &Case,
    end: Result<End, RunFault>,
    printed: &[u8],
    limits: Limits,
) -> Verdict
    ensures { (result ≡ Verdict.Passed)
        ↔ ((end ≡ Ok (End.Done case.now.end)) × (printed.now ≡ case.now.output.items)) }
{
    match end {
        Ok(End::Done(number)) => verdict_of_end(alloc, case, number, printed),
        Ok(End::Trap) => Verdict::Trapped,
        Ok(End::StillRunning) => Verdict::StillRunning,
        Err(fault) => {
            let left = limits.bytes.saturating_sub(printed.len());
            verdict_of_fault(fault, left, limits)
        }
    }
}

/// A judgement on a run that had ended in the slice behind these reductions.
fn with_steps(alloc: Global, modules: &[ValidModule], verdict: Verdict, before: u64) -> Judgement {
    let mut screen = Screen::new(alloc);
    let counted = match Instances::link(alloc, modules) {
        Ok(mut instances) => count_steps(&mut instances, before, &mut screen),
        Err(fault) => return Judgement::without_run(Verdict::Unlinked(fault)),
    };
    match counted {
        Ok(steps) => Judgement {
            verdict,
            steps: Some(steps),
        },
        Err(fault) => Judgement::without_run(Verdict::BrokenOff(fault)),
    }
}

/// Runs a program of these modules, and judges what it did.
fn judge_modules(alloc: Global, modules: &[ValidModule], case: &Case, limits: Limits) -> Judgement {
    let mut screen = Screen::with_room(alloc, limits.bytes);
    let course = match Instances::link(alloc, modules) {
        Ok(mut instances) => run_slices(&mut instances, limits.steps, &mut screen),
        Err(fault) => return Judgement::without_run(Verdict::Unlinked(fault)),
    };
    let verdict = verdict_of(alloc, case, course.end, &screen.bytes, limits);
    match course.end {
        Ok(End::Done(_)) => with_steps(alloc, modules, verdict, course.before),
        Ok(End::StillRunning) => Judgement {
            verdict,
            steps: Some(limits.steps),
        },
        _ => Judgement::without_run(verdict),
    }
}

/// Judges a case of a program: runs it with the input of the case.
fn judge<R: Threads + Sync>(
    rt: &R,
    alloc: Global,
    program: &Compiled,
    case: &Case,
    limits: Limits,
) -> Judgement {
    match modules_with(rt, alloc, program, &case.input) {
        Ok(modules) => judge_modules(alloc, &modules, case, limits),
        Err(verdict) => Judgement::without_run(verdict),
    }
}

/// Judges some of the cases, in their order.
fn judge_some<R: Threads + Sync>(
    rt: &R,
    alloc: Global,
    program: &Compiled,
    cases: &[Case],
    limits: Limits,
) -> Result<Vec<Judgement>, AllocError> {
    let mut judgements = Vec::new(alloc);
    for case in cases {
        judgements.push(judge(rt, alloc, program, case, limits))?;
    }
    Ok(judgements)
}

/// Judges all cases of a program, and answers the judgements in the order of the cases, whatever the number of
/// workers: each takes as many cases as the others, and one works on this thread alone.
pub fn judge_all<R: Threads + Sync>(
    rt: &R,
    alloc: Global,
    program: &Compiled,
    cases: &[Case],
    limits: Limits,
) -> Result<Vec<Judgement>, AllocError> {
    let size = share_of(cases.len(), program.workers());
    let parts = thread::map_chunks(
        rt,
        alloc,
        cases,
        size,
        &|_: usize, some: &[Case]| -> Result<Vec<Judgement>, AllocError> {
            judge_some(rt, alloc, program, some, limits)
        },
    )?;
    let mut all = Vec::new(alloc);
    for part in parts {
        let mut part = part?;
        all.append(&mut part)?;
    }
    Ok(all)
}
