//! The two rounds of a build's jobs, made one after the other by the thread that asks.

ghost use Rattle.std.specs.Prelude.{◌≡◌, ◌<◌, ◌≤◌, ◌^◌, ◌++◌, ◌∷◌, [], length, map, slice_get, IfOk, OnOk};
ghost use Rattle.std.specs.Option.{option_copied};
ghost use Rattle.m2_graph.specs.Refused.{max_files};
ghost use Rattle.pool_board.specs.Results.{items_at, with_item};
ghost use Rattle.build_jobs.specs.Borrowed.{modules_borrowed};
ghost use Rattle.build_jobs.specs.Jobs.{all_compiled, compile_in_place};
ghost use Rattle.build_jobs.specs.Reading.{AreRead};

use crate::modules::compile_in_place;
use crate::{Compiled, Read, SourceFile, read_text};
use m2_tree::Module;
use std::alloc::{AllocError, Global};
use tree_parts::at;

/// What is read of each file. The only error is that memory ran out.
pub fn read_in_turn(alloc: Global, files: &[SourceFile]) -> Result<Vec<Read>, AllocError>
    ensures read { IfOk result (λ reads. AreRead files.now reads.items) }
    ensures count { IfOk result (λ reads. length files.now ≡ length reads.items) }
{
    let mut reads = Vec::new(alloc);
    for file in files {
        let read = read_text(alloc, &file.bytes)?;
        reads.push(read)?;
    }
    Ok(reads)
}

/// Adds a result, if it is there.
fn add_result<'a>(
    outs: &mut Vec<&'a Compiled>,
    found: Option<&'a Compiled>,
) -> Result<(), AllocError>
    ensures { OnOk result
        (map (λ c. c.now) outs.new.items
        ≡ map (λ c. c.now) outs.old.items ++ with_item (option_copied found.entry) []) }
{
    match found {
        None => Ok(()),
        Some(found) => {
            outs.push(found)?;
            Ok(())
        }
    }
}

/// The results of these jobs, of those that are there.
fn results_at<'a>(
    alloc: Global,
    results: &'a [Compiled],
    jobs: &[usize],
) -> Result<Vec<&'a Compiled>, AllocError>
    ensures { IfOk result (λ outs.
        map (λ c. c.now) outs.items ≡ items_at results.now jobs.now) }
{
    let mut outs = Vec::new(alloc);
    for job in jobs {
        add_result(&mut outs, at(results, *job))?;
    }
    Ok(outs)
}

/// Adds what becomes of the module of the next job, which is in this file and needs these jobs.
fn add_compiled(
    alloc: Global,
    trees: &[(&str, &Module)],
    file: usize,
    needs: &[usize],
    results: &mut Vec<Compiled>,
) -> Result<(), AllocError>
    requires { length results.old.items < 2 ^ 32 }
    ensures { OnOk result
        (results.new.items
        ≡ results.old.items
        ++ compile_in_place (slice_get (modules_borrowed trees.now) file)
        (length results.old.items) (items_at results.old.items needs.now)
        ∷ []) }
{
    let job = results.len();
    let needed = results_at(alloc, results, needs)?;
    let became = compile_in_place(alloc, trees, file, job, &needed)?;
    drop(needed);
    results.push(became)?;
    Ok(())
}

/// What becomes of the module of each job, from these trees, the places of the files of the jobs, and the jobs that each
/// job needs. The only error is that memory ran out.
pub fn compile_in_turn(
    alloc: Global,
    trees: &[(&str, &Module)],
    files: &[usize],
    jobs: &[Vec<usize>],
) -> Result<Vec<Compiled>, AllocError>
    requires each { length files.now ≡ length jobs.now }
    requires few { length jobs.now ≤ max_files }
    ensures { IfOk result (λ all.
        all.items ≡ all_compiled (modules_borrowed trees.now) files.now
        (map (λ job. job.items) jobs.now)) }
{
    let mut results = Vec::new(alloc);
    for job in 0..jobs.len() {
        add_compiled(alloc, trees, files[job], &jobs[job], &mut results)?;
    }
    Ok(results)
}
