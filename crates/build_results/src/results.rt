//! What the jobs of a build came to, file by file.

ghost use Rattle.std.specs.Prelude.{◌≡◌, ◌++◌, map, slice_get, IfOk, OnOk};
ghost use Rattle.std.specs.Option.{option_and_then, option_copied};
ghost use Rattle.m2_graph.specs.Jobs.{place_of};
ghost use Rattle.build_jobs.specs.Borrowed.{borrow_trees};
ghost use Rattle.build_results.specs.Results.{refusal_in, refused_from};
ghost use Rattle.build_results.specs.Reported.{report_of};
ghost use Rattle.build_results.specs.Results.{module_in, modules_at};

use crate::refusals::refusal;
use build_jobs::Compiled;
use m2_emit::ModuleBytes;
use m2_graph::place_of;
use m2_tree::{Module, Refusal};
use std::alloc::{AllocError, Global};

/// What became of the module of a file, from the results of all jobs and the places of the files.
pub fn result_of<'a>(
    results: &'a [Compiled],
    places: &[Option<usize>],
    file: usize,
) -> Option<&'a Compiled>
    ensures { option_copied result
        ≡ option_and_then (slice_get results.now) (place_of places.now file) }
{
    let job = place_of(places, file)?;
    results.get(job)
}

/// Adds the rule that a module breaks.
fn add_refusal(
    alloc: Global,
    refusals: &mut Vec<Refusal>,
    file: &str,
    became: Option<&Compiled>,
) -> Result<(), AllocError>
    ensures { OnOk result
        (map report_of refusals.new.items
        ≡ map report_of refusals.old.items ++ refusal_in file.now (option_copied became.entry)) }
{
    match became {
        None => Ok(()),
        Some(compiled) => match compiled {
            Compiled::Defined(_) | Compiled::Built(_) | Compiled::Blocked => Ok(()),
            Compiled::Refused(broken) => {
                let reported = refusal(alloc, file, broken.pos, broken.number)?;
                refusals.push(reported)?;
                Ok(())
            }
        },
    }
}

/// The rules that modules break, in order of the files.
pub fn refused_by(
    alloc: Global,
    trees: &[(&str, &Module)],
    places: &[Option<usize>],
    results: &[Compiled],
) -> Result<Vec<Refusal>, AllocError>
    ensures { IfOk result (λ rs.
        map report_of rs.items
        ≡ refused_from
        (λ file. option_and_then (slice_get results.now) (place_of places.now file)) 0
        (borrow_trees trees.now)) }
{
    let mut refusals = Vec::new(alloc);
    for file in 0..trees.len() {
        add_refusal(
            alloc,
            &mut refusals,
            trees[file].0,
            result_of(results, places, file),
        )?;
    }
    Ok(refusals)
}

/// Adds the module of a body.
fn add_module<'a>(
    modules: &mut Vec<&'a ModuleBytes>,
    became: Option<&'a Compiled>,
) -> Result<(), AllocError>
    ensures { OnOk result
        (map (λ m. m.now) modules.new.items
        ≡ map (λ m. m.now) modules.old.items ++ module_in (option_copied became.entry)) }
{
    match became {
        None => Ok(()),
        Some(compiled) => match compiled {
            Compiled::Built(module) => {
                modules.push(module.get())?;
                Ok(())
            }
            Compiled::Defined(_) | Compiled::Refused(_) | Compiled::Blocked => Ok(()),
        },
    }
}

/// The modules of the bodies in these files.
pub fn modules_at<'a>(
    alloc: Global,
    results: &'a [Compiled],
    places: &[Option<usize>],
    starts: &[usize],
) -> Result<Vec<&'a ModuleBytes>, AllocError>
    ensures { IfOk result (λ ms.
        map (λ m. m.now) ms.items
        ≡ modules_at (λ file. option_and_then (slice_get results.now) (place_of places.now file))
        starts.now) }
{
    let mut modules = Vec::new(alloc);
    for file in starts {
        add_module(&mut modules, result_of(results, places, *file))?;
    }
    Ok(modules)
}
