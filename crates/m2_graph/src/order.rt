//! The order of the jobs.

ghost use Rattle.std.specs.Prelude.{◌≡◌, ◌<◌, ◌++◌, length, [], ◌∷◌, map, IfOk, OnOk};
ghost use Rattle.graph_walk.specs.Marks.{AreUnmarked};
ghost use Rattle.m2_graph.specs.Imports.{is_definition};
ghost use Rattle.m2_graph.specs.Jobs.{ArePlacesBelow};
ghost use Rattle.m2_graph.specs.Order.{body_numbers, IsJob, IsJobBy};
ghost use Rattle.m2_graph.specs.Program.{modules_of, IsIndexed};
ghost use Rattle.std.specs.List.{All, AllZip};

use crate::imports::is_definition;
use crate::jobs::{places_of, prerequisites};
use crate::needs::needs_of;
use crate::program::Program;
use graph_walk::no_marks;
use m2_tree::Module;
use std::alloc::{AllocError, Global};
use tree_parts::Items;

/// Which of the modules are definitions.
pub fn definition_flags(alloc: Global, modules: &[&Module]) -> Result<Vec<bool>, AllocError>
    ensures { IfOk result (λ flags.
        flags.items ≡ map is_definition (map (λ m. m.now) modules.now)) }
{
    let mut flags = Vec::new(alloc);
    for module in modules {
        flags.push(is_definition(module))?;
    }
    Ok(flags)
}

fn add_if_body(tree: &Module, number: usize, order: &mut Items<usize>) -> Result<(), AllocError>
    ensures { OnOk result (order.new ≡ order.old ++ body_numbers number (tree.now ∷ [])) }
{
    if is_definition(tree) {
        return Ok(());
    }
    order.push(number)
}

/// Adds the numbers of the bodies, in order.
pub fn add_bodies(modules: &[&Module], order: &mut Items<usize>) -> Result<(), AllocError>
    ensures { OnOk result (order.new ≡ order.old ++ body_numbers 0 (map (λ m. m.now) modules.now)) }
{
    for (number, module) in modules.iter().enumerate() {
        add_if_body(module, number, order)?;
    }
    Ok(())
}

fn job_of(
    alloc: Global,
    program: &Program<'_>,
    places: &[Option<usize>],
    node: usize,
    flags: &mut [bool],
) -> Result<Vec<usize>, AllocError>
    requires indexed { IsIndexed program.now }
    requires within { node < length program.now.modules.now }
    requires below { ArePlacesBelow (length flags.old) places.now }
    requires unmarked { AreUnmarked flags.old }
    ensures job { IfOk result (λ job. IsJobBy (modules_of program.now) places.now node job.items) }
    ensures same { OnOk result (length flags.new ≡ length flags.old) }
    ensures unmarked { OnOk result (AreUnmarked flags.new) }
{
    let needs = needs_of(alloc, program, program.modules[node])?;
    let job = prerequisites(alloc, places, needs.as_slice(), flags)?;
    Ok(job)
}

/// The prerequisites of each job: the numbers of the jobs that it needs, each once. `order` has the modules in the order
/// of their jobs.
pub fn jobs_of(
    alloc: Global,
    program: &Program<'_>,
    order: &[usize],
) -> Result<Vec<Vec<usize>>, AllocError>
    requires indexed { IsIndexed program.now }
    requires within { All (λ node. node < length program.now.modules.now) order.now }
    ensures { IfOk result (λ jobs.
        AllZip (IsJob (modules_of program.now) order.now) order.now
        (map (λ job. job.items) jobs.items)) }
{
    let places = places_of(alloc, program.modules.len(), order)?;
    let mut flags = no_marks(alloc, order.len())?;
    let mut jobs = Vec::new(alloc);
    for node in order {
        jobs.push(job_of(alloc, program, &places, *node, &mut flags)?)?;
    }
    Ok(jobs)
}
