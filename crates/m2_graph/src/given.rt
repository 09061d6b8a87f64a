//! From modules in order back to files as they are given.

ghost use Rattle.std.specs.Prelude.{◌≡◌, ◌<◌, ◌++◌, length, map, slice_get, Some, IfOk, OnOk};
ghost use Rattle.std.specs.Option.{option_to_list};
ghost use Rattle.m2_graph.specs.Files.{given_of, trees};
ghost use Rattle.m2_graph.specs.Graph.{body_of, bodies_of, IsStarts};
ghost use Rattle.m2_graph.specs.Imports.{first_that, is_program};
ghost use Rattle.m2_graph.specs.Program.{modules_of, IsIndexed};
ghost use Rattle.m2_graph.specs.Sources.{file_of};

use crate::imports::is_definition;
use crate::needs::walks;
use crate::program::{Program, implementation_of};
use crate::sources::Source;
use graph_walk::start_order;
use std::alloc::{AllocError, Global};
use tree_parts::Items;

/// How many files were given before the file with this number in order.
fn given_of(sources: &[Source<'_>], number: usize) -> usize
    ensures { result ≡ given_of (map file_of sources.now) number }
{
    if number < sources.len() {
        sources[number].given
    } else {
        0
    }
}

/// How many files were given before each of these files.
pub fn given_all(
    alloc: Global,
    sources: &[Source<'_>],
    numbers: &[usize],
) -> Result<Vec<usize>, AllocError>
    ensures { IfOk result (λ all.
        all.items ≡ map (given_of (map file_of sources.now)) numbers.now) }
{
    let mut all = Vec::new(alloc);
    for number in numbers {
        all.push(given_of(sources, *number))?;
    }
    Ok(all)
}

/// The body that starts where a walk comes to a module.
fn body_of(program: &Program<'_>, node: usize) -> Option<usize>
    requires { IsIndexed program.now }
    ensures { result
        ≡ body_of (modules_of program.now) node (slice_get (modules_of program.now) node) }
{
    if node >= program.modules.len() {
        return None;
    }
    let tree = program.modules[node];
    if is_definition(tree) {
        implementation_of(program, &tree.name.name)
    } else {
        Some(node)
    }
}

fn add_body(program: &Program<'_>, node: usize, bodies: &mut Items<usize>) -> Result<(), AllocError>
    requires { IsIndexed program.now }
    ensures { OnOk result
        (bodies.new ≡ bodies.old
        ++ option_to_list
        (body_of (modules_of program.now) node
        (slice_get (modules_of program.now) node))) }
{
    if let Some(body) = body_of(program, node) {
        bodies.push(body)?;
    }
    Ok(())
}

/// The bodies that start where a walk comes to these modules.
fn bodies_of(
    alloc: Global,
    program: &Program<'_>,
    nodes: &[usize],
) -> Result<Items<usize>, AllocError>
    requires { IsIndexed program.now }
    ensures { IfOk result (λ bodies. bodies ≡ bodies_of (modules_of program.now) nodes.now) }
{
    let mut bodies = Items::new(alloc);
    for node in nodes {
        add_body(program, *node, &mut bodies)?;
    }
    Ok(bodies)
}

/// The files of the bodies that start, in order, if this is the program module.
pub fn starts_of(
    alloc: Global,
    program: &Program<'_>,
    sources: &[Source<'_>],
    first: usize,
) -> Result<Vec<usize>, AllocError>
    requires indexed { IsIndexed program.now }
    requires same { modules_of program.now ≡ trees (map file_of sources.now) }
    requires program { first_that is_program (modules_of program.now) ≡ Some first }
    ensures { IfOk result (λ starts. IsStarts (map file_of sources.now) starts.items) }
{
    let walked = walks(alloc, program)?;
    let order = start_order(alloc, &walked, first)?;
    let bodies = bodies_of(alloc, program, order.as_slice())?;
    let starts = given_all(alloc, sources, bodies.as_slice())?;
    Ok(starts)
}
