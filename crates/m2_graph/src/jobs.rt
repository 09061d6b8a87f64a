//! The prerequisites of jobs.

ghost use Rattle.std.specs.Prelude.{◌≡◌, ◌<◌, ◌++◌, ℕ, ◌==◌, Some, None, length, replicate, cond, IfOk, OnOk};
ghost use Rattle.std.specs.List.{All, filter_map};
ghost use Rattle.std.specs.Option.{option_to_list};
ghost use Rattle.graph_walk.specs.Links.{AreEachOnce};
ghost use Rattle.graph_walk.specs.Marks.{AreUnmarked};
ghost use Rattle.m2_graph.specs.Jobs.{number_of, place_of, ArePlaces, ArePlacesBelow};
ghost use Rattle.m2_graph.specs.Parts.{or_first};

use graph_walk::each_once;
use std::alloc::{AllocError, Global};
use tree_parts::Items;

/// The place of a node, if it has one.
pub fn place_of(places: &[Option<usize>], node: usize) -> Option<usize>
    ensures { result ≡ place_of places.now node }
{
    if node < places.len() {
        places[node]
    } else {
        None
    }
}

/// No place for each of this many nodes.
fn no_places(alloc: Global, count: usize) -> Result<Vec<Option<usize>>, AllocError>
    ensures { IfOk result (λ places. places.items ≡ replicate count None) }
{
    vec![in alloc; None; count]
}

/// Gives a node its place, unless it has one.
fn put_place(places: &mut [Option<usize>], node: usize, number: usize)
    requires { node < length places.old }
    ensures len { length places.new ≡ length places.old }
    ensures places { (k : ℕ)
        → place_of places.new k
        ≡ or_first (place_of places.old k) (cond (node == k) (Some number) None) }
{
    if places[node].is_none() {
        places[node] = Some(number);
    }
}

/// For each of `count` nodes its place in an order, the first if it has more. The only error is that memory ran out.
pub fn places_of(
    alloc: Global,
    count: usize,
    order: &[usize],
) -> Result<Vec<Option<usize>>, AllocError>
    requires { All (λ node. node < count) order.now }
    ensures { IfOk result (λ places. ArePlaces order.now places.items) }
{
    let mut places = no_places(alloc, count)?;
    for (number, node) in order.iter().enumerate() {
        put_place(&mut places, *node, number);
    }
    Ok(places)
}

/// Adds the number of a node's job, if it has one.
fn add_number(
    places: &[Option<usize>],
    node: usize,
    numbers: &mut Items<usize>,
) -> Result<(), AllocError>
    ensures { OnOk result (numbers.new ≡ numbers.old ++ option_to_list (place_of places.now node)) }
{
    if let Some(number) = place_of(places, node) {
        numbers.push(number)?;
    }
    Ok(())
}

/// The numbers of the nodes' jobs.
fn numbers_of(
    alloc: Global,
    places: &[Option<usize>],
    nodes: &[usize],
) -> Result<Items<usize>, AllocError>
    ensures { IfOk result (λ numbers. numbers ≡ filter_map (place_of places.now) nodes.now) }
{
    let mut numbers = Items::new(alloc);
    for node in nodes {
        add_number(places, *node, &mut numbers)?;
    }
    Ok(numbers)
}

/// The prerequisites of a job that needs these nodes: the numbers of their jobs, each once. `places` has for each node the
/// number of its job. No number is marked before, and none after.
pub fn prerequisites(
    alloc: Global,
    places: &[Option<usize>],
    nodes: &[usize],
    flags: &mut [bool],
) -> Result<Vec<usize>, AllocError>
    requires below { ArePlacesBelow (length flags.old) places.now }
    requires unmarked { AreUnmarked flags.old }
    ensures jobs { IfOk result (λ jobs.
        AreEachOnce jobs.items (filter_map (place_of places.now) nodes.now)) }
    ensures same { OnOk result (length flags.new ≡ length flags.old) }
    ensures unmarked { OnOk result (AreUnmarked flags.new) }
{
    let numbers = numbers_of(alloc, places, nodes)?;
    let once = each_once(alloc, numbers.as_slice(), flags)?;
    Vec::from_slice(alloc, once.as_slice())
}
