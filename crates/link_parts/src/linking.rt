//! How modules are linked.

ghost use Rattle.std.specs.Prelude.{◌≡◌, ◌≤◌, ◌+◌, ◌*◌, ◌++◌, ℕ, ◌<◌, IfOk, IfErr, OnOk, map, min, slice_get};
ghost use Rattle.std.specs.List.{flat_map};
ghost use Rattle.std.specs.Option.{option_copied, option_map};
ghost use Rattle.m2_graph.specs.Files.{number_files};
ghost use Rattle.m2_graph.specs.Graph.{IsGraph};
ghost use Rattle.layout_storage.specs.Sizes.{page_size};
ghost use Rattle.def_meaning.specs.Runs.{least_stack};
ghost use Rattle.def_scheme.specs.Modules.{link_of, max_pages, stack_begin};
ghost use Rattle.emit_buffer.specs.Cut.{cut_module};
ghost use Rattle.m2_emit.specs.Emitted.{code_bytes, link_part, parts};
ghost use Rattle.link_parts.specs.Stands.{stand_of, trees_of};
ghost use Rattle.link_parts.specs.Linked.{bytes_for, sizes_of, sizes_in, IsLinked, first_number, IsOfGraph, IsFault};

use crate::fault::LinkFault;
use crate::fitting::check_parts;
use crate::part::Part;
use crate::stands::{Stand, stands_for, trees_of};
use build_jobs::MAX_PAGES;
use m2_emit::{ModuleBytes, emit_link};
use m2_graph::{Graph, GraphError};
use m2_tree::Refusal;
use std::alloc::{AllocError, Global};
use tree_parts::{Items, at};

/// The least stack, in bytes, that a program has.
const LEAST_STACK: u64 = 4096;

/// The bytes of a page.
const PAGE: u64 = 65536;

/// The number of the first of these refusals.
fn first_number(refusals: &[Refusal]) -> u32
    ensures { result ≡ first_number refusals.now }
{
    match refusals {
        [] => 0,
        [first, ..] => first.number,
    }
}

/// The graph of these modules.
fn graph_of(alloc: Global, stands: &[Stand<'_>]) -> Result<Graph, LinkFault>
    ensures graph { IfOk result (λ g.
        IsGraph (number_files 0 (trees_of (map stand_of stands.now))) g.files.items
        (map (λ j. j.items) g.jobs.items) g.starts.items) }
    ensures fault { IfErr result (IsOfGraph (trees_of (map stand_of stands.now))) }
{
    let trees = trees_of(alloc, stands)?;
    match Graph::of(alloc, &trees) {
        Ok(graph) => Ok(graph),
        Err(GraphError::Refused(refusals)) => { Err(LinkFault::Imports(first_number(&refusals))) }
        Err(GraphError::NoMemory) => Err(LinkFault::NoMemory),
    }
}

/// What link has to know of a module, as a build has it.
fn module_of(alloc: Global, stand: &Stand<'_>) -> Result<ModuleBytes, AllocError>
    ensures { IfOk result (λ m. link_part m ≡ sizes_of (stand_of stand.now)) }
{
    Ok(ModuleBytes {
        name: stand.tree.name.name.clone()?,
        bytes: Items::new(alloc),
        variables: stand.part.sizes.variables,
        texts: stand.part.sizes.texts,
        slots: stand.part.sizes.slots,
    })
}

/// Adds a module that starts.
fn add_module(
    alloc: Global,
    stand: Option<&Stand<'_>>,
    modules: &mut Vec<ModuleBytes>,
) -> Result<(), AllocError>
    ensures { OnOk result
        (parts modules.new.items
        ≡ parts modules.old.items ++ sizes_in (option_map stand_of (option_copied stand.entry))) }
{
    match stand {
        None => Ok(()),
        Some(stand) => {
            modules.push(module_of(alloc, stand)?)?;
            Ok(())
        }
    }
}

/// The modules that start, in order.
fn modules_of(
    alloc: Global,
    stands: &[Stand<'_>],
    starts: &[usize],
) -> Result<Vec<ModuleBytes>, AllocError>
    ensures { IfOk result (λ modules.
        parts modules.items
        ≡ flat_map (λ n. sizes_in (slice_get (map stand_of stands.now) n)) starts.now) }
{
    let mut modules = Vec::new(alloc);
    for start in starts {
        add_module(alloc, at(stands, *start), &mut modules)?;
    }
    Ok(modules)
}

/// How many bytes the variables and texts of modules and the least stack take, if a number has room for it.
fn bytes_for(modules: &[ModuleBytes]) -> u64
    ensures { result ≡ bytes_for (parts modules.now) }
{
    let mut bytes = LEAST_STACK;
    for module in modules {
        let more = u64::from(module.variables) + u64::from(module.texts);
        bytes = bytes.saturating_add(more);
    }
    bytes
}

/// How many pages modules need.
fn pages_for(modules: &[ModuleBytes]) -> u64
    ensures enough { (pages : ℕ) → pages ≤ max_pages → result ≤ pages
        → stack_begin (parts modules.now) + least_stack ≤ page_size * pages }
    ensures needed { (pages : ℕ) → pages ≤ max_pages → pages < result
        → page_size * pages < stack_begin (parts modules.now) + least_stack }
{
    bytes_for(modules).saturating_add(PAGE - 1) / PAGE
}

/// The module link for these modules.
fn link_of(alloc: Global, modules: &[ModuleBytes], pages: u32) -> Result<Vec<u8>, AllocError>
    requires { pages ≤ max_pages }
    ensures { IfOk result (λ bytes.
        bytes.items ≡ code_bytes (cut_module (link_of (parts modules.now) pages))) }
{
    let mut all = Vec::new(alloc);
    for module in modules {
        all.push(module)?;
    }
    emit_link(alloc, &all, pages)
}

/// The module link of a program: the first of these modules, and those that it imports, directly and through others. It has so many
/// pages of 65536 bytes of memory, at most 1024, and runs the bodies in the order in which a build has them.
///
/// `NoProgram` if the first is no program module, `Program` if another is one, `Interfaces` if two modules were compiled with
/// different definitions of one module, `Imports` if a name is too long or the imports break a rule, and `Pages` if the variables and
/// texts of all modules, and 4096 bytes, need more pages: the first of these in this order. `NoMemory` if memory ran out.
pub fn link_modules(alloc: Global, parts: &[Part], pages: u32) -> Result<Vec<u8>, LinkFault>
    ensures link { IfOk result (λ bytes. IsLinked parts.now (min pages max_pages) bytes.items) }
    ensures fault { IfErr result (IsFault parts.now (min pages max_pages)) }
{
    check_parts(alloc, parts)?;
    let stands = stands_for(alloc, parts)?;
    let graph = graph_of(alloc, &stands)?;
    let modules = modules_of(alloc, &stands, graph.start_order())?;
    let pages = pages.min(MAX_PAGES);
    let needed = pages_for(&modules);
    if needed > u64::from(pages) {
        return Err(LinkFault::Pages(needed));
    }
    let link = link_of(alloc, &modules, pages)?;
    Ok(link)
}
