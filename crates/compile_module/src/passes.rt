//! The jobs of one module, in turn.

ghost use Rattle.std.specs.Prelude.{◌≡◌, IfOk, List, ℕ, length, map};
ghost use Rattle.std.specs.Option.{option_copied};
ghost use Rattle.m2_graph.specs.Files.{number_files};
ghost use Rattle.m2_tree.specs.declared.decl.Module.{Module as Tree};
ghost use Rattle.m2_graph.specs.Graph.{CompileEach, IsGraph, IsRefusal};
ghost use Rattle.build_jobs.specs.Borrowed.{borrow_trees, modules_borrowed};
ghost use Rattle.build_jobs.specs.Reading.{AreRead};
ghost use Rattle.build_jobs.specs.Jobs.{all_compiled};
ghost use Rattle.build_results.specs.Texts.{modules};
ghost use Rattle.compile_module.specs.Alone.{IsMade, IsOf, Comes, ComesOf};
ghost use Rattle.compile_module.specs.Stands.{with_stands};

use crate::made::Made;
use crate::stands::{stands_for, with_stands, without_stands};
use crate::told::{imports_of, interfaces_of, is_program};
use build_jobs::{Compiled, Read, SourceFile, compile_in_turn, read_in_turn};
use build_results::{in_order, refused_by, refused_of, result_of, trees_of};
use m2_emit::ModuleBytes;
use m2_graph::{Graph, GraphError, places_of};
use m2_tree::Module;
use std::alloc::{AllocError, Global};
use tree_parts::Shared;

/// A module that was built.
fn built(
    alloc: Global,
    trees: &[(&str, &Module)],
    module: &Shared<ModuleBytes>,
) -> Result<Made, AllocError>
    ensures { IfOk result (IsOf (modules (borrow_trees trees.now)) module.now) }
{
    Ok(Made::Built {
        module: module.share()?,
        is_program: is_program(trees),
        imports: imports_of(alloc, trees)?,
        interfaces: interfaces_of(alloc, trees)?,
    })
}

/// What comes of the first of these modules, of which this became.
fn of_first(
    alloc: Global,
    trees: &[(&str, &Module)],
    became: Option<&Compiled>,
) -> Result<Made, AllocError>
    requires { IsMade (borrow_trees trees.now) (option_copied became) }
    ensures { IfOk result (Comes (borrow_trees trees.now)) }
{
    let Some(became) = became else {
        return Ok(Made::Defined);
    };
    match became {
        Compiled::Built(module) => built(alloc, trees, module),
        Compiled::Defined(_) | Compiled::Refused(_) | Compiled::Blocked => Ok(Made::Defined),
    }
}

/// What comes of the first of these modules, with a graph of so many, whose jobs came to these results.
fn of_results(
    alloc: Global,
    trees: &[(&str, &Module)],
    count: usize,
    graph: &Graph,
    results: &[Compiled],
) -> Result<Made, AllocError>
    requires graph { IsGraph (number_files 0 (with_stands (borrow_trees trees.now)))
        graph.now.files.items (map (λ j. j.items) graph.now.jobs.items) graph.now.starts.items }
    requires each { CompileEach (number_files 0 (with_stands (borrow_trees trees.now)))
        graph.now.files.items }
    requires count { length (with_stands (borrow_trees trees.now)) ≡ count }
    requires results { results.now ≡ all_compiled (modules_borrowed trees.now) graph.now.files.items
        (map (λ j. j.items) graph.now.jobs.items) }
    ensures { IfOk result (Comes (borrow_trees trees.now)) }
{
    let places = places_of(alloc, count, graph.files())?;
    let refusals = refused_by(alloc, trees, &places, results)?;
    if !refusals.is_empty() {
        return Ok(Made::Refused(in_order(refusals)?));
    }
    of_first(alloc, trees, result_of(results, &places, 0))
}

/// What comes of the first of these modules, with a graph of so many.
fn of_graph(
    alloc: Global,
    trees: &[(&str, &Module)],
    count: usize,
    graph: &Graph,
) -> Result<Made, AllocError>
    requires graph { IsGraph (number_files 0 (with_stands (borrow_trees trees.now)))
        graph.now.files.items (map (λ j. j.items) graph.now.jobs.items) graph.now.starts.items }
    requires each { CompileEach (number_files 0 (with_stands (borrow_trees trees.now)))
        graph.now.files.items }
    requires count { length (with_stands (borrow_trees trees.now)) ≡ count }
    ensures { IfOk result (Comes (borrow_trees trees.now)) }
{
    let results = compile_in_turn(alloc, trees, graph.files(), graph.jobs())?;
    of_results(alloc, trees, count, graph, &results)
}

/// What comes of modules that have no graph.
fn of_error(error: GraphError) -> Result<Made, AllocError>
    ensures { (trees : List (List ℕ × Tree))
        → IsRefusal (number_files 0 (with_stands trees)) error → IfOk result (Comes trees) }
{
    match error {
        GraphError::Refused(refusals) => Ok(Made::Refused(without_stands(refusals))),
        GraphError::NoMemory => Err(AllocError),
    }
}

/// Compiles one module alone, as `compile_module` does, from the trees of its files' texts, each under the name of its file.
pub fn compile_trees(alloc: Global, trees: &[(&str, &Module)]) -> Result<Made, AllocError>
    ensures { IfOk result (Comes (borrow_trees trees.now)) }
{
    let stands = stands_for(alloc, trees)?;
    let all = with_stands(alloc, trees, &stands)?;
    match Graph::of(alloc, &all) {
        Ok(graph) => of_graph(alloc, trees, all.len(), &graph),
        Err(error) => of_error(error),
    }
}

/// What comes of the module of the first of these files, of which this was read.
fn of_reads(alloc: Global, files: &[SourceFile], reads: &[Read]) -> Result<Made, AllocError>
    requires read { AreRead files.now reads.now }
    requires count { length files.now ≡ length reads.now }
    ensures { IfOk result (ComesOf files.now) }
{
    let refused = refused_of(alloc, files, reads)?;
    if !refused.is_empty() {
        return Ok(Made::Refused(in_order(refused)?));
    }
    let trees = trees_of(alloc, files, reads)?;
    compile_trees(alloc, &trees)
}

/// Compiles one module alone: the body or the definition in the first of these files. The others are the definitions that it needs,
/// directly and through others, and its own if it is an implementation.
///
/// What is refused is what a build refuses of these files, in the same order: rules of tokens and of the grammar, or else those of
/// imports, or else the least rule that each module breaks, but nothing for one that needs another of which something is reported.
/// A definition that is not there is 20 at its import, or 24 if it is the body's own. A module that is built is what its job of a
/// build makes. The only error is that memory ran out.
pub fn compile_module(alloc: Global, files: &[SourceFile]) -> Result<Made, AllocError>
    ensures { IfOk result (ComesOf files.now) }
{
    let reads = read_in_turn(alloc, files)?;
    of_reads(alloc, files, &reads)
}
