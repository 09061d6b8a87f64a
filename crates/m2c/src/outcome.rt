//! The outcome of a build.

ghost use Rattle.std.specs.Prelude.{◌≡◌, ◌≤◌, ◌+◌, ◌*◌, ◌∷◌, [], length, map, nat_lt, IfOk};
ghost use Rattle.m2_emit.specs.Emitted.{parts};
ghost use Rattle.layout_storage.specs.Sizes.{page_size};
ghost use Rattle.def_meaning.specs.Runs.{least_stack};
ghost use Rattle.def_scheme.specs.Modules.{max_pages, stack_begin};
ghost use Rattle.m2_graph.specs.Files.{number_files};
ghost use Rattle.m2_graph.specs.Graph.{CompileEach};
ghost use Rattle.m2_graph.specs.Jobs.{ArePlaces};
ghost use Rattle.m2_graph.specs.Refused.{max_files};
ghost use Rattle.build_jobs.specs.Jobs.{all_compiled};
ghost use Rattle.build_jobs.specs.Borrowed.{borrow_trees, modules_borrowed};
ghost use Rattle.build_jobs.specs.Reading.{AreRead};
ghost use Rattle.m2c.specs.Build.{is_program_part, program_file, HaveGraph, IsBuilt};
ghost use Rattle.build_results.specs.Results.{refused_by, start_modules};
ghost use Rattle.build_results.specs.Reported.{report_of, reported_at};
ghost use Rattle.build_results.specs.Texts.{AreTrees};
ghost use Rattle.m2_rule.specs.declared.rule.Rule.TheVariants as rule;
ghost use Rattle.m2_rule.specs.RuleNumber.{number_of};

use crate::files::Outcome;
use crate::modules::{copies_of, data_size};
use build_jobs::{Compiled, Read, Runner, SourceFile};
use build_results::{in_order, modules_at, refusal, refused_by, refused_of, trees_of};
use m2_emit::{ModuleBytes, emit_link};
use m2_graph::{Graph, GraphError, places_of};
use m2_rule::Rule;
use m2_tree::{Contents, Module, Pos, Refusal};
use pool_board::Gate;
use std::alloc::{AllocError, AllocFailed, Global};
use std::mem::forget;
use std::thread;
use std::thread::Threads;
use wasm_tree::PAGE_SIZE;

/// The least stack, in bytes, that a program has.
const LEAST_STACK: u64 = 4096;

fn is_program(tree: &Module) -> bool
    ensures { result ≡ is_program_part tree.now.contents }
{
    match &tree.contents {
        Contents::Definition(_) => false,
        Contents::Implementation(_) => false,
        Contents::Program(_) => true,
    }
}

/// The file of the program module.
fn program_file<'a>(trees: &[(&'a str, &'a Module)]) -> &'a str
    ensures { result.now ≡ program_file (borrow_trees trees.now) }
{
    match trees {
        [] => "",
        [first, rest @ ..] => {
            if is_program(first.1) {
                first.0
            } else {
                program_file(rest)
            }
        }
    }
}

/// 61 at the begin of the file of the program module.
fn too_large(alloc: Global, trees: &[(&str, &Module)]) -> Result<Vec<Refusal>, AllocError>
    ensures { IfOk result (λ rs.
        map report_of rs.items
        ≡ reported_at (program_file (borrow_trees trees.now)) 1 1 (number_of rule.LargeProgram)
        ∷ []) }
{
    let mut refusals = Vec::new(alloc);
    let file = program_file(trees);
    refusals.push(refusal(
        alloc,
        file,
        Pos { line: 1, col: 1 },
        Rule::LargeProgram.number(),
    )?)?;
    Ok(refusals)
}

/// Whether the data of modules, and the least stack, need more than `pages` pages.
fn is_too_large(modules: &[&ModuleBytes], pages: u32) -> bool
    requires { length modules.now ≤ max_files }
    ensures { let ms = parts (map (λ m. m.now) modules.now) in
        result ≡ nat_lt (page_size * pages) (stack_begin ms + least_stack) }
{
    data_size(modules) + LEAST_STACK > u64::from(PAGE_SIZE) * u64::from(pages)
}

/// The modules of the program that a graph has, if no module breaks a rule and the data fits.
fn build_modules(
    alloc: Global,
    files: &[SourceFile],
    trees: &[(&str, &Module)],
    graph: &Graph,
    modules: &[&ModuleBytes],
    pages: u32,
) -> Result<Outcome, AllocError>
    requires least { 1 ≤ pages }
    requires most { pages ≤ max_pages }
    requires graph { HaveGraph files.now (borrow_trees trees.now) graph.now.files.items
        (map (λ j. j.items) graph.now.jobs.items) graph.now.starts.items }
    requires none { refused_by (borrow_trees trees.now) graph.now.files.items
        (map (λ j. j.items) graph.now.jobs.items) ≡ [] }
    requires modules { map (λ m. m.now) modules.now
        ≡ start_modules (borrow_trees trees.now) graph.now.files.items
        (map (λ j. j.items) graph.now.jobs.items) graph.now.starts.items }
    requires fits { stack_begin (parts (map (λ m. m.now) modules.now)) + least_stack
        ≤ page_size * pages }
    ensures { IfOk result (IsBuilt files.now pages) }
{
    let link = emit_link(alloc, modules, pages)?;
    let modules = copies_of(alloc, modules)?;
    Ok(Outcome::Built { link, modules })
}

/// The outcome of the program that a graph has, if no module breaks a rule.
fn program(
    alloc: Global,
    files: &[SourceFile],
    trees: &[(&str, &Module)],
    graph: &Graph,
    modules: &[&ModuleBytes],
    pages: u32,
) -> Result<Outcome, AllocError>
    requires least { 1 ≤ pages }
    requires most { pages ≤ max_pages }
    requires graph { HaveGraph files.now (borrow_trees trees.now) graph.now.files.items
        (map (λ j. j.items) graph.now.jobs.items) graph.now.starts.items }
    requires none { refused_by (borrow_trees trees.now) graph.now.files.items
        (map (λ j. j.items) graph.now.jobs.items) ≡ [] }
    requires modules { map (λ m. m.now) modules.now
        ≡ start_modules (borrow_trees trees.now) graph.now.files.items
        (map (λ j. j.items) graph.now.jobs.items) graph.now.starts.items }
    ensures { IfOk result (IsBuilt files.now pages) }
{
    if is_too_large(modules, pages) {
        let refusals = too_large(alloc, trees)?;
        return Ok(Outcome::Refused(in_order(refusals)?));
    }
    build_modules(alloc, files, trees, graph, modules, pages)
}

/// The places of the jobs of files.
fn places_in(
    alloc: Global,
    trees: &[(&str, &Module)],
    graph: &Graph,
) -> Result<Vec<Option<usize>>, AllocError>
    requires { CompileEach (number_files 0 (borrow_trees trees.now)) graph.now.files.items }
    ensures { IfOk result (λ places. ArePlaces graph.now.files.items places.items) }
{
    places_of(alloc, trees.len(), graph.files())
}

/// The outcome of files with this graph, whose jobs came to these results.
fn of_results(
    alloc: Global,
    files: &[SourceFile],
    trees: &[(&str, &Module)],
    graph: &Graph,
    results: &[Compiled],
    pages: u32,
) -> Result<Outcome, AllocError>
    requires least { 1 ≤ pages }
    requires most { pages ≤ max_pages }
    requires graph { HaveGraph files.now (borrow_trees trees.now) graph.now.files.items
        (map (λ j. j.items) graph.now.jobs.items) graph.now.starts.items }
    requires results { results.now ≡ all_compiled (modules_borrowed trees.now) graph.now.files.items
        (map (λ j. j.items) graph.now.jobs.items) }
    ensures { IfOk result (IsBuilt files.now pages) }
{
    let places = places_in(alloc, trees, graph)?;
    let refusals = refused_by(alloc, trees, &places, results)?;
    if !refusals.is_empty() {
        return Ok(Outcome::Refused(in_order(refusals)?));
    }
    let modules = modules_at(alloc, results, &places, graph.start_order())?;
    program(alloc, files, trees, graph, &modules, pages)
}

/// The outcome of files with this graph.
fn of_graph<R: Threads + Sync, G: Gate>(
    runner: &Runner<'_, R, G>,
    files: &[SourceFile],
    trees: &[(&str, &Module)],
    graph: &Graph,
    pages: u32,
) -> Result<Outcome, AllocError>
    requires least { 1 ≤ pages }
    requires most { pages ≤ max_pages }
    requires graph { HaveGraph files.now (borrow_trees trees.now) graph.now.files.items
        (map (λ j. j.items) graph.now.jobs.items) graph.now.starts.items }
    ensures { IfOk result (IsBuilt files.now pages) }
{
    let results = runner.compile_all(trees, graph)?;
    of_results(runner.alloc, files, trees, graph, &results, pages)
}

/// The outcome of files whose texts have trees.
fn of_trees<R: Threads + Sync, G: Gate>(
    runner: &Runner<'_, R, G>,
    files: &[SourceFile],
    trees: &[(&str, &Module)],
    pages: u32,
) -> Result<Outcome, AllocError>
    requires least { 1 ≤ pages }
    requires most { pages ≤ max_pages }
    requires trees { AreTrees files.now (borrow_trees trees.now) }
    ensures { IfOk result (IsBuilt files.now pages) }
{
    match Graph::of(runner.alloc, trees) {
        Ok(graph) => of_graph(runner, files, trees, &graph, pages),
        Err(GraphError::Refused(refusals)) => Ok(Outcome::Refused(refusals)),
        Err(GraphError::NoMemory) => Err(AllocError),
    }
}

/// The outcome of files that were read so.
fn of_reads<R: Threads + Sync, G: Gate>(
    runner: &Runner<'_, R, G>,
    files: &[SourceFile],
    reads: &[Read],
    pages: u32,
) -> Result<Outcome, AllocError>
    requires least { 1 ≤ pages }
    requires most { pages ≤ max_pages }
    requires read { AreRead files.now reads.now }
    requires count { length files.now ≡ length reads.now }
    ensures { IfOk result (IsBuilt files.now pages) }
{
    let refused = refused_of(runner.alloc, files, reads)?;
    if !refused.is_empty() {
        return Ok(Outcome::Refused(in_order(refused)?));
    }
    let trees = trees_of(runner.alloc, files, reads)?;
    of_trees(runner, files, &trees, pages)
}

/// Lets go of what was read, each worker of its share: trees are large, and one thread would take long over all of them.
fn let_go<R: Threads + Sync, G: Gate>(runner: &Runner<'_, R, G>, reads: &mut [Read]) {
    thread::for_each_mut(
        runner.rt,
        reads,
        runner.workers,
        &|_file: usize, read: &mut Read| {
            *read = Read::Refused(Pos { line: 1, col: 1 }, 0);
        },
    );
}

/// What becomes of trees when a build has its outcome.
#[derive(Clone, Copy)]
pub enum Trees {
    /// They are dropped, for a caller that goes on.
    Dropped,
    /// They stay, for a program that ends, with which all memory goes at once.
    Left,
}

/// Does with what was read as it is told.
fn end_reads<R: Threads + Sync, G: Gate>(
    runner: &Runner<'_, R, G>,
    mut reads: Vec<Read>,
    trees: Trees,
) {
    match trees {
        Trees::Dropped => let_go(runner, reads.as_mut_slice()),
        Trees::Left => forget(reads),
    }
}

/// The outcome of a build if the numbers of workers and pages are fine.
pub fn outcome_of<R: Threads + Sync, G: Gate>(
    runner: &Runner<'_, R, G>,
    files: &[SourceFile],
    pages: u32,
    trees: Trees,
) -> Result<Outcome, AllocError>
    requires least { 1 ≤ pages }
    requires most { pages ≤ max_pages }
    ensures { IfOk result (IsBuilt files.now pages) }
{
    let reads = runner.read_all(files)?;
    let outcome = of_reads(runner, files, &reads, pages);
    end_reads(runner, reads, trees);
    outcome
}
