//! The typed modules of a program, in start order. `build` of m2c hands out the modules' code alone, so files in which it found
//! no broken rule are read and checked here once more, each module by the functions by which m2c's jobs do it.
#![tactic(auto)]

use anyhow::{Result, bail};
use build_jobs::{Read, SourceFile, read_text};
use check_body::check;
use check_definition::compile_definition;
use m2_graph::{Graph, GraphError};
use m2_tree::{Contents, Module};
use std::alloc::Global;
use std::sync::Arc;
use tree_parts::{Items, Shared};
use typed_tree::{Table, TypedModule};

/// What a job of the graph gives.
#[derive(Drop)]
enum Done {
    Defined(Shared<Table>),
    Checked,
}

/// The trees of files that have one each.
fn read_all(alloc: Global, files: &[SourceFile]) -> Result<Vec<Arc<Module>>> {
    let mut trees = Vec::new(alloc);
    for file in files {
        match read_text(alloc, &file.bytes)? {
            Read::Parsed(tree) => trees.push(tree)?,
            Read::Refused(_, _) => bail!("{} is refused", file.name),
        }
    }
    Ok(trees)
}

/// The trees with the files' names.
fn named_trees<'a>(
    alloc: Global,
    files: &'a [SourceFile],
    trees: &'a [Arc<Module>],
) -> Result<Vec<(&'a str, &'a Module)>> {
    let mut all = Vec::new(alloc);
    for (file, tree) in files.iter().zip(trees) {
        all.push((file.name.as_str(), &**tree))?;
    }
    Ok(all)
}

/// The tables of the definitions among these jobs.
fn tables_of(alloc: Global, done: &[Done], jobs: &[usize]) -> Result<Items<Shared<Table>>> {
    let mut tables = Items::new(alloc);
    for job in jobs {
        if let Some(Done::Defined(table)) = done.get(*job) {
            tables.push(table.share()?)?;
        }
    }
    Ok(tables)
}

/// The table of a definition, by the number of its job.
fn definition_table(
    alloc: Global,
    number: u32,
    tree: &Module,
    tables: Items<Shared<Table>>,
) -> Result<Done> {
    match compile_definition(alloc, number, tree, tables)? {
        Ok(table) => Ok(Done::Defined(Shared::new(alloc, table)?)),
        Err(_) => bail!("a definition is refused"),
    }
}

/// Whether this is the table of a body's own definition.
fn is_own(tree: &Module, table: &Table) -> bool {
    table.name.as_bytes() == tree.name.name.as_bytes()
}

/// The tables behind the table of a body's own definition.
fn behind(alloc: Global, tables: &[Shared<Table>]) -> Result<Items<Shared<Table>>> {
    let mut all = Items::new(alloc);
    for table in tables {
        all.push(table.share()?)?;
    }
    Ok(all)
}

/// A body, by the number of its job. The first table is the table of its own definition, if it has one.
fn typed_body(
    alloc: Global,
    number: u32,
    tree: &Module,
    tables: &[Shared<Table>],
) -> Result<TypedModule> {
    let elaborated = match tables {
        [first, rest @ ..] if is_own(tree, first.get()) => {
            check(alloc, number, tree, Some(first.get()), behind(alloc, rest)?)?
        }
        all => check(alloc, number, tree, None, behind(alloc, all)?)?,
    };
    match elaborated {
        Ok(typed) => Ok(typed),
        Err(_) => bail!("a body is refused"),
    }
}

/// The typed bodies, each with the place of its file.
#[derive(Drop)]
struct Bodies {
    alloc: Global,
    done: Vec<Done>,
    typed: Vec<(usize, TypedModule)>,
}

impl Bodies {
    /// One more job: the module of a file, with what it needs.
    fn add(&mut self, file: usize, tree: &Module, needs: &[usize]) -> Result<()> {
        let number = u32::try_from(self.done.len())?;
        let tables = tables_of(self.alloc, &self.done, needs)?;
        if let Contents::Definition(_) = &tree.contents {
            self.done
                .push(definition_table(self.alloc, number, tree, tables)?)?;
            return Ok(());
        }
        let typed = typed_body(self.alloc, number, tree, tables.as_slice())?;
        self.typed.push((file, typed))?;
        self.done.push(Done::Checked)?;
        Ok(())
    }

    /// Takes the body of a file.
    fn take(&mut self, file: usize) -> Option<TypedModule> {
        let place = self.typed.iter().position(|body| body.0 == file)?;
        let (_, typed) = self.typed.swap_remove(place);
        Some(typed)
    }
}

/// The graph of files with these trees.
fn graph_of(alloc: Global, files: &[SourceFile], trees: &[Arc<Module>]) -> Result<Graph> {
    let named = named_trees(alloc, files, trees)?;
    match Graph::of(alloc, &named) {
        Ok(graph) => Ok(graph),
        Err(GraphError::Refused(_)) => bail!("imports are refused"),
        Err(GraphError::NoMemory) => bail!("out of memory"),
    }
}

/// The typed bodies of the graph's files, in the order of its jobs.
fn bodies_of(alloc: Global, graph: &Graph, trees: &[Arc<Module>]) -> Result<Bodies> {
    let mut bodies = Bodies {
        alloc,
        done: Vec::new(alloc),
        typed: Vec::new(alloc),
    };
    for (file, needs) in graph.files().iter().zip(graph.jobs()) {
        if let Some(tree) = trees.get(*file) {
            bodies.add(*file, tree, needs)?;
        }
    }
    Ok(bodies)
}

/// The bodies of these files, in their order.
fn in_order(alloc: Global, files: &[usize], bodies: &mut Bodies) -> Result<Vec<TypedModule>> {
    let mut program = Vec::new(alloc);
    for file in files {
        if let Some(typed) = bodies.take(*file) {
            program.push(typed)?;
        }
    }
    Ok(program)
}

/// The typed bodies of a program that breaks no rule, in start order. An error if memory ran out, or if a rule is broken.
pub fn typed_program(alloc: Global, files: &[SourceFile]) -> Result<Vec<TypedModule>> {
    let trees = read_all(alloc, files)?;
    let graph = graph_of(alloc, files, &trees)?;
    let mut bodies = bodies_of(alloc, &graph, &trees)?;
    in_order(alloc, graph.start_order(), &mut bodies)
}
