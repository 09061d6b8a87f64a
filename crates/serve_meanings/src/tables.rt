//! The tables of a program's definitions.

use check_definition::{compile_definition, with_console};
use m2_graph::{Graph, GraphError};
use m2_tree::{Contents, Module};
use std::alloc::{AllocError, Global};
use tree_parts::{Items, Shared};
use typed_tree::Table;

/// A file of a program: its name and its tree.
pub type Tree<'a> = (&'a str, &'a Module);

/// The jobs of a program, and for each the table of its definition. A body has none, nor has a definition that is refused.
#[derive(Drop)]
pub struct Tables {
    pub graph: Graph,
    pub all: Vec<Option<Shared<Table>>>,
}

/// The graph of files, or nothing if a rule of imports is broken.
fn graph_of(alloc: Global, trees: &[Tree<'_>]) -> Result<Option<Graph>, AllocError> {
    match Graph::of(alloc, trees) {
        Ok(graph) => Ok(Some(graph)),
        Err(error) => match error {
            GraphError::Refused(_refusals) => Ok(None),
            GraphError::NoMemory => Err(AllocError),
        },
    }
}

/// The tables of these jobs, in this order.
fn needed(
    alloc: Global,
    all: &[Option<Shared<Table>>],
    needs: &[usize],
) -> Result<Items<Shared<Table>>, AllocError> {
    let mut tables = Items::new(alloc);
    for job in needs {
        if let Some(Some(table)) = all.get(*job) {
            tables.push(table.share()?)?;
        }
    }
    Ok(tables)
}

/// A number of a job as the checker has it. A program has at most 1024 files.
pub fn number_of(job: usize) -> u32 {
    u32::try_from(job).unwrap_or(u32::MAX)
}

/// The table of a module, if it is a definition in which no rule is broken.
fn table_of(
    alloc: Global,
    module: &Module,
    needs: &[usize],
    all: &[Option<Shared<Table>>],
) -> Result<Option<Shared<Table>>, AllocError> {
    if !matches!(&module.contents, Contents::Definition(_)) {
        return Ok(None);
    }
    let tables = needed(alloc, all, needs)?;
    match compile_definition(alloc, number_of(all.len()), module, tables)? {
        Ok(table) => Ok(Some(Shared::new(alloc, table)?)),
        Err(_breach) => Ok(None),
    }
}

/// The tables of all jobs of a graph.
fn all_tables(
    alloc: Global,
    graph: &Graph,
    trees: &[Tree<'_>],
) -> Result<Vec<Option<Shared<Table>>>, AllocError> {
    let mut all = Vec::new(alloc);
    for (file, needs) in graph.files().iter().zip(graph.jobs()) {
        let table = match trees.get(*file) {
            Some(tree) => table_of(alloc, tree.1, needs, &all)?,
            None => None,
        };
        all.push(table)?;
    }
    Ok(all)
}

impl Tables {
    /// The tables of a program of these files, or nothing if a rule of imports is broken. The only error is want of memory.
    pub fn of(alloc: Global, trees: &[Tree<'_>]) -> Result<Option<Tables>, AllocError> {
        let Some(graph) = graph_of(alloc, trees)? else {
            return Ok(None);
        };
        let all = all_tables(alloc, &graph, trees)?;
        Ok(Some(Tables { graph, all }))
    }

    /// The job of a file.
    pub fn job_of(&self, file: usize) -> Option<usize> {
        self.graph.files().iter().position(|it| *it == file)
    }

    /// The table that a job gives.
    pub fn table(&self, job: usize) -> Option<&Table> {
        match self.all.get(job) {
            Some(Some(table)) => Some(table.get()),
            Some(None) | None => None,
        }
    }

    /// The jobs that a job needs.
    pub fn needs(&self, job: usize) -> &[usize] {
        match self.graph.jobs().get(job) {
            Some(needs) => needs.as_slice(),
            None => &[],
        }
    }

    /// The tables of the definitions of these jobs, with that of Console behind them.
    pub fn around(
        &self,
        alloc: Global,
        needs: &[usize],
    ) -> Result<Items<Shared<Table>>, AllocError> {
        with_console(alloc, needed(alloc, &self.all, needs)?)
    }
}
