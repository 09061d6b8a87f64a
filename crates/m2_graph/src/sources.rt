//! Files in order of their names.

ghost use Rattle.std.specs.Prelude.{◌≡◌, map, IfOk};
ghost use Rattle.m2_graph.specs.Files.{files_of, trees, AreInOrder};
ghost use Rattle.m2_graph.specs.Sources.{file_of};

use m2_tree::Module;
use std::alloc::{AllocError, Global};

/// A file: its name, its module, and how many files were given before it.
#[derive(Clone, Copy)]
pub struct Source<'a> {
    pub name: &'a str,
    pub tree: &'a Module,
    pub given: usize,
}

fn borrow_sources<'a>(
    alloc: Global,
    files: &[(&'a str, &'a Module)],
) -> Result<Vec<Source<'a>>, AllocError>
    ensures { IfOk result (λ all. map file_of all.items ≡ files_of files.now) }
{
    let mut all = Vec::new(alloc);
    for (given, (name, tree)) in files.iter().enumerate() {
        all.push(Source { name, tree, given })?;
    }
    Ok(all)
}

/// The files in order of their names by their bytes, and as given if these are equal.
pub fn in_order<'a>(
    alloc: Global,
    files: &[(&'a str, &'a Module)],
) -> Result<Vec<Source<'a>>, AllocError>
    ensures { IfOk result (λ ordered. AreInOrder (files_of files.now) (map file_of ordered.items)) }
{
    let mut ordered = borrow_sources(alloc, files)?;
    ordered.sort_by(|f, g| f.name.as_bytes().cmp(&g.name.as_bytes()))?;
    Ok(ordered)
}

/// Their modules.
pub fn trees<'a>(alloc: Global, sources: &[Source<'a>]) -> Result<Vec<&'a Module>, AllocError>
    ensures { IfOk result (λ all. map (λ m. m.now) all.items ≡ trees (map file_of sources.now)) }
{
    let mut all = Vec::new(alloc);
    for source in sources {
        all.push(source.tree)?;
    }
    Ok(all)
}
