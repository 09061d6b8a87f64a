//! What is read of files.

ghost use Rattle.std.specs.Prelude.{◌≡◌, ◌++◌, IfOk, OnOk, length};
ghost use Rattle.std.specs.String.{string_bytes};
ghost use Rattle.build_results.specs.Texts.{tree_in, trees_of};
ghost use Rattle.build_jobs.specs.Borrowed.{borrow_trees};

use build_jobs::{Read, SourceFile};
use m2_tree::Module;
use std::alloc::{AllocError, Global};

/// Adds the tree of a text.
fn add_tree<'a>(
    trees: &mut Vec<(&'a str, &'a Module)>,
    file: &'a SourceFile,
    read: &'a Read,
) -> Result<(), AllocError>
    ensures { OnOk result
        (borrow_trees trees.new.items
        ≡ borrow_trees trees.old.items ++ tree_in (string_bytes file.now.name) read.now) }
{
    match read {
        Read::Refused(_, _) => Ok(()),
        Read::Parsed(tree) => {
            trees.push((&file.name, tree))?;
            Ok(())
        }
    }
}

/// The trees of texts, with the files' names.
pub fn trees_of<'a>(
    alloc: Global,
    files: &'a [SourceFile],
    reads: &'a [Read],
) -> Result<Vec<(&'a str, &'a Module)>, AllocError>
    requires { length files.now ≡ length reads.now }
    ensures { IfOk result (λ trees. borrow_trees trees.items ≡ trees_of files.now reads.now) }
{
    let mut trees = Vec::new(alloc);
    for k in 0..files.len() {
        add_tree(&mut trees, &files[k], &reads[k])?;
    }
    Ok(trees)
}
