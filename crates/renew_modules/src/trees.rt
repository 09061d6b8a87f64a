//! The trees of definitions, each read once.

use crate::planning::Plan;
use build_jobs::{Read, SourceFile, read_text};
use indexmap::IndexMap;
use kept_modules::Kept;
use list_imports::add_imports;
use m2_tree::{Contents, Module};
use std::alloc::{AllocError, Global};
use std::sync::Arc;

/// The most modules that a body needs: as many as a program may have files.
const MOST_MODULES: usize = 1024;

/// The trees of the definitions that were kept, as far as they were read.
#[derive(Drop)]
pub struct Trees {
    all: Vec<Option<Arc<Module>>>,
}

/// The program of which a part is compiled.
#[derive(Clone, Copy)]
pub struct Whole<'a> {
    pub files: &'a [SourceFile],
    pub kept: &'a Kept,
    pub plan: &'a Plan,
}

/// The tree of the definition of this module, if the text has one.
fn tree_in(alloc: Global, text: &[u8], name: &str) -> Result<Option<Arc<Module>>, AllocError> {
    let Read::Parsed(tree) = read_text(alloc, text)? else {
        return Ok(None);
    };
    let is_definition = matches!(&tree.contents, Contents::Definition(_));
    if is_definition && tree.name.name.as_bytes() == name.as_bytes() {
        Ok(Some(tree))
    } else {
        Ok(None)
    }
}

/// The tree of the definition of this number.
fn read_one(
    alloc: Global,
    whole: &Whole<'_>,
    number: usize,
) -> Result<Option<Arc<Module>>, AllocError> {
    let place = whole.plan.definitions.get(number).copied();
    let file = place.and_then(|it| whole.files.get(it));
    match (whole.kept.definitions.get(number), file) {
        (Some(definition), Some(file)) => { tree_in(alloc, &file.bytes, definition.name.as_str()) }
        _ => Ok(None),
    }
}

impl Trees {
    /// No tree of so many definitions.
    pub fn none(alloc: Global, count: usize) -> Result<Trees, AllocError> {
        let mut all = Vec::new(alloc);
        for _ in 0..count {
            all.push(None)?;
        }
        Ok(Trees { all })
    }

    /// The tree of a definition, if it was read.
    pub fn get(&self, number: usize) -> Option<&Arc<Module>> {
        self.all.get(number).and_then(|it| it.as_ref())
    }

    /// Reads the tree of a definition, if it was not read before. Whether it has one.
    pub fn read(
        &mut self,
        alloc: Global,
        whole: &Whole<'_>,
        number: usize,
    ) -> Result<bool, AllocError> {
        if self.get(number).is_some() {
            return Ok(true);
        }
        let found = read_one(alloc, whole, number)?;
        let is_found = found.is_some();
        if let Some(tree) = self.all.get_mut(number) {
            *tree = found;
        }
        Ok(is_found)
    }

    /// Adds the modules that a definition imports.
    fn add_imports(
        &self,
        alloc: Global,
        number: usize,
        names: &mut Vec<String>,
    ) -> Result<(), AllocError> {
        match self.get(number) {
            Some(tree) => add_imports(alloc, names, tree),
            None => Ok(()),
        }
    }

    /// The definitions of the modules of these names and of those that these import, directly and through others. None if one is not
    /// there.
    pub fn needed(
        &mut self,
        alloc: Global,
        whole: &Whole<'_>,
        numbers: &IndexMap<&[u8], usize>,
        names: Vec<String>,
    ) -> Result<Option<Vec<usize>>, AllocError> {
        let mut names = names;
        let mut needed = Vec::new(alloc);
        for at in 0..MOST_MODULES {
            let Some(name) = names.get(at) else {
                break;
            };
            let Some(number) = numbers.get(name.as_bytes()).copied() else {
                return Ok(None);
            };
            if !self.read(alloc, whole, number)? {
                return Ok(None);
            }
            self.add_imports(alloc, number, &mut names)?;
            needed.push(number)?;
        }
        Ok(Some(needed))
    }
}
