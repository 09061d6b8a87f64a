//! What is known of the names of a program, and what is asked of it.

use crate::parsed::{Outline, Parsed};
use crate::units::{all_bodies, all_definitions, all_names};
use m2_tree::{Module, Pos};
use serve_scopes::{Declaration, Focus, Marks, Packed, Place, Program, Shape, Standing, Use};
use serve_walks::Walk;
use std::alloc::{AllocError, Global};

/// What every name of a program stands for. Declarations are known by their numbers, files by their places among those that were given.
#[derive(Drop)]
pub struct Index {
    pub(crate) program: Program,
}

/// The uses from one number to another, as far as there are so many.
fn between(uses: &[Packed], from: usize, to: usize) -> &[Packed] {
    let front = &uses[..to.min(uses.len())];
    &front[from.min(front.len())..]
}

/// How many uses stand in files before this one.
fn count_before(uses: &[Packed], file: usize) -> usize {
    uses.partition_point(|it| it.file() < file)
}

/// What the names of files with these trees and tokens stand for, in the order in which they are come upon.
fn gathered(
    alloc: Global,
    trees: &[Option<&Module>],
    marks: Vec<Marks>,
    focus: Option<Focus>,
) -> Result<Program, AllocError> {
    let mut walk = Walk::new(alloc, marks, focus);
    let numbers = all_names(&mut walk, trees)?;
    all_definitions(&mut walk, trees, &numbers)?;
    all_bodies(&mut walk, trees)?;
    let Walk { program, .. } = walk;
    Ok(program)
}

/// The same of files with these outlines, whose trees are let go.
fn gathered_outlines(
    alloc: Global,
    files: Vec<Option<Outline>>,
    focus: Option<Focus>,
) -> Result<Program, AllocError> {
    let mut marks = Vec::new(alloc);
    let mut trees = Vec::new(alloc);
    for file in files {
        match file {
            Some(Outline { marks: one, tree }) => {
                marks.push(one)?;
                trees.push(Some(tree))?;
            }
            None => {
                marks.push(Marks::none(alloc))?;
                trees.push(None)?;
            }
        }
    }
    gathered(alloc, &lent(alloc, &trees)?, marks, focus)
}

/// Trees, lent.
fn lent(alloc: Global, trees: &[Option<Module>]) -> Result<Vec<Option<&Module>>, AllocError> {
    let mut all = Vec::new(alloc);
    for tree in trees {
        all.push(tree.as_ref())?;
    }
    Ok(all)
}

impl Index {
    /// The index of the files of a program. Of a file that has no tree nothing is known. The only error is that memory ran out.
    pub fn of(alloc: Global, files: &[Option<&Parsed>]) -> Result<Index, AllocError> {
        let mut marks = Vec::new(alloc);
        let mut trees = Vec::new(alloc);
        for file in files {
            match file {
                Some(parsed) => marks.push(parsed.marks(alloc)?)?,
                None => marks.push(Marks::none(alloc))?,
            }
            trees.push(file.map(|it| &it.tree))?;
        }
        Index::sorted(gathered(alloc, &trees, marks, None)?)
    }

    /// The index of the files of a program with these outlines. If a place is asked about, the names inside of other procedures are
    /// left out, and those in the statements of other files. The only error is that memory ran out.
    pub fn of_outlines(
        alloc: Global,
        files: Vec<Option<Outline>>,
        focus: Option<Focus>,
    ) -> Result<Index, AllocError> {
        Index::sorted(gathered_outlines(alloc, files, focus)?)
    }

    /// The index of what was gathered.
    fn sorted(program: Program) -> Result<Index, AllocError> {
        let mut index = Index { program };
        index.program.uses.sort()?;
        index.program.unresolved.sort()?;
        Ok(index)
    }

    /// All declarations. Those of one block stand in the order of the text.
    pub fn declarations(&self) -> &[Declaration] {
        &self.program.declarations
    }

    /// The declaration of this number.
    pub fn declaration(&self, number: usize) -> Option<&Declaration> {
        self.program.declaration(number)
    }

    /// All places at which a name stands for a declaration, in the order of files and places.
    pub fn uses(&self) -> &[Packed] {
        &self.program.uses
    }

    /// The names that stand for nothing, in the order of files and places. A program that is accepted has none.
    pub fn unresolved(&self) -> &[Place] {
        &self.program.unresolved
    }

    /// The uses in a file, in order.
    pub fn uses_in(&self, file: usize) -> &[Packed] {
        let uses = self.uses();
        let behind = count_before(uses, file.saturating_add(1));
        between(uses, count_before(uses, file), behind)
    }

    /// The use in whose name a place lies, or directly behind it.
    pub fn use_at(&self, file: usize, pos: Pos) -> Option<Use> {
        let uses = self.uses_in(file);
        let behind = uses.partition_point(|it| it.pos() <= pos);
        let found = uses.get(behind.checked_sub(1)?)?.unpacked();
        if found.place.has(file, pos) {
            Some(found)
        } else {
            None
        }
    }

    /// The declaration that the name at a place stands for.
    pub fn at(&self, file: usize, pos: Pos) -> Option<usize> {
        self.use_at(file, pos).map(|it| it.declaration)
    }

    /// All places of a declaration, in order: where it is declared, implemented, closed, imported and used. The only error is that
    /// memory ran out.
    pub fn uses_of(&self, alloc: Global, declaration: usize) -> Result<Vec<Use>, AllocError> {
        let mut found = Vec::new(alloc);
        for it in self.uses() {
            if it.declaration() == declaration {
                found.push(it.unpacked())?;
            }
        }
        Ok(found)
    }

    /// What the definition of a module exports, in the order of the text. The only error is that memory ran out.
    pub fn exports_of(&self, alloc: Global, module: usize) -> Result<Vec<usize>, AllocError> {
        let mut exported = Vec::new(alloc);
        let scope = self.declaration(module).and_then(|it| it.scope);
        let scope = scope.and_then(|number| self.program.scopes.get(number));
        if let Some(scope) = scope {
            for place in 0..scope.names.len() {
                if let Some((_, Standing::Declared(number))) = scope.names.get_index(place) {
                    exported.push(*number)?;
                }
            }
        }
        Ok(exported)
    }

    /// The modules that can be imported, in the order of the files. The only error is that memory ran out.
    pub fn modules(&self, alloc: Global) -> Result<Vec<usize>, AllocError> {
        let mut all = Vec::new(alloc);
        for place in 0..self.program.modules.len() {
            if let Some((_, number)) = self.program.modules.get_index(place) {
                all.push(*number)?;
            }
        }
        Ok(all)
    }

    /// The declaration of the named type of a variable, a formal or a field, of an array that of its elements, of a function that of
    /// its result, and of a constant of an enumeration the type that it is written in. A type that is no other by name has none.
    pub fn type_of(&self, declaration: usize) -> Option<usize> {
        let constants = self.owner_of_constant(declaration);
        if constants.is_some() {
            return constants;
        }
        self.program.type_of(declaration)?.named
    }

    /// The type whose enumeration has this constant.
    fn owner_of_constant(&self, declaration: usize) -> Option<usize> {
        let owner = self.declaration(declaration)?.parent?;
        let constants = self.declaration(owner)?.constants;
        if constants.begin <= declaration && declaration < constants.end {
            Some(owner)
        } else {
            None
        }
    }

    /// The declarations that stand in this one, in the order of the text, those of the definition before those of the implementation.
    /// The only error is that memory ran out.
    pub fn children_of(&self, alloc: Global, declaration: usize) -> Result<Vec<usize>, AllocError> {
        let mut children = Vec::new(alloc);
        for (number, it) in self.declarations().iter().enumerate() {
            if it.parent == Some(declaration) {
                children.push(number)?;
            }
        }
        Ok(children)
    }

    /// Whether a variable, a formal, a field or a type is an array or a record, whose components are picked behind it.
    pub fn has_components(&self, declaration: usize) -> bool {
        match self.program.type_of(declaration) {
            Some(of) => matches!(of.shape, Shape::Array(_) | Shape::Record(_)),
            None => false,
        }
    }
}
