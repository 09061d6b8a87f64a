//! What may be written at a place.

use crate::index::Index;
use indexmap::IndexSet;
use m2_tree::Pos;
use serve_scopes::Standing;
use serve_words::{Sort, predeclared_words};
use std::alloc::{AllocError, Global};

/// A name that may be written.
#[derive(Drop)]
pub struct Offer {
    /// The name.
    pub name: Vec<u8>,
    /// The declaration that it would stand for. None of a predeclared name, of the built in module and of its procedure.
    pub declaration: Option<usize>,
}

/// Names that may be written, each once.
#[derive(Drop)]
pub(crate) struct Offers {
    alloc: Global,
    all: Vec<Offer>,
    known: IndexSet<Vec<u8>>,
}

impl Offers {
    /// No names.
    pub(crate) fn new(alloc: Global) -> Offers {
        Offers {
            alloc,
            all: Vec::new(alloc),
            known: IndexSet::new(alloc),
        }
    }

    /// Adds a name, unless it is known.
    pub(crate) fn add(
        &mut self,
        name: &[u8],
        declaration: Option<usize>,
    ) -> Result<(), AllocError> {
        let (_, is_new) = self.known.insert_full(Vec::from_slice(self.alloc, name)?)?;
        if is_new {
            self.all.push(Offer {
                name: Vec::from_slice(self.alloc, name)?,
                declaration,
            })?;
        }
        Ok(())
    }

    /// The names.
    pub(crate) fn into_all(self) -> Vec<Offer> {
        let Offers { all, .. } = self;
        all
    }
}

impl Index {
    /// Adds the names of a scope.
    pub(crate) fn add_scope(&self, offers: &mut Offers, scope: usize) -> Result<(), AllocError> {
        if let Some(scope) = self.program.scopes.get(scope) {
            for place in 0..scope.names.len() {
                match scope.names.get_index(place) {
                    Some((name, Standing::Declared(number))) => offers.add(name, Some(*number))?,
                    Some((name, Standing::BuiltIn)) => offers.add(name, None)?,
                    None => {}
                }
            }
        }
        Ok(())
    }

    /// What may be written at a place of a file: the fields of the records of the WITHs around it, the names of the blocks around, the
    /// innermost first, and the predeclared names. A name that an inner one hides does not come. The only error is that memory ran
    /// out.
    pub fn in_scope(&self, alloc: Global, file: usize, pos: Pos) -> Result<Vec<Offer>, AllocError> {
        let mut offers = Offers::new(alloc);
        for region in self.program.regions.iter().rev() {
            if region.file == file && region.range.has(pos) {
                self.add_scope(&mut offers, region.scope)?;
            }
        }
        for word in predeclared_words() {
            if word.sort != Sort::Console {
                offers.add(word.name.as_bytes(), None)?;
            }
        }
        Ok(offers.into_all())
    }

    /// What a name would stand for at a place of a file, if it is not predeclared.
    pub(crate) fn standing_at(&self, file: usize, pos: Pos, name: &[u8]) -> Option<Standing> {
        for region in self.program.regions.iter().rev() {
            if region.file == file && region.range.has(pos) {
                let found = self.program.found(region.scope, name);
                if found.is_some() {
                    return found;
                }
            }
        }
        None
    }

    /// The declaration that a name would stand for at a place of a file.
    pub fn named(&self, file: usize, pos: Pos, name: &[u8]) -> Option<usize> {
        match self.standing_at(file, pos, name) {
            Some(Standing::Declared(number)) => Some(number),
            Some(Standing::BuiltIn) | None => None,
        }
    }
}
