//! What a definition module takes from others.

use crate::entries::{Entries, key_of};
use indexmap::{IndexMap, IndexSet};
use m2_tree::Symbol;
use outline_modules::{Outline, Sort, Unit, What};
use std::alloc::{AllocError, Global};

/// What an imported name is.
#[derive(Clone, Copy)]
enum Imported {
    /// A module.
    Module,
    /// A name of the module whose name this piece is.
    From(usize),
}

/// A name of another module, by the pieces of both names.
#[derive(Clone, Copy)]
pub struct Reference {
    pub module: usize,
    pub name: usize,
}

/// The names that a module imports.
#[derive(Drop)]
pub struct Imports {
    names: IndexMap<Vec<u8>, Imported>,
    /// The names of modules, and the names that are imported from them, in order.
    pub all: Vec<Reference>,
}

impl Imports {
    /// Adds the names of an import.
    fn add(&mut self, alloc: Global, of: &Outline<'_>, unit: &Unit) -> Result<(), AllocError> {
        let mut from = None;
        let mut is_behind_from = false;
        for number in unit.begin..unit.end {
            let what = of.pieces.get(number).map(|it| it.what);
            match what {
                Some(What::Symbol(Symbol::From)) => is_behind_from = true,
                Some(What::Symbol(Symbol::Import)) => is_behind_from = false,
                Some(What::Name) if is_behind_from => {
                    from = Some(number);
                    self.all.push(Reference {
                        module: number,
                        name: of.pieces.len(),
                    })?;
                }
                Some(What::Name) => self.add_name(alloc, of, from, number)?,
                _ => {}
            }
        }
        Ok(())
    }

    /// Adds an imported name: from a module, or a module.
    fn add_name(
        &mut self,
        alloc: Global,
        of: &Outline<'_>,
        from: Option<usize>,
        name: usize,
    ) -> Result<(), AllocError> {
        let key = Vec::from_slice(alloc, of.bytes_of(name))?;
        let (imported, reference) = match from {
            Some(module) => (Imported::From(module), Reference { module, name }),
            None => (
                Imported::Module,
                Reference {
                    module: name,
                    name: of.pieces.len(),
                },
            ),
        };
        self.names.insert(key, imported)?;
        self.all.push(reference)?;
        Ok(())
    }

    /// The imports of a module.
    pub fn of(alloc: Global, outline: &Outline<'_>) -> Result<Imports, AllocError> {
        let mut imports = Imports {
            names: IndexMap::new(alloc),
            all: Vec::new(alloc),
        };
        for unit in &outline.units {
            if unit.sort == Sort::Import {
                imports.add(alloc, outline, unit)?;
            }
        }
        Ok(imports)
    }

    /// What the name of this number is, where it is neither declared nor the name of a component.
    fn reference_at(&self, of: &Outline<'_>, name: usize) -> Option<Reference> {
        match self.names.get(of.bytes_of(name)) {
            Some(Imported::From(module)) => Some(Reference {
                module: *module,
                name,
            }),
            Some(Imported::Module) => {
                let dot = token_behind(of, name);
                let is_part = symbol_at(of, dot) == Some(Symbol::Dot);
                if !is_part {
                    return None;
                }
                Some(Reference {
                    module: name,
                    name: token_behind(of, dot),
                })
            }
            None => None,
        }
    }
}

/// The symbol of the piece of this number.
fn symbol_at(of: &Outline<'_>, number: usize) -> Option<Symbol> {
    match of.pieces.get(number)?.what {
        What::Symbol(symbol) => Some(symbol),
        _ => None,
    }
}

/// The number of the token behind the piece of this number.
fn token_behind(of: &Outline<'_>, number: usize) -> usize {
    let next = number.saturating_add(1);
    for behind in next..of.pieces.len() {
        if !of.is_comment(behind) {
            return behind;
        }
    }
    of.pieces.len()
}

/// The names of a unit that are used there, the last first. A name is declared if a colon follows it, maybe behind others of its
/// list, and a name behind a dot belongs to the name in front.
fn names_used(alloc: Global, of: &Outline<'_>, unit: &Unit) -> Result<Vec<usize>, AllocError> {
    let mut names = Vec::new(alloc);
    let mut is_declared = false;
    let mut waiting = None;
    for number in (unit.begin..unit.end).rev() {
        match of.pieces.get(number).map(|it| it.what) {
            Some(What::Comment) | None => continue,
            Some(What::Name) => {
                if let Some(name) = waiting {
                    names.push(name)?;
                }
                waiting = if is_declared { None } else { Some(number) };
                continue;
            }
            Some(What::Symbol(Symbol::Dot)) => waiting = None,
            Some(What::Symbol(Symbol::Colon)) => is_declared = true,
            Some(What::Symbol(Symbol::Comma)) => {}
            Some(What::Symbol(_) | What::Literal) => is_declared = false,
        }
        if let Some(name) = waiting {
            names.push(name)?;
        }
        waiting = None;
    }
    Ok(names)
}

/// The names of other modules that stand in a unit, each once, in order.
pub fn references_in(
    alloc: Global,
    of: &Outline<'_>,
    imports: &Imports,
    unit: &Unit,
) -> Result<Vec<Reference>, AllocError> {
    let mut found = Vec::new(alloc);
    let mut known = IndexSet::new(alloc);
    for number in names_used(alloc, of, unit)?.iter().rev() {
        if let Some(reference) = imports.reference_at(of, *number) {
            let module = of.bytes_of(reference.module);
            let key = key_of(alloc, module, of.bytes_of(reference.name))?;
            let (_, is_new) = known.insert_full(key)?;
            if is_new {
                found.push(reference)?;
            }
        }
    }
    Ok(found)
}

/// Which modules use each entry of a library, in order.
#[derive(Drop)]
pub struct Users {
    all: Vec<Vec<usize>>,
}

impl Users {
    /// No users, of so many entries.
    fn none(alloc: Global, count: usize) -> Result<Users, AllocError> {
        let mut all = Vec::new(alloc);
        for _ in 0..count {
            all.push(Vec::new(alloc))?;
        }
        Ok(Users { all })
    }

    /// Adds a user of an entry, once.
    fn add(&mut self, entry: usize, user: usize) -> Result<(), AllocError> {
        if let Some(users) = self.all.get_mut(entry) {
            if users.last().map(|last| *last) != Some(user) {
                users.push(user)?;
            }
        }
        Ok(())
    }

    /// Adds a module as a user of what these references name.
    fn add_all(
        &mut self,
        alloc: Global,
        entries: &Entries,
        of: &Outline<'_>,
        user: usize,
        references: &[Reference],
    ) -> Result<(), AllocError> {
        for reference in references {
            let module = of.bytes_of(reference.module);
            let name = of.bytes_of(reference.name);
            if let Some(number) = entries.number_of(alloc, module, name)? {
                match entries.at(number) {
                    Some(entry) if entry.module != user => {
                        self.add(entry.host.unwrap_or(number), user)?;
                    }
                    _ => {}
                }
            }
        }
        Ok(())
    }

    /// Adds a module as a user of what stands in its declarations.
    fn add_units(
        &mut self,
        alloc: Global,
        entries: &Entries,
        of: &Outline<'_>,
        user: usize,
        imports: &Imports,
    ) -> Result<(), AllocError> {
        for unit in &of.units {
            if unit.sort.is_export() {
                let references = references_in(alloc, of, imports, unit)?;
                self.add_all(alloc, entries, of, user, &references)?;
            }
        }
        Ok(())
    }

    /// The users of what these modules export.
    pub fn of(
        alloc: Global,
        entries: &Entries,
        outlines: &[Outline<'_>],
    ) -> Result<Users, AllocError> {
        let mut users = Users::none(alloc, entries.len())?;
        for (user, outline) in outlines.iter().enumerate() {
            let imports = Imports::of(alloc, outline)?;
            users.add_all(alloc, entries, outline, user, &imports.all)?;
            users.add_units(alloc, entries, outline, user, &imports)?;
        }
        Ok(users)
    }

    /// The users of the entry of this number.
    pub fn users_of(&self, entry: usize) -> &[usize] {
        match self.all.get(entry) {
            Some(users) => users.as_slice(),
            None => &[],
        }
    }
}
