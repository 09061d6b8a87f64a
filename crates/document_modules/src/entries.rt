//! The modules of a library and what they export, by their names.

use indexmap::IndexMap;
use outline_modules::{Outline, Unit, enumerated, own_names};
use std::alloc::{AllocError, Global};

/// What stands between the name of a module and a name that it exports.
const DOT: u8 = b'.';

/// Where a name is explained.
#[derive(Clone, Copy)]
pub struct Entry {
    /// The number of the module.
    pub module: usize,
    /// The piece with the name.
    pub name: usize,
    /// The piece with the name in the heading on the page. None is the page itself.
    pub heading: Option<usize>,
    /// How many headings in front of it have the same letters, be they capital or small.
    pub twins: usize,
    /// The number of the entry whose heading it is, if it is that of another.
    pub host: Option<usize>,
}

/// The modules of a library and what they export.
#[derive(Drop)]
pub struct Entries {
    /// By the name of a module with a dot behind it, and the name that it exports if it is not the module itself.
    all: IndexMap<Vec<u8>, Entry>,
}

/// A name of a module as one name. The module itself has the empty name.
pub fn key_of(alloc: Global, module: &[u8], name: &[u8]) -> Result<Vec<u8>, AllocError> {
    let mut key = Vec::from_slice(alloc, module)?;
    key.push(DOT)?;
    key.extend_from_slice(name)?;
    Ok(key)
}

/// These letters as small ones.
pub fn small_letters(alloc: Global, bytes: &[u8]) -> Result<Vec<u8>, AllocError> {
    let mut small = Vec::new(alloc);
    for byte in bytes {
        small.push(byte.to_ascii_lowercase())?;
    }
    Ok(small)
}

/// How many headings there are for each name in small letters.
type Twins = IndexMap<Vec<u8>, usize>;

/// Counts a heading. How many there were.
fn count(twins: &mut Twins, small: Vec<u8>) -> Result<usize, AllocError> {
    let before = twins.get(small.as_slice()).map_or(0, |it| *it);
    twins.insert(small, before.saturating_add(1))?;
    Ok(before)
}

impl Entries {
    /// Enters a name of a module. The number of its entry.
    fn enter(
        &mut self,
        alloc: Global,
        of: &Outline<'_>,
        entry: Entry,
    ) -> Result<usize, AllocError> {
        let key = key_of(alloc, of.name.as_bytes(), of.bytes_of(entry.name))?;
        let (number, _) = self.all.insert_full(key, entry)?;
        Ok(number)
    }

    /// Enters the names of a declaration, each with a heading of its own. What others have that are explained there.
    fn add_own(
        &mut self,
        alloc: Global,
        of: &Outline<'_>,
        module: usize,
        unit: &Unit,
        twins: &mut Twins,
    ) -> Result<Option<Entry>, AllocError> {
        let mut last = None;
        for name in &own_names(alloc, &of.pieces, unit)? {
            let small = small_letters(alloc, of.bytes_of(*name))?;
            let entry = Entry {
                module,
                name: *name,
                heading: Some(*name),
                twins: count(twins, small)?,
                host: None,
            };
            let host = Some(self.enter(alloc, of, entry)?);
            last = Some(Entry { host, ..entry });
        }
        Ok(last)
    }

    /// Enters the constants of the enumerations of a declaration, which are explained where this entry is.
    fn add_enumerated(
        &mut self,
        alloc: Global,
        of: &Outline<'_>,
        unit: &Unit,
        place: Entry,
    ) -> Result<(), AllocError> {
        for name in &enumerated(alloc, &of.pieces, unit)? {
            self.enter(
                alloc,
                of,
                Entry {
                    name: *name,
                    ..place
                },
            )?;
        }
        Ok(())
    }

    /// Enters what a module exports.
    fn add_exports(
        &mut self,
        alloc: Global,
        of: &Outline<'_>,
        module: usize,
    ) -> Result<(), AllocError> {
        let mut twins = IndexMap::new(alloc);
        for unit in &of.units {
            if unit.sort.is_export() {
                if let Some(place) = self.add_own(alloc, of, module, unit, &mut twins)? {
                    self.add_enumerated(alloc, of, unit, place)?;
                }
            }
        }
        Ok(())
    }

    /// The entries of these modules.
    pub fn of(alloc: Global, outlines: &[Outline<'_>]) -> Result<Entries, AllocError> {
        let mut entries = Entries {
            all: IndexMap::new(alloc),
        };
        for (module, outline) in outlines.iter().enumerate() {
            let itself = Entry {
                module,
                name: outline.pieces.len(),
                heading: None,
                twins: 0,
                host: None,
            };
            entries.enter(alloc, outline, itself)?;
            entries.add_exports(alloc, outline, module)?;
        }
        Ok(entries)
    }

    /// How many entries there are.
    pub fn len(&self) -> usize {
        self.all.len()
    }

    /// The entry of this number.
    pub fn at(&self, number: usize) -> Option<Entry> {
        self.all.get_index(number).map(|(_, entry)| *entry)
    }

    /// The number of the entry of a name of a module. The module itself has the empty name.
    pub fn number_of(
        &self,
        alloc: Global,
        module: &[u8],
        name: &[u8],
    ) -> Result<Option<usize>, AllocError> {
        let key = key_of(alloc, module, name)?;
        Ok(self.all.get_index_of(key.as_slice()))
    }
}
