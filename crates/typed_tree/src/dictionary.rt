//! Lists of names with what each stands for.

ghost use Rattle.std.specs.Prelude.{◌≡◌, [], length, slice_get, IfOk, OnOk};
ghost use Rattle.std.specs.Option.{option_copied, option_map};
ghost use Rattle.typed_tree.specs.Names.{find_name, place_of, enter_name};

use indexmap::IndexMap;
use std::alloc::{AllocError, Global};
use std::marker::Model;

/// Names, each once, in the order in which they were entered, with what each stands for. A name is found by hash.
/// Contracts see the list of the pairs.
#[derive(Drop)]
pub struct Dictionary<V> {
    names: IndexMap<Vec<u8>, V>,
}

impl<V> Model for Dictionary<V> {
    ghost use Rattle.std.specs.Prelude.{ℕ, List, map};

    ghost Value = { List (List ℕ × V) };

    ghost view = { λ d. map (λ e. (e.0.items, e.1)) d.names.entries };
}

impl<V> Dictionary<V> {
    /// No names.
    pub fn new(alloc: Global) -> Dictionary<V>
        ensures { result ≡ [] }
    {
        Dictionary {
            names: IndexMap::new(alloc),
        }
    }

    /// How many names there are.
    pub fn len(&self) -> usize
        ensures { result ≡ length self.now }
    {
        self.names.len()
    }

    /// What a name stands for.
    pub fn find(&self, name: &[u8]) -> Option<&V>
        ensures { option_copied result ≡ find_name name.now self.now }
    {
        self.names.get(name)
    }

    /// The place of a name in the list, from 0.
    pub fn place(&self, name: &[u8]) -> Option<usize>
        ensures { result ≡ place_of name.now self.now }
    {
        self.names.get_index_of(name)
    }

    /// What stands at a place in the list, from 0.
    pub fn get(&self, place: usize) -> Option<(&[u8], &V)>
        ensures { option_map (λ e. (e.0.now, e.1.now)) result ≡ slice_get self.now place }
    {
        let (name, value) = self.names.get_index(place)?;
        Some((name.as_slice(), value))
    }
}

impl<V: Drop> Dictionary<V> {
    /// Enters a name: a new one at the end, and one that is there at its place. The only error is that memory ran out.
    pub fn enter(&mut self, alloc: Global, name: &[u8], value: V) -> Result<(), AllocError>
        ensures { OnOk result (self.new ≡ enter_name name.now value self.old) }
    {
        let key = Vec::from_slice(alloc, name)?;
        self.names.insert(key, value)?;
        Ok(())
    }
}
