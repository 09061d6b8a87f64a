//! The types that modules make, by the modules' numbers.

ghost use Rattle.std.specs.Prelude.{◌≡◌, [], length, nat_eq, slice_get, OnOk};
ghost use Rattle.std.specs.Option.{option_copied, option_map};
ghost use Rattle.std.specs.Map.{lookup};
ghost use Rattle.indexmap.specs.IndexMap.{insert_entry};

use crate::shape::Made;
use indexmap::IndexMap;
use std::alloc::{AllocError, Global};
use std::marker::Model;
use tree_parts::{Items, Shared};

/// Numbers of modules, each once, in the order in which they were entered, with the types that each makes.
#[derive(Drop)]
pub struct Reached {
    modules: IndexMap<u32, Shared<Items<Made>>>,
}

impl Model for Reached {
    ghost use Rattle.std.specs.Prelude.{ℕ, List};
    ghost use Rattle.typed_tree.specs.declared.shape.Made.{Made};

    ghost Value = { List (ℕ × List Made) };

    ghost view = { λ r. r.modules.entries };
}

impl Reached {
    /// No modules.
    pub fn new(alloc: Global) -> Reached
        ensures { result ≡ [] }
    {
        Reached {
            modules: IndexMap::new(alloc),
        }
    }

    /// How many modules there are.
    pub fn len(&self) -> usize
        ensures { result ≡ length self.now }
    {
        self.modules.len()
    }

    /// The types of the module of this number.
    pub fn find(&self, number: u32) -> Option<&Shared<Items<Made>>>
        ensures { option_copied result ≡ lookup (nat_eq number) self.now }
    {
        self.modules.get(&number)
    }

    /// What stands at a place, from 0.
    pub fn get(&self, place: usize) -> Option<(&u32, &Shared<Items<Made>>)>
        ensures { option_map (λ e. (e.0.now, e.1.now)) result ≡ slice_get self.now place }
    {
        self.modules.get_index(place)
    }

    /// Enters a module: a new one at the end. The only error is that memory ran out.
    pub fn enter(&mut self, number: u32, made: Shared<Items<Made>>) -> Result<(), AllocError>
        ensures { OnOk result (self.new ≡ insert_entry nat_eq self.old number made) }
    {
        self.modules.insert(number, made)?;
        Ok(())
    }
}
