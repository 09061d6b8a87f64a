//! Tables of definitions.

use crate::dictionary::Dictionary;
use crate::meaning::Meaning;
use crate::shape::Made;
use m2_tree::Name;
use tree_parts::{Items, Shared};

/// The types that a module makes, by their numbers.
#[derive(Drop)]
pub struct ModuleTypes {
    pub number: u32,
    pub made: Shared<Items<Made>>,
}

/// What a definition gives to those who import it.
pub struct Table {
    /// The number of the module, by which its types are known.
    pub number: u32,
    pub name: Name,
    /// The modules that it imports, in order, each once, with their numbers.
    pub imports: Dictionary<u32>,
    /// What it exports, in order.
    pub exported: Dictionary<Meaning>,
    /// The types of each module whose types can be met through it, each module behind those whose types it names.
    pub reached: Items<ModuleTypes>,
}

// Written by hand, so that proofs above take a drop as one call, and not as one for each field.
impl Drop for Table {
    fn drop(self) {
        let Table {
            number: _,
            name,
            imports,
            exported,
            reached,
        } = self;
        drop(name);
        drop(imports);
        drop(exported);
        drop(reached);
    }
}
