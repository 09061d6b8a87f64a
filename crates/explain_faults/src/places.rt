//! Places of a run, as maps tell them.

use m2_tree::Pos;
use map_files::{Map, Mapped};
use std::alloc::{AllocError, Global};
use watch_code::Activation;

/// Where a function is that runs.
#[derive(Clone, Copy)]
pub struct Place<'a> {
    pub map: &'a Map,
    pub function: &'a Mapped,
    pub pos: Pos,
}

/// The map that has the function of this number among those of all maps, and its number in it.
fn find(maps: &[Map], number: usize) -> Option<(&Map, usize)> {
    let mut before: usize = 0;
    for map in maps {
        let own = number.saturating_sub(before);
        if own < map.functions.len() {
            return Some((map, own));
        }
        before = before.saturating_add(map.functions.len());
    }
    None
}

/// Where a function is that runs, by the maps of all modules.
pub fn place_of(maps: &[Map], activation: Activation) -> Option<Place<'_>> {
    let (map, own) = find(maps, activation.function as usize)?;
    let function = map.functions.get(own)?;
    let row = activation.mark.and_then(|number| function.rows.get(number));
    let pos = row.map_or(function.pos, |it| it.pos);
    Some(Place { map, function, pos })
}

impl Place<'_> {
    /// Which function it is in: `Module.Procedure`, or the body of a module.
    pub fn function(&self, alloc: Global) -> Result<String, AllocError> {
        let (module, name) = (&self.map.module, &self.function.name);
        if self.function.is_body {
            format!(in alloc; "the body of {module}")
        } else {
            format!(in alloc; "{module}.{name}")
        }
    }

    /// The file, the line and the column.
    pub fn spot(&self, alloc: Global) -> Result<String, AllocError> {
        let file = &self.map.source;
        let Pos { line, col } = self.pos;
        format!(in alloc; "{file}:{line}:{col}")
    }
}
