//! The modules of a folder with their maps.

use anyhow::Result;
use map_files::{Map, MapFault, read_map};
use run_directory::InDir;
use std::alloc::{AllocError, Global};
use wasm_core::{Export, ValidModule, WModule, read_module, validate};
use watch_code::watch_numbered;

/// What stands in front of the name of a module among the exports of link.
const SLOTS: &str = "tab.";

/// Why a map is not used.
#[derive(Clone, Copy)]
pub enum Reason {
    /// It is not read.
    Fault(MapFault),
    /// It is the map of other bytes.
    Other,
}

/// What comes of the files of a folder.
#[derive(Drop)]
pub enum Loaded {
    /// The modules, which signal.
    Ready(Program),
    /// The map of the module of this name is not used.
    Unusable(String, Reason),
    /// A map or a module is not there.
    Missing,
}

/// The modules of a folder, link first, each with signals, and the maps of all but link.
#[derive(Drop)]
pub struct Program {
    pub modules: Vec<ValidModule>,
    pub maps: Vec<Map>,
}

/// A module with its map.
#[derive(Drop)]
enum Found {
    Mapped(WModule, Map),
    Unusable(Reason),
    Missing,
}

/// The names of the modules that link's exports name.
fn names_in(alloc: Global, exports: &[Export]) -> Result<Vec<String>, AllocError> {
    let mut names = Vec::new(alloc);
    for export in exports {
        let export = String::from_utf8_lossy(alloc, export.name.as_slice())?;
        if let Some(name) = export.as_str().strip_prefix(SLOTS) {
            names.push(String::from_str(alloc, name)?)?;
        }
    }
    Ok(names)
}

/// The bytes of the file of a module with this ending.
fn bytes_of<D: InDir>(
    alloc: Global,
    dir: &mut D,
    name: &str,
    ending: &str,
) -> Result<Option<Vec<u8>>, AllocError> {
    let file = format!(in alloc; "{name}.{ending}")?;
    Ok(dir.read(alloc, file.as_str()))
}

/// The module of these bytes with the map of this text.
fn found_in(alloc: Global, code: &[u8], text: &[u8]) -> Result<Found> {
    let map = match read_map(alloc, text) {
        Ok(map) => map,
        Err(fault) => return Ok(Found::Unusable(Reason::Fault(fault))),
    };
    if !map.is_of(alloc, code)? {
        return Ok(Found::Unusable(Reason::Other));
    }
    Ok(Found::Mapped(read_module(alloc, code)?, map))
}

/// The module of this name with its map.
fn look_for<D: InDir>(alloc: Global, dir: &mut D, name: &str) -> Result<Found> {
    let text = bytes_of(alloc, dir, name, "map")?;
    let code = bytes_of(alloc, dir, name, "wasm")?;
    match (text, code) {
        (Some(text), Some(code)) => found_in(alloc, &code, &text),
        _ => Ok(Found::Missing),
    }
}

/// The numbers of the instructions with which rows of a map begin, for each function.
fn numbers_of(alloc: Global, map: &Map) -> Result<Vec<Vec<u32>>, AllocError> {
    let mut all = Vec::new(alloc);
    for function in &map.functions {
        let mut numbers = Vec::new(alloc);
        for row in &function.rows {
            numbers.push(row.number)?;
        }
        all.push(numbers)?;
    }
    Ok(all)
}

impl Program {
    /// How many functions all maps have.
    fn functions(&self) -> u32 {
        let mut all: u32 = 0;
        for map in &self.maps {
            let count = u32::try_from(map.functions.len()).unwrap_or(u32::MAX);
            all = all.saturating_add(count);
        }
        all
    }

    /// One more module, which signals where its map says.
    fn add(&mut self, alloc: Global, tree: WModule, map: Map) -> Result<()> {
        let numbers = numbers_of(alloc, &map)?;
        let tree = watch_numbered(alloc, tree, self.functions(), &numbers)?;
        self.modules.push(validate(alloc, tree)?)?;
        self.maps.push(map)?;
        Ok(())
    }
}

/// Reads the modules of these names behind link.
fn load_all<D: InDir>(
    alloc: Global,
    dir: &mut D,
    link: WModule,
    names: &[String],
) -> Result<Loaded> {
    let mut program = Program {
        modules: Vec::new(alloc),
        maps: Vec::new(alloc),
    };
    program.modules.push(validate(alloc, link)?)?;
    for name in names {
        match look_for(alloc, dir, name.as_str())? {
            Found::Mapped(tree, map) => program.add(alloc, tree, map)?,
            Found::Unusable(reason) => {
                let name = String::from_str(alloc, name.as_str())?;
                return Ok(Loaded::Unusable(name, reason));
            }
            Found::Missing => return Ok(Loaded::Missing),
        }
    }
    Ok(Loaded::Ready(program))
}

/// Reads the modules of a folder with their maps.
pub fn load<D: InDir>(alloc: Global, dir: &mut D) -> Result<Loaded> {
    let Some(bytes) = bytes_of(alloc, dir, "link", "wasm")? else {
        return Ok(Loaded::Missing);
    };
    let link = read_module(alloc, &bytes)?;
    let names = names_in(alloc, link.exports.as_slice())?;
    load_all(alloc, dir, link, &names)
}
