//! A program whose modules tell what they write, and where its variables stand.

use anyhow::Result;
use explain_runs::{Marked, storing_modules};
use std::alloc::Global;
use wasm_core::{Code, ExportKind, Op, ValidModule, WModule, read_module};

/// The bytes of a page of memory.
const PAGE: usize = 65536;

/// Where the parts of a module stand.
#[derive(Clone, Copy)]
pub struct Places {
    /// The address of its variables, and of its texts.
    pub variables: u32,
    pub texts: u32,
    /// The number of its body in the table. Its procedures stand behind it.
    pub slot: u32,
}

/// A program that can be run again and again.
pub struct Prepared {
    pub modules: Vec<ValidModule>,
    /// Where the parts of each module stand, in start order.
    pub places: Vec<Places>,
    /// The texts of the modules, each with its address.
    pub texts: Vec<(u32, Vec<u8>)>,
    /// The bytes of the memory.
    pub size: usize,
}

// Written by hand, so that proofs above take a drop as one call.
impl Drop for Prepared {
    fn drop(self) {
        let Prepared {
            modules,
            places,
            texts,
            size: _size,
        } = self;
        drop(modules);
        drop(places);
        drop(texts);
    }
}

/// The number that is the whole code.
fn value_of(code: &Code) -> Option<u32> {
    match code.ops() {
        [Op::I32Const(number)] => Some(*number),
        _ => None,
    }
}

/// The value of the global that link exports under this word and the name of a module.
fn global_of(link: &WModule, word: &[u8], name: &[u8]) -> Option<u32> {
    for export in link.exports.as_slice() {
        if let ExportKind::Global(index) = export.kind {
            if export.name.as_slice().strip_prefix(word) == Some(name) {
                return value_of(&link.globals.get(index as usize)?.value);
            }
        }
    }
    None
}

/// Where the parts of the module of this name stand.
fn places_of(link: &WModule, name: &[u8]) -> Option<Places> {
    Some(Places {
        variables: global_of(link, b"base.", name)?,
        texts: global_of(link, b"text.", name)?,
        slot: global_of(link, b"tab.", name)?,
    })
}

/// The texts of a module that is built.
fn texts_of(alloc: Global, bytes: &[u8]) -> Result<Vec<u8>> {
    let tree = read_module(alloc, bytes)?;
    match tree.data.get(0) {
        None => Ok(Vec::new(alloc)),
        Some(data) => Ok(Vec::from_slice(alloc, data.bytes.as_slice())?),
    }
}

/// Adds where each module stands, and its texts. False if link does not say it.
fn add_places(alloc: Global, program: &Marked, prepared: &mut Prepared) -> Result<bool> {
    let link = read_module(alloc, &program.link)?;
    for module in &program.modules {
        let Some(places) = places_of(&link, module.0.as_bytes()) else {
            return Ok(false);
        };
        let texts = texts_of(alloc, &module.1)?;
        prepared.places.push(places)?;
        prepared.texts.push((places.texts, texts))?;
    }
    Ok(true)
}

/// The program, whose memory has so many pages, as it is run. Nothing if the code of a module has not its marks.
pub fn prepare(alloc: Global, program: &Marked, pages: u32) -> Result<Option<Prepared>> {
    let Some(modules) = storing_modules(alloc, program)? else {
        return Ok(None);
    };
    let mut prepared = Prepared {
        modules,
        places: Vec::new(alloc),
        texts: Vec::new(alloc),
        size: (pages as usize).saturating_mul(PAGE),
    };
    if !add_places(alloc, program, &mut prepared)? {
        return Ok(None);
    }
    Ok(Some(prepared))
}
