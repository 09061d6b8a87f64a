//! `m2 build --map`: the maps of the modules.

use crate::building::Modules;
use anyhow::Result;
use command_words::{Exit, FAILED};
use map_files::{Map, write_map};
use map_statements::maps_of;
use std::rt::Files;
use std::thread::Threads;
use tool_output::write_changed;
use tool_words::{PROGRAM, Setting};

/// The maps of the modules of the program of this file. None, with a sentence, if they cannot be made.
pub fn made_maps<R>(rt: &R, setting: &Setting, path: &str, modules: &Modules) -> Result<Vec<Map>>
where
    R: Eprint + AllocGlobal + Threads + Sync,
{
    match maps_of(rt, &modules.files, setting.options, &modules.others)? {
        Some(maps) => Ok(maps),
        None => {
            let _ = eprintln!(rt;
                "{PROGRAM}: {path}: no maps are written, as a module is too long or nests too deep for its marks"
            );
            Ok(Vec::new(rt.alloc()))
        }
    }
}

/// Writes a map into this folder. One that is there already keeps its time. That it cannot be written is reported.
fn write_one<R: Files + Eprint + AllocGlobal>(rt: &R, out: &str, map: &Map) -> Result<(), Exit> {
    let module = &map.module;
    let file = format!(in rt.alloc(); "{out}/{module}.map")?;
    let text = write_map(rt.alloc(), map)?;
    match write_changed(rt, file.as_str(), text.as_bytes()) {
        Ok(()) => Ok(()),
        Err(error) => {
            let _ = eprintln!(rt; "{PROGRAM}: cannot write {file}: {error}");
            Err(Exit::Reported(FAILED))
        }
    }
}

/// Writes maps into this folder. That one cannot be written is reported.
pub fn write_maps<R: Files + Eprint + AllocGlobal>(
    rt: &R,
    out: &str,
    maps: &[Map],
) -> Result<(), Exit> {
    for map in maps {
        write_one(rt, out, map)?;
    }
    Ok(())
}
