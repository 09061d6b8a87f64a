//! What is said of a run that did not end well.

use crate::line::line_at;
use crate::places::place_of;
use crate::program::{Loaded, Program, Reason, load};
use anyhow::Result;
use follow_runs::{Call, Calls, Followed, calls_of, follow};
use map_files::Map;
use run_directory::InDir;
use std::alloc::{AllocError, Global};
use std::fmt::Write;
use wasm_run::End;

/// The row of a call, and of those of the same function around it.
fn push_call(alloc: Global, text: &mut String, maps: &[Map], call: Call) -> Result<(), AllocError> {
    let Some(place) = place_of(maps, call.activation) else {
        return Ok(());
    };
    let function = place.function(alloc)?;
    let spot = place.spot(alloc)?;
    write!(text, "  called in {function}, {spot}\n")?;
    if call.more > 0 {
        let more = call.more;
        write!(text, "  and {more} more of {function}\n")?;
    }
    Ok(())
}

/// The rows of the calls.
fn push_calls(
    alloc: Global,
    text: &mut String,
    maps: &[Map],
    calls: &Calls,
) -> Result<(), AllocError> {
    let last = calls.told.len().saturating_sub(1);
    for (number, call) in calls.told.iter().enumerate() {
        let left_out = calls.left_out;
        if number == last && left_out > 0 {
            write!(text, "  and {left_out} more calls\n")?;
        }
        push_call(alloc, text, maps, *call)?;
    }
    Ok(())
}

/// What is told of a run that was followed. Nothing if it was in no function of a module.
fn told<D: InDir, S: InDir>(
    alloc: Global,
    dir: &mut D,
    sources: &mut S,
    program: &Program,
    followed: &Followed,
) -> Result<String, AllocError> {
    let activations = &followed.reader.activations;
    let Some(innermost) = activations.last() else {
        return Ok(String::new(alloc));
    };
    let Some(place) = place_of(&program.maps, *innermost) else {
        return Ok(String::new(alloc));
    };
    let spot = place.spot(alloc)?;
    let function = place.function(alloc)?;
    let line = line_at(alloc, dir, sources, place)?;
    let mut text = format!(in alloc; "{spot}: in {function}\n{line}")?;
    let calls = calls_of(alloc, activations)?;
    push_calls(alloc, &mut text, &program.maps, &calls)?;
    Ok(text)
}

/// Why the map of the module of this name is not used.
fn excuse<D: InDir>(
    alloc: Global,
    dir: &D,
    name: &str,
    reason: Reason,
) -> Result<String, AllocError> {
    let front = dir.front();
    match reason {
        Reason::Fault(fault) => {
            format!(in alloc; "{front}{name}.map: {fault}, so places are not told\n")
        }
        Reason::Other => {
            format!(in alloc;
                "{front}{name}.map belongs to another {name}.wasm, so places are not told\n"
            )
        }
    }
}

/// What is said of the modules of this folder, which ran for at most so many reductions and ended so, in lines: where the run was with
/// the line of the statement, and the calls that lead there. Sources are read by their names in the maps, or in the folder. A sentence
/// if a map is not used, as it is cut or altered, of another version, or of another module. Nothing if a module has no map, or if
/// the run that is made once more ends otherwise.
///
/// An error if memory ran out, or if a file of the folder is no module any more.
pub fn explain_fault<D: InDir, S: InDir>(
    alloc: Global,
    dir: &mut D,
    sources: &mut S,
    steps: u64,
    has_ended: bool,
) -> Result<String> {
    let program = match load(alloc, dir)? {
        Loaded::Ready(program) => program,
        Loaded::Unusable(name, reason) => return Ok(excuse(alloc, dir, name.as_str(), reason)?),
        Loaded::Missing => return Ok(String::new(alloc)),
    };
    let followed = follow(alloc, &program.modules, steps)?;
    let is_over = match followed.end {
        Some(end) => end != End::StillRunning,
        None => return Ok(String::new(alloc)),
    };
    if is_over != has_ended {
        return Ok(String::new(alloc));
    }
    Ok(told(alloc, dir, sources, &program, &followed)?)
}
