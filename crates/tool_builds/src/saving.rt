//! `m2 build`: the modules of a program, written into a folder.

use crate::building::{Made, Modules, accept, build_program, take_outcome};
use crate::giving::give_input;
use crate::mapping::{made_maps, write_maps};
use crate::renewing::{find_with, holds_kept, kept_for, kept_path, renewed, write_kept_file};
use crate::wanted::Wanted;
use anyhow::Result;
use command_words::{Exit, FAILED};
use find_files::{Program, text_of_program};
use kept_modules::{Kept, keep, short_sum};
use m2_rule::Rule;
use m2c::{Open, SaveFault, SourceFile, build_once, save};
use renew_modules::{Renewal, sums_of};
use std::alloc::AllocError;
use std::fs;
use std::rt::Files;
use std::thread::Threads;
use system_streams::OutFolder;
use tool_output::{holds_bytes, write_depends};
use tool_words::{PROGRAM, Setting};

/// The status if the modules are written.
const BUILT: u8 = 0;

/// How often modules are written, if another build writes into their folder.
const MOST_TURNS: usize = 32;

/// How many digits a checksum has.
const DIGITS: usize = 16;

/// The base of the digits of a checksum.
const SIXTEEN: u8 = 16;

/// The name of the module that a program begins with.
const LINK: &str = "link";

/// Where the file of this module stands in a folder.
fn path_of<R: AllocGlobal>(rt: &R, out: &str, module: &str) -> Result<String, AllocError> {
    format!(in rt.alloc(); "{out}/{module}.wasm")
}

/// Whether the file of a module in this folder holds just its bytes.
fn is_kept<R: Files + AllocGlobal>(rt: &R, out: &str, module: &str, bytes: &[u8]) -> bool {
    match path_of(rt, out, module) {
        Ok(path) => holds_bytes(rt, path.as_str(), bytes),
        Err(_) => false,
    }
}

/// Writes these modules and link into a folder, link last. The status.
fn save_changed<R>(rt: &R, link: &[u8], changed: &[(String, Vec<u8>)], out: &str) -> u8
where
    R: Files + Eprint + AllocGlobal,
{
    let mut dir = OutFolder::at(rt, out);
    match save(rt.alloc(), link, changed, &mut dir) {
        Ok(()) => BUILT,
        Err(SaveFault::NoMemory) => {
            let _ = eprintln!(rt; "{PROGRAM}: no memory left (90)");
            FAILED
        }
        Err(SaveFault::Device) => {
            let fault = dir.fault();
            let _ = eprintln!(rt; "{PROGRAM}: {fault}");
            FAILED
        }
    }
}

/// Modules whose files hold their bytes, and modules whose files do not.
#[derive(Drop)]
struct Divided {
    held: Vec<(String, Vec<u8>)>,
    others: Vec<(String, Vec<u8>)>,
}

/// Tells apart which modules stand in this folder as they are.
fn divide<R: Files + AllocGlobal>(
    rt: &R,
    modules: Vec<(String, Vec<u8>)>,
    out: &str,
) -> Result<Divided, AllocError> {
    let mut held = Vec::new(rt.alloc());
    let mut others = Vec::new(rt.alloc());
    for module in modules {
        if is_kept(rt, out, module.0.as_str(), &module.1) {
            held.push(module)?;
        } else {
            others.push(module)?;
        }
    }
    Ok(Divided { held, others })
}

/// How often a build looks whether link and so many modules are there, before it writes them once more: another number for each build
/// and each turn, so that two builds do not go on overwriting each other. Its checksum has these digits.
fn looks_of(digits: &[u8], turn: usize, modules: usize) -> usize {
    let place = turn % DIGITS;
    let digit = digits.get(place).map_or(0, |it| usize::from(it % SIXTEEN));
    let files = modules.saturating_add(1);
    let turns = turn.saturating_mul(turn);
    digit.saturating_mul(turns).saturating_mul(files)
}

/// Whether the files of these modules and of link hold their bytes.
fn are_kept<R: Files + AllocGlobal>(
    rt: &R,
    link: &[u8],
    modules: &[(String, Vec<u8>)],
    out: &str,
) -> bool {
    let all = modules
        .iter()
        .all(|it| is_kept(rt, out, it.0.as_str(), &it.1));
    all && is_kept(rt, out, LINK, link)
}

/// Looks so often whether link and modules are there, or until they are.
fn look<R: Files + AllocGlobal>(
    rt: &R,
    link: &[u8],
    modules: &[(String, Vec<u8>)],
    out: &str,
    looks: usize,
) {
    for _ in 0..looks {
        if are_kept(rt, link, modules, out) {
            return;
        }
    }
}

/// Writes modules into this folder, link last, and answers the status. A file that holds the bytes of its module already keeps its
/// time; if any other is written, link is removed first and written last. If none is, nothing is touched. What was written is read once
/// more, and written again if another build wrote something else in the meantime: so the last one that writes has all its modules there.
pub fn save_modules<R: Files + Eprint + AllocGlobal>(
    rt: &R,
    link: &[u8],
    modules: Vec<(String, Vec<u8>)>,
    out: &str,
) -> Result<u8, AllocError> {
    let mut modules = modules;
    for turn in 0..MOST_TURNS {
        let Divided { held, mut others } = divide(rt, modules, out)?;
        if others.is_empty() && is_kept(rt, out, LINK, link) {
            return Ok(BUILT);
        }
        let first = others.first().map_or(link, |it| it.1.as_slice());
        let sum = short_sum(rt.alloc(), first)?;
        let looks = looks_of(sum.as_bytes(), turn, others.len());
        look(rt, link, &others, out, looks);
        let status = save_changed(rt, link, &others, out);
        if status != BUILT {
            return Ok(status);
        }
        modules = held;
        modules.append(&mut others)?;
    }
    let _ = eprintln!(rt; "{PROGRAM}: another build writes into {out}: build once more");
    Ok(FAILED)
}

/// The files of the modules of these names in a folder, link first.
fn made_of<R: AllocGlobal>(rt: &R, names: &[&str], out: &str) -> Result<Vec<String>, AllocError> {
    let mut made = Vec::new(rt.alloc());
    made.push(path_of(rt, out, LINK)?)?;
    for name in names {
        made.push(path_of(rt, out, name)?)?;
    }
    Ok(made)
}

/// Writes into this file of which files the modules of these names were made, and the file of the input is one of them. That it cannot
/// be written is reported.
fn write_made<R: Files + Eprint + AllocGlobal>(
    rt: &R,
    deps: &str,
    files: &[SourceFile],
    names: &[&str],
    input: &Option<String>,
    out: &str,
) -> Result<(), Exit> {
    let made = made_of(rt, names, out)?;
    let mut read = Vec::new(rt.alloc());
    for file in files {
        read.push(file.name.as_str())?;
    }
    if let Some(input) = input {
        if input.as_str() != "-" {
            read.push(input.as_str())?;
        }
    }
    write_depends(rt, deps, &made, &read)
}

/// The names of modules in the order in which they start.
fn names_built<'a, R: AllocGlobal>(
    rt: &R,
    modules: &'a Modules,
) -> Result<Vec<&'a str>, AllocError> {
    let mut names = Vec::new(rt.alloc());
    for (name, _) in &modules.others {
        names.push(name.as_str())?;
    }
    Ok(names)
}

/// The names of modules that were kept in the order in which they start: the program, which stands first, starts last.
fn names_kept<'a, R: AllocGlobal>(rt: &R, kept: &'a Kept) -> Result<Vec<&'a str>, AllocError> {
    let mut names = Vec::new(rt.alloc());
    for body in kept.bodies.iter().skip(1) {
        names.push(body.name.as_str())?;
    }
    if let Some(program) = kept.bodies.first() {
        names.push(program.name.as_str())?;
    }
    Ok(names)
}

/// Removes link if another module has other bytes than those that were kept, since another build is at work. Whether that is so.
fn is_crossed<R: Files + AllocGlobal>(rt: &R, kept: &Kept, out: &str) -> Result<bool, AllocError> {
    if holds_kept(rt, out, kept)? {
        return Ok(false);
    }
    let path = path_of(rt, out, LINK)?;
    let _ = fs::remove_file(rt, path.as_str());
    Ok(true)
}

/// Writes the modules of a program of which only what changed was compiled. The status, or none if another build wrote modules into the
/// folder in the meantime: then the whole has to be built.
fn save_renewal<R: Files + Eprint + AllocGlobal>(
    rt: &R,
    program: &Program,
    renewal: Renewal,
    wanted: &Wanted<'_>,
    path: &str,
) -> Result<Option<u8>, Exit> {
    let Renewal {
        link,
        compiled,
        kept,
    } = renewal;
    if let Some(deps) = wanted.deps {
        let names = names_kept(rt, &kept)?;
        write_made(
            rt,
            deps.as_str(),
            &program.files,
            &names,
            wanted.input,
            wanted.out,
        )?;
    }
    let is_same = compiled.is_empty() && is_kept(rt, wanted.out, LINK, &link);
    let status = save_modules(rt, &link, compiled, wanted.out)?;
    if status != BUILT {
        return Ok(Some(status));
    }
    if !is_same && is_crossed(rt, &kept, wanted.out)? {
        return Ok(None);
    }
    write_kept_file(rt, path, &kept)?;
    Ok(Some(status))
}

/// What is kept of a program that was built.
fn kept_of<R: AllocGlobal>(
    rt: &R,
    setting: &Setting,
    modules: &Modules,
) -> Result<Option<Kept>, AllocError> {
    let pages = setting.options.pages;
    keep(
        rt.alloc(),
        &modules.files,
        &modules.link,
        &modules.others,
        pages,
    )
}

/// Writes the modules of a program that was built, and behind link what is kept of it and the maps, if they are wanted. The status.
fn save_built<R>(
    rt: &R,
    setting: &Setting,
    program: &str,
    modules: Modules,
    wanted: &Wanted<'_>,
    path: &str,
) -> Result<u8, Exit>
where
    R: Files + Eprint + AllocGlobal + Threads + Sync,
{
    if let Some(deps) = wanted.deps {
        let names = names_built(rt, &modules)?;
        write_made(
            rt,
            deps.as_str(),
            &modules.files,
            &names,
            wanted.input,
            wanted.out,
        )?;
    }
    let maps = if wanted.is_mapped {
        made_maps(rt, setting, program, &modules)?
    } else {
        Vec::new(rt.alloc())
    };
    let kept = kept_of(rt, setting, &modules)?;
    let Modules { link, others, .. } = modules;
    let status = save_modules(rt, &link, others, wanted.out)?;
    if status == BUILT {
        if let Some(kept) = kept {
            write_kept_file(rt, path, &kept)?;
        }
        write_maps(rt, wanted.out, &maps)?;
    }
    Ok(status)
}

/// The checksums of the texts of a program: these, unless it was given an input.
fn texts_now<R: AllocGlobal>(
    rt: &R,
    program: &Program,
    input: &Option<String>,
    texts: Vec<String>,
) -> Result<Vec<String>, AllocError> {
    match input {
        None => Ok(texts),
        Some(_) => sums_of(rt.alloc(), &program.files),
    }
}

/// Whether a text of a program has no tree. By its begin more modules may have been found than its tree imports.
fn lacks_tree(made: &Made) -> bool {
    match made {
        Made::Built(_) => false,
        Made::Refused(_, refusals) => refusals
            .iter()
            .any(|it| it.number < Rule::MissingModule.number()),
    }
}

/// The modules of a program that was found by the begins of its texts, or what is refused of it as it is found by its trees. What is
/// refused, and what failed, is reported: the status.
fn build_whole<R>(rt: &R, setting: &Setting, path: &str, program: Program) -> Result<Modules, Exit>
where
    R: Files + Print + Eprint + AllocGlobal + Threads + Sync,
{
    let built = build_once(rt, rt.alloc(), &program.files, setting.options, &Open);
    let made = take_outcome(rt, path, program, built)?;
    if lacks_tree(&made) {
        drop(made);
        return build_program(rt, setting, path);
    }
    accept(rt, setting, made)
}

/// Compiles what changed since the last build, and writes it. The status, or none if the whole has to be built.
fn renew_into<R>(
    rt: &R,
    setting: &Setting,
    program: &Program,
    texts: Vec<String>,
    kept: Kept,
    wanted: &Wanted<'_>,
    path: &str,
) -> Result<Option<u8>, Exit>
where
    R: Files + Eprint + AllocGlobal,
{
    match renewed(rt, setting, program, texts, kept, wanted.out)? {
        Some(renewal) => save_renewal(rt, program, renewal, wanted, path),
        None => Ok(None),
    }
}

/// Builds the program of this file and writes its modules: those alone that changed since the last build, if it kept what it did, and
/// nothing is out of the ordinary. Before, it is written of which files they were made, and behind them what is kept for the next build.
/// The status.
pub fn build_into<R>(rt: &R, setting: &Setting, path: &str, wanted: &Wanted<'_>) -> Result<u8, Exit>
where
    R: Files + Input + Print + Eprint + AllocGlobal + Threads + Sync,
{
    let (file, text) = text_of_program(rt, path)?;
    let place = kept_path(rt, file.as_str(), wanted.out)?;
    let kept = kept_for(rt, setting, wanted, place.as_str())?;
    let nothing = Kept {
        definitions: Vec::new(rt.alloc()),
        bodies: Vec::new(rt.alloc()),
    };
    let known = kept.as_ref().unwrap_or(&nothing);
    let (mut program, texts) = find_with(rt, setting, file.as_str(), text, known)?;
    give_input(rt, path, wanted.input, &mut program)?;
    if let Some(kept) = kept {
        let texts = texts_now(rt, &program, wanted.input, texts)?;
        if let Some(status) = renew_into(
            rt,
            setting,
            &program,
            texts,
            kept,
            wanted,
            place.as_str(),
        )? {
            return Ok(status);
        }
    }
    let modules = build_whole(rt, setting, path, program)?;
    save_built(rt, setting, path, modules, wanted, place.as_str())
}
