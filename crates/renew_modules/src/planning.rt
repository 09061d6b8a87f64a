//! Which bodies have to be compiled.

use crate::spreading::{cause_for, causes_of, numbers_of};
use build_jobs::SourceFile;
use indexmap::IndexMap;
use kept_modules::{Kept, Part, definition_sum, files_by_name, short_sum};
use std::alloc::{AllocError, Global};

/// How many bytes of bodies are compiled one by one, however small the program is.
const FEW_BYTES: usize = 65536;

/// Which part of the bytes of a program is compiled one by one at most.
const LARGEST_PART: usize = 4;

/// Why the whole program is built if a module came, went, or has another name.
const OTHER_FILES: &str = "it has other files than before";

/// Why a body has to be compiled.
#[derive(Drop)]
pub enum Why {
    /// Its text changed.
    Text,
    /// Its file M.wasm is not there, or is not as it was written.
    Code,
    /// The definition of the module of this name changed.
    Definition(String),
}

/// A body that has to be compiled.
#[derive(Drop)]
pub struct Stale {
    /// Its number among those that were kept.
    pub body: usize,
    pub why: Why,
}

/// What has to be done.
pub struct Plan {
    /// The checksums of the texts, by the numbers of their files.
    pub texts: Vec<String>,
    /// The checksums of the tokens of the definitions that were kept.
    pub tokens: Vec<String>,
    /// The files of the definitions and of the bodies that were kept.
    pub definitions: Vec<usize>,
    pub bodies: Vec<usize>,
    /// The bodies that have to be compiled.
    pub stale: Vec<Stale>,
}

// Written by hand, so that proofs above take a drop as one call.
impl Drop for Plan {
    fn drop(self) {
        let Plan {
            texts,
            tokens,
            definitions,
            bodies,
            stale,
        } = self;
        drop(texts);
        drop(tokens);
        drop(definitions);
        drop(bodies);
        drop(stale);
    }
}

/// Whether a part of a program is compiled.
#[derive(Drop)]
pub enum Planned {
    /// The whole program has to be built, for this reason.
    Whole(&'static str),
    Part(Plan),
}

/// The checksum of each text. The only error is that memory ran out.
pub fn sums_of(alloc: Global, files: &[SourceFile]) -> Result<Vec<String>, AllocError> {
    let mut sums = Vec::new(alloc);
    for file in files {
        sums.push(short_sum(alloc, &file.bytes)?)?;
    }
    Ok(sums)
}

/// The files of the definitions that were kept. None if one is not there.
fn definition_files(
    alloc: Global,
    files: &[SourceFile],
    kept: &Kept,
) -> Result<Option<Vec<usize>>, AllocError> {
    let places = files_by_name(alloc, files, true)?;
    let mut found = Vec::new(alloc);
    for definition in &kept.definitions {
        match places.get(definition.name.as_bytes()) {
            Some(file) => found.push(*file)?,
            None => return Ok(None),
        }
    }
    Ok(Some(found))
}

/// The file of a body: the first is the program's.
fn body_file(places: &IndexMap<&[u8], usize>, number: usize, body: &Part) -> Option<usize> {
    if body.is_program != (number == 0) {
        return None;
    }
    if body.is_program {
        return Some(0);
    }
    places.get(body.name.as_bytes()).copied()
}

/// The files of the bodies that were kept. None if one is not there.
fn body_files(
    alloc: Global,
    files: &[SourceFile],
    kept: &Kept,
) -> Result<Option<Vec<usize>>, AllocError> {
    let places = files_by_name(alloc, files, false)?;
    let mut found = Vec::new(alloc);
    for (number, body) in kept.bodies.iter().enumerate() {
        match body_file(&places, number, body) {
            Some(file) => found.push(file)?,
            None => return Ok(None),
        }
    }
    Ok(Some(found))
}

/// The checksum of the tokens of a definition, whose text has this checksum now.
fn tokens_now(
    alloc: Global,
    kept: (&str, &str),
    text: &str,
    file: Option<&SourceFile>,
) -> Result<String, AllocError> {
    let (kept_text, kept_tokens) = kept;
    match file {
        Some(file) if kept_text.as_bytes() != text.as_bytes() => {
            definition_sum(alloc, &file.bytes)
        }
        _ => String::from_str(alloc, kept_tokens),
    }
}

/// The text of this number, or an empty one.
fn text_at(texts: &[String], number: usize) -> &str {
    texts.get(number).map_or("", |it| it.as_str())
}

/// The checksums of the tokens of the definitions that were kept.
fn tokens_of(
    alloc: Global,
    files: &[SourceFile],
    kept: &Kept,
    texts: &[String],
    places: &[usize],
) -> Result<Vec<String>, AllocError> {
    let mut tokens = Vec::new(alloc);
    for (definition, place) in kept.definitions.iter().zip(places) {
        let before = (definition.text.as_str(), definition.tokens.as_str());
        let now = text_at(texts, *place);
        tokens.push(tokens_now(alloc, before, now, files.get(*place))?)?;
    }
    Ok(tokens)
}

/// Why a body has to be compiled, whose text and whose code have these checksums now, if a change in a definition reaches it or not.
fn why_stale(
    alloc: Global,
    body: &Part,
    text: &str,
    code: &str,
    changed: Option<&str>,
) -> Result<Option<Why>, AllocError> {
    if body.text.as_bytes() != text.as_bytes() {
        return Ok(Some(Why::Text));
    }
    if let Some(name) = changed {
        return Ok(Some(Why::Definition(String::from_str(alloc, name)?)));
    }
    if body.code.as_bytes() != code.as_bytes() {
        return Ok(Some(Why::Code));
    }
    Ok(None)
}

/// The bodies that have to be compiled, if the codes of all bodies have these checksums.
fn stale_of(
    alloc: Global,
    kept: &Kept,
    plan: &Plan,
    codes: &[String],
) -> Result<Vec<Stale>, AllocError> {
    let numbers = numbers_of(alloc, kept)?;
    let causes = causes_of(alloc, kept, &numbers, &plan.tokens)?;
    let mut stale = Vec::new(alloc);
    for (body, part) in kept.bodies.iter().enumerate() {
        let place = plan.bodies.get(body).copied().unwrap_or(0);
        let cause = cause_for(&numbers, &causes, part).and_then(|it| kept.definitions.get(it));
        let changed = cause.map(|it| it.name.as_str());
        let text = text_at(&plan.texts, place);
        if let Some(why) = why_stale(alloc, part, text, text_at(codes, body), changed)? {
            stale.push(Stale { body, why })?;
        }
    }
    Ok(stale)
}

/// How many bytes these files have.
fn size_of(files: &[SourceFile]) -> usize {
    let mut bytes: usize = 0;
    for file in files {
        bytes = bytes.saturating_add(file.bytes.len());
    }
    bytes
}

/// How many bytes the bodies have that have to be compiled.
fn stale_size(files: &[SourceFile], plan: &Plan) -> usize {
    let mut bytes: usize = 0;
    for stale in &plan.stale {
        let file = plan.bodies.get(stale.body).and_then(|it| files.get(*it));
        bytes = bytes.saturating_add(file.map_or(0, |it| it.bytes.len()));
    }
    bytes
}

/// Whether what has to be compiled is so much that the whole program is built.
fn is_much(files: &[SourceFile], plan: &Plan) -> bool {
    let bytes = stale_size(files, plan);
    bytes > FEW_BYTES && bytes > size_of(files) / LARGEST_PART
}

/// The plan for files that were found for all that was kept.
fn with_files(
    alloc: Global,
    files: &[SourceFile],
    kept: &Kept,
    texts: Vec<String>,
    codes: &[String],
    definitions: Vec<usize>,
    bodies: Vec<usize>,
) -> Result<Planned, AllocError> {
    let tokens = tokens_of(alloc, files, kept, &texts, &definitions)?;
    let mut plan = Plan {
        texts,
        tokens,
        definitions,
        bodies,
        stale: Vec::new(alloc),
    };
    plan.stale = stale_of(alloc, kept, &plan, codes)?;
    if is_much(files, &plan) {
        return Ok(Planned::Whole("much of its text changed"));
    }
    Ok(Planned::Part(plan))
}

/// What has to be done for the program of these files, whose texts have these checksums, and of which this was kept. The files M.wasm of
/// the bodies have these checksums, or none if they are not there. The only error is that memory ran out.
pub fn plan_of(
    alloc: Global,
    files: &[SourceFile],
    kept: &Kept,
    texts: Vec<String>,
    codes: &[String],
) -> Result<Planned, AllocError> {
    let count = kept.definitions.len().saturating_add(kept.bodies.len());
    let Some(definitions) = definition_files(alloc, files, kept)? else {
        return Ok(Planned::Whole(OTHER_FILES));
    };
    let Some(bodies) = body_files(alloc, files, kept)? else {
        return Ok(Planned::Whole(OTHER_FILES));
    };
    if count != files.len() {
        return Ok(Planned::Whole(OTHER_FILES));
    }
    with_files(alloc, files, kept, texts, codes, definitions, bodies)
}
