//! Refusals with their mends, for programs.

use crate::words::mend_words;
use build_jobs::SourceFile;
use find_files::partner_words;
use m2_rule::Rule;
use m2_tree::Refusal;
use show_refusals::{Mended, object_of, way_of};
use std::alloc::{AllocError, Global};
use std::io;
use try_mends::{Chain, Step};

/// The files of a program, the modules whose definition is in no folder, and the folders that were searched.
#[derive(Clone, Copy)]
pub struct Given<'a> {
    pub files: &'a [SourceFile],
    pub lacking: &'a [String],
    pub searched: &'a [String],
}

/// Sentences one behind another.
fn join_sentences(alloc: Global, one: &str, other: &str) -> Result<String, AllocError> {
    if one.is_empty() || other.is_empty() {
        return format!(in alloc; "{one}{other}");
    }
    format!(in alloc; "{one}; {other}")
}

/// Adds names with commas between them.
fn push_names(all: &mut String, names: &[String]) -> Result<(), AllocError> {
    for (at, name) in names.iter().enumerate() {
        all.push_str(if at == 0 { "" } else { ", " })?;
        all.push_str(name.as_str())?;
    }
    Ok(())
}

/// Which modules or which file a program lacks, if it is refused for that.
fn lacking_words(
    alloc: Global,
    given: &Given<'_>,
    refusal: &Refusal,
) -> Result<String, AllocError> {
    let mut all = partner_words(alloc, refusal)?;
    if refusal.number == Rule::MissingModule.number() && !given.lacking.is_empty() {
        all.push_str("no definition of ")?;
        push_names(&mut all, given.lacking)?;
        all.push_str(" was found in ")?;
        push_names(&mut all, given.searched)?;
        all.push_str("; --lib and M2_LIB name more folders")?;
    }
    Ok(all)
}

/// All that is known of a refusal beside its rule, in sentences.
fn detail_of(
    alloc: Global,
    given: &Given<'_>,
    refusal: &Refusal,
    detail: &str,
) -> Result<String, AllocError> {
    let way = way_of(alloc, given.files, refusal)?.unwrap_or("");
    let detail = join_sentences(alloc, detail, way)?;
    let lacking = lacking_words(alloc, given, refusal)?;
    join_sentences(alloc, detail.as_str(), lacking.as_str())
}

/// The JSON object of a step.
fn step_object(
    alloc: Global,
    given: &Given<'_>,
    step: &Step,
    detail: &str,
    is_then: bool,
) -> Result<String, AllocError> {
    let detail = detail_of(alloc, given, &step.refusal, detail)?;
    let Some(found) = &step.found else {
        return object_of(
            alloc,
            given.files,
            &step.refusal,
            detail.as_str(),
            None,
            is_then,
        );
    };
    let words = mend_words(alloc, found)?;
    let text = String::from_utf8_lossy(alloc, &found.mend.text)?;
    let mended = Mended {
        words: words.as_str(),
        begin: step.begin,
        end: step.end,
        text: text.as_str(),
    };
    object_of(
        alloc,
        given.files,
        &step.refusal,
        detail.as_str(),
        Some(mended),
        is_then,
    )
}

/// The objects of a file's refusals, each in a line.
fn chain_objects(
    alloc: Global,
    given: &Given<'_>,
    chain: &Chain,
    detail: &str,
) -> Result<String, AllocError> {
    let mut all = String::new(alloc);
    for (number, step) in chain.steps.iter().enumerate() {
        let detail = if number == 0 { detail } else { "" };
        let object = step_object(alloc, given, step, detail, number > 0)?;
        all.push_str(object.as_str())?;
        all.push('\n')?;
    }
    Ok(all)
}

/// The object of a refusal for whose file no mend was looked for, in a line.
fn plain_object(
    alloc: Global,
    given: &Given<'_>,
    refusal: &Refusal,
    detail: &str,
) -> Result<String, AllocError> {
    let detail = detail_of(alloc, given, refusal, detail)?;
    let object = object_of(alloc, given.files, refusal, detail.as_str(), None, false)?;
    format!(in alloc; "{object}\n")
}

/// Prints the objects of refusals: of each that stands at its number in `chains` also what is refused then. Why
/// printing failed, if it did.
pub fn print_steps<R: Print + Eprint + AllocGlobal>(
    rt: &R,
    given: &Given<'_>,
    refusals: &[Refusal],
    chains: &[Option<Chain>],
    details: &[String],
) -> Result<io::Result<()>, AllocError> {
    for (at, refusal) in refusals.iter().enumerate() {
        let detail = details.get(at).map_or("", |it| it.as_str());
        let objects = match chains.get(at) {
            Some(Some(chain)) => chain_objects(rt.alloc(), given, chain, detail)?,
            _ => plain_object(rt.alloc(), given, refusal, detail)?,
        };
        if let Err(error) = print!(rt; "{objects}") {
            return Ok(Err(error));
        }
    }
    Ok(Ok(()))
}
