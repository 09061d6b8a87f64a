//! The modules that texts name, also texts that break rules.

use crate::source::word_width;
use m2_tree::MAX_NAME;
use scan_tokens::word_of;
use std::alloc::{AllocError, Global};

/// What the next name of a text is.
#[derive(Clone, Copy, PartialEq, Eq)]
enum Next {
    Nothing,
    /// A module, behind FROM.
    From,
    /// Modules, behind IMPORT.
    List,
    /// What a module exports.
    Names,
}

/// What follows a word.
fn next_behind(word: &[u8], next: Next) -> Next {
    match (word, next) {
        (b"FROM", _) => Next::From,
        (b"IMPORT", Next::Names) => Next::Names,
        (b"IMPORT", _) => Next::List,
        (_, Next::From) => Next::Names,
        (_, next) => next,
    }
}

/// Adds an import of a module, if this can be its name.
fn push_import(text: &mut Vec<u8>, name: &[u8]) -> Result<(), AllocError> {
    let is_name = name.first().is_some_and(|it| it.is_ascii_alphabetic());
    if is_name && name.len() <= MAX_NAME && word_of(name).is_none() {
        text.extend_from_slice(b"IMPORT ")?;
        text.extend_from_slice(name)?;
        text.extend_from_slice(b"; ")?;
    }
    Ok(())
}

/// Adds imports of the modules that a text names behind FROM and IMPORT, whatever else stands in it.
fn push_imports(all: &mut Vec<u8>, text: &[u8]) -> Result<(), AllocError> {
    let mut next = Next::Nothing;
    let mut behind = 0;
    for (at, byte) in text.iter().enumerate() {
        if at >= behind && byte.is_ascii_alphanumeric() {
            let rest = text_tokens::rest(text, at);
            let word = text_tokens::part(rest, 0, word_width(rest));
            behind = at.saturating_add(word.len());
            if next == Next::From || next == Next::List {
                push_import(all, word)?;
            }
            next = next_behind(word, next);
        } else if *byte == b';' {
            next = Next::Nothing;
        }
    }
    Ok(())
}

/// What the names of programs that are made begin with.
const MADE: &str = "m";

/// The most names that are tried: one more than the files that a program may have.
const MOST_NAMES: u32 = 1025;

/// A name that none of these modules has: `m`, or else the first of `m1`, `m2` and so on that is free. The only error is want of memory.
pub fn free_name(alloc: Global, taken: &[&[u8]]) -> Result<String, AllocError> {
    let mut name = String::from_str(alloc, MADE)?;
    for number in 1..=MOST_NAMES {
        if taken.iter().all(|it| *it != name.as_bytes()) {
            break;
        }
        name = format!(in alloc; "{MADE}{number}")?;
    }
    Ok(name)
}

/// A program of this name that imports a module. The only error is want of memory.
pub fn program_around(alloc: Global, name: &str, module: &str) -> Result<Vec<u8>, AllocError> {
    let text = format!(in alloc; "MODULE {name}; IMPORT {module}; END {name}.")?;
    Vec::from_slice(alloc, text.as_bytes())
}

/// A program that imports all modules which these texts name behind FROM and IMPORT, whatever else stands in them, and these.
pub fn importing_program(
    alloc: Global,
    texts: &[&[u8]],
    modules: &[&str],
) -> Result<Vec<u8>, AllocError> {
    let mut all = Vec::from_slice(alloc, b"MODULE m; ")?;
    for text in texts {
        push_imports(&mut all, text)?;
    }
    for name in modules {
        push_import(&mut all, name.as_bytes())?;
    }
    all.extend_from_slice(b"END m.")?;
    Ok(all)
}
