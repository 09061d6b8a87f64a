//! Imports by the begin of a text, so that no text is read for them as a whole.

use m2_tree::{Lexeme, Name, Symbol, Token};
use scan_tokens::{ScanError, scan};
use std::alloc::{AllocError, Global};

/// So many bytes of a text are looked at first, then so many more, and at last all.
const BEGINS: [usize; 3] = [512, 8_192, 131_072];

/// How many tokens at the end of a begin say nothing: the last may be cut, and the end stands behind it.
const UNSURE: usize = 2;

/// The whole text has no such tokens.
const SURE: usize = 0;

/// What stands at a token.
#[derive(Clone, Copy, PartialEq, Eq)]
enum Part {
    /// The heading, up to its semicolon.
    Heading,
    /// An import, or what stands behind all imports.
    Next,
    /// What stands behind FROM.
    From,
    /// The names behind FROM, a module and IMPORT.
    Names,
    /// The modules behind IMPORT.
    Modules,
    /// What stands behind all imports.
    Behind,
}

/// What stands behind a word or a sign.
fn part_behind(part: Part, symbol: Symbol) -> Part {
    match (part, symbol) {
        (Part::Behind, _) => Part::Behind,
        (Part::Next, Symbol::From) => Part::From,
        (Part::Next, Symbol::Import) => Part::Modules,
        (Part::Next, _) => Part::Behind,
        (_, Symbol::Semicolon) => Part::Next,
        _ => part,
    }
}

/// Adds a name, if it is that of a module that is imported, and answers what stands behind it.
fn part_behind_name(part: Part, name: &Name, names: &mut Vec<Name>) -> Result<Part, AllocError> {
    match part {
        Part::From => {
            names.push(name.clone()?)?;
            Ok(Part::Names)
        }
        Part::Modules => {
            names.push(name.clone()?)?;
            Ok(Part::Modules)
        }
        Part::Next => Ok(Part::Behind),
        Part::Heading | Part::Names | Part::Behind => Ok(part),
    }
}

/// The modules that tokens from the begin of a text import. None if they do not show where the imports end.
fn imports_in(alloc: Global, tokens: &[Token]) -> Result<Option<Vec<Name>>, AllocError> {
    let mut names = Vec::new(alloc);
    let mut part = Part::Heading;
    for token in tokens {
        part = match &token.lexeme {
            Lexeme::Symbol(symbol) => part_behind(part, *symbol),
            Lexeme::Name(name) => part_behind_name(part, name, &mut names)?,
            _ => part,
        };
        if part == Part::Behind {
            return Ok(Some(names));
        }
    }
    Ok(None)
}

/// The same of the begin of a text, of whose tokens so many at its end say nothing.
fn imports_at_begin(
    alloc: Global,
    begin: &[u8],
    unsure: usize,
) -> Result<Option<Vec<Name>>, AllocError> {
    match scan(alloc, begin) {
        Ok(tokens) => {
            let sure = tokens.len().saturating_sub(unsure);
            imports_in(alloc, tokens.get(..sure).unwrap_or(&[]))
        }
        Err(ScanError::Refused(_)) => Ok(None),
        Err(ScanError::NoMemory) => Err(AllocError),
    }
}

/// The modules that a text imports, as they are written, by its begin: of a text that has a tree all, and of others those that its
/// first lines name. The only error is that memory ran out.
pub fn imports_by_begin(alloc: Global, text: &[u8]) -> Result<Vec<Name>, AllocError> {
    for length in BEGINS {
        if let Some(begin) = text.get(..length) {
            if let Some(names) = imports_at_begin(alloc, begin, UNSURE)? {
                return Ok(names);
            }
        }
    }
    match imports_at_begin(alloc, text, SURE)? {
        Some(names) => Ok(names),
        None => Ok(Vec::new(alloc)),
    }
}
