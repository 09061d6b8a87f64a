//! What a text is, by its first tokens.

use m2_tree::{Pos, Symbol};
use propose_mends::Source;
use scan_tokens::{ScanError, scan};
use std::alloc::{AllocError, Global};

/// Which sort of module a text begins, with the name of one that has two files.
#[derive(Drop)]
pub enum Head {
    Program,
    Definition(String),
    Implementation(String),
    Unknown,
}

/// The place at which a text does not divide into tokens, or its begin.
fn broken_place(alloc: Global, text: &[u8]) -> Result<Pos, AllocError> {
    match scan(alloc, text) {
        Ok(_tokens) => Ok(Pos { line: 1, col: 1 }),
        Err(error) => match error {
            ScanError::Refused(refusal) => Ok(refusal.pos),
            ScanError::NoMemory => Err(AllocError),
        },
    }
}

/// A text with its tokens: of one that does not divide, those in front of the first place where it does not.
pub fn source_of(alloc: Global, text: &[u8]) -> Result<Source<'_>, AllocError> {
    let pos = broken_place(alloc, text)?;
    Source::of(alloc, text, pos)
}

/// The name at a token, or nothing if no name stands there.
fn name_at(alloc: Global, source: &Source<'_>, at: usize) -> Result<Option<String>, AllocError> {
    if source.is_name(at) {
        Ok(Some(String::from_utf8_lossy(alloc, source.spelling(at))?))
    } else {
        Ok(None)
    }
}

/// So many bytes of a text are looked at first for what it is, then so many more, and at last all.
const BEGINS: [usize; 3] = [256, 4_096, 65_536];

/// How many tokens tell what a text is: up to the name of a module, what stands behind it, and the end.
const ENOUGH: usize = 5;

/// What a text is that has these tokens.
fn head_in(alloc: Global, source: &Source<'_>) -> Result<Head, AllocError> {
    match source.symbol(0) {
        Some(Symbol::Module) => Ok(Head::Program),
        Some(Symbol::Definition) => Ok(match name_at(alloc, source, 2)? {
            Some(name) => Head::Definition(name),
            None => Head::Unknown,
        }),
        Some(Symbol::Implementation) => Ok(match name_at(alloc, source, 2)? {
            Some(name) => Head::Implementation(name),
            None => Head::Unknown,
        }),
        _ => Ok(Head::Unknown),
    }
}

/// The begin of a text with enough tokens for what it is, or the text.
fn source_of_head(alloc: Global, text: &[u8]) -> Result<Source<'_>, AllocError> {
    for length in BEGINS {
        if let Some(begin) = text.get(..length) {
            let source = source_of(alloc, begin)?;
            if source.tokens.len() >= ENOUGH {
                return Ok(source);
            }
        }
    }
    source_of(alloc, text)
}

/// What a text is. The only error is want of memory.
pub fn head_of(alloc: Global, text: &[u8]) -> Result<Head, AllocError> {
    head_in(alloc, &source_of_head(alloc, text)?)
}

/// Whether a word begins what stands behind the imports of a program.
fn is_behind_imports(symbol: Symbol) -> bool {
    matches!(
        symbol,
        Symbol::Const | Symbol::Type | Symbol::Var | Symbol::Procedure | Symbol::Begin | Symbol::End
    )
}

/// Where the imports of a text end that has these tokens, if they do. The last token may be cut, and behind it stands the end.
fn imports_end(source: &Source<'_>) -> Option<usize> {
    let whole = source.tokens.len().saturating_sub(2);
    let found = (0..whole).find(|at| source.symbol(*at).is_some_and(is_behind_imports));
    found.map(|at| source.begin(at))
}

/// A program with the name and the imports of one of which so many bytes are looked at, if its imports end there.
fn bare_program(alloc: Global, begin: &[u8]) -> Result<Option<Vec<u8>>, AllocError> {
    let source = source_of(alloc, begin)?;
    let Some(end) = imports_end(&source) else {
        return Ok(None);
    };
    let mut all = Vec::from_slice(alloc, begin.get(..end).unwrap_or(b""))?;
    all.extend_from_slice(b" END ")?;
    all.extend_from_slice(source.spelling(1))?;
    all.push(b'.')?;
    Ok(Some(all))
}

/// A program with the imports of this one and nothing else, so that they are found at once. Of a text whose imports do not end in its
/// first 65536 bytes the text itself. The only error is want of memory.
pub fn imports_of(alloc: Global, text: &[u8]) -> Result<Vec<u8>, AllocError> {
    for length in BEGINS {
        let begin = text.get(..length).unwrap_or(text);
        if let Some(program) = bare_program(alloc, begin)? {
            return Ok(program);
        }
    }
    Vec::from_slice(alloc, text)
}
