//! Names that may be meant by others.

use m2_tree::Symbol;
use refused_text::{Export, MOST_UNLIKE, are_alike, unlikeness};
use std::alloc::AllocError;
use text_mends::{Mends, words_of};

/// The names that are declared around every module.
const PREDECLARED: [&str; 21] = [
    "INTEGER", "CARDINAL", "BOOLEAN", "CHAR", "BITSET", "FALSE", "TRUE", "ABS", "CAP", "CHR",
    "HIGH", "MAX", "MIN", "ODD", "ORD", "VAL", "INC", "DEC", "INCL", "EXCL", "HALT",
];

/// The most tokens on each side of a place whose names are looked at.
const MOST_TOKENS: usize = 4000;

/// The most tokens on each side of a place whose names are tried there.
const MOST_AROUND: usize = 120;

/// The most names that are tried at a place.
const MOST_TRIED: usize = 32;

/// The most names that one may stand for.
const MOST_ALIKE: usize = 12;

/// Whether a name stands at one of these tokens already.
fn is_among(mends: &Mends<'_>, numbers: &[usize], at: usize) -> bool {
    numbers.iter().any(|it| mends.source.spelling(*it) == mends.source.spelling(at))
}

/// Adds the number of a token that is a name, unless the name or enough others are there.
fn add_name(
    mends: &Mends<'_>,
    numbers: &mut Vec<usize>,
    at: usize,
    most: usize,
) -> Result<(), AllocError> {
    if numbers.len() < most && mends.source.is_name(at) && !is_among(mends, numbers, at) {
        numbers.push(at)?;
    }
    Ok(())
}

/// The numbers of tokens that are names, the nearest in front of a place first and then those behind it; each name once.
pub fn names_near(mends: &Mends<'_>, at: usize, most: usize) -> Result<Vec<usize>, AllocError> {
    let mut numbers = Vec::new(mends.alloc);
    for back in 1..=at.min(MOST_TOKENS) {
        add_name(mends, &mut numbers, at.saturating_sub(back), most)?;
    }
    let behind = at.saturating_add(1);
    for number in behind..behind
        .saturating_add(MOST_TOKENS)
        .min(mends.source.tokens.len())
    {
        add_name(mends, &mut numbers, number, most)?;
    }
    Ok(numbers)
}

/// The numbers of tokens that are the nearest names in front of a place and behind it, by turns; each name once.
pub fn names_around(mends: &Mends<'_>, at: usize) -> Result<Vec<usize>, AllocError> {
    let mut numbers = Vec::new(mends.alloc);
    for far in 1..MOST_AROUND {
        if let Some(before) = at.checked_sub(far) {
            add_name(mends, &mut numbers, before, MOST_TRIED)?;
        }
        add_name(mends, &mut numbers, at.saturating_add(far), MOST_TRIED)?;
    }
    Ok(numbers)
}

/// Writes a name as another that is meant.
fn put_name(mends: &mut Mends<'_>, at: usize, name: &[u8]) -> Result<(), AllocError> {
    let there = words_of(mends.alloc, mends.source.spelling(at))?;
    let new = words_of(mends.alloc, name)?;
    let words = format!(in mends.alloc; "`{there}` is not known here: is `{new}` meant?")?;
    mends.replace_all(at, at, name, words)
}

/// Writes a name as those among the predeclared that are this much unlike it.
fn propose_predeclared(mends: &mut Mends<'_>, at: usize, unlike: usize) -> Result<(), AllocError> {
    for name in &PREDECLARED {
        let there = mends.source.spelling(at);
        if are_alike(there, name.as_bytes()) && unlikeness(there, name.as_bytes()) == unlike {
            put_name(mends, at, name.as_bytes())?;
        }
    }
    Ok(())
}

/// Writes a name as those of other tokens that are this much unlike it.
fn propose_names(
    mends: &mut Mends<'_>,
    at: usize,
    numbers: &[usize],
    unlike: usize,
) -> Result<(), AllocError> {
    for number in numbers {
        let there = mends.source.spelling(at);
        let name = mends.source.spelling(*number);
        if name != there && are_alike(there, name) && unlikeness(there, name) == unlike {
            let name = Vec::from_slice(mends.alloc, name)?;
            put_name(mends, at, &name)?;
        }
    }
    Ok(())
}

/// Writes a name as what modules export that is alike.
pub fn propose_exports(
    mends: &mut Mends<'_>,
    at: usize,
    exports: &[Export],
) -> Result<(), AllocError> {
    for export in exports {
        let there = mends.source.spelling(at);
        if export.is_given && export.name.as_slice() != there && are_alike(there, &export.name) {
            put_name(mends, at, &export.name)?;
        }
    }
    Ok(())
}

/// Writes a declaration as the name that is not declared.
fn put_declared(mends: &mut Mends<'_>, at: usize, declared: usize) -> Result<(), AllocError> {
    let name = words_of(mends.alloc, mends.source.spelling(declared))?;
    let new = words_of(mends.alloc, mends.source.spelling(at))?;
    let line = mends.source.line(declared);
    let words = format!(in mends.alloc;
        "`{new}` is declared as `{name}` in line {line}: write `{new}` there"
    )?;
    let text = Vec::from_slice(mends.alloc, mends.source.spelling(at))?;
    mends.replace_all(declared, declared, &text, words)
}

/// Writes a declaration that is alike as the name that is not declared.
fn propose_declared(mends: &mut Mends<'_>, at: usize, numbers: &[usize]) -> Result<(), AllocError> {
    for number in numbers {
        let there = mends.source.spelling(at);
        let name = mends.source.spelling(*number);
        if *number < at && name != there && are_alike(there, name) {
            let declared = first_of(mends, *number);
            put_declared(mends, at, declared)?;
        }
    }
    Ok(())
}

/// The first token that is the same name as this one.
fn first_of(mends: &Mends<'_>, at: usize) -> usize {
    for number in 0..at {
        if mends.source.spelling(number) == mends.source.spelling(at) {
            return number;
        }
    }
    at
}

/// The tokens near a name that are names like it.
fn names_alike(mends: &Mends<'_>, at: usize) -> Result<Vec<usize>, AllocError> {
    let near = names_near(mends, at, MOST_TOKENS)?;
    let mut alike = Vec::new(mends.alloc);
    for number in &near {
        let is_like = are_alike(mends.source.spelling(at), mends.source.spelling(*number));
        if is_like && alike.len() < MOST_ALIKE {
            alike.push(*number)?;
        }
    }
    Ok(alike)
}

/// Names that may be meant by one that is not declared.
pub fn propose_alike(
    mends: &mut Mends<'_>,
    at: usize,
    exports: &[Export],
) -> Result<(), AllocError> {
    let alike = names_alike(mends, at)?;
    for unlike in 0..=MOST_UNLIKE {
        propose_names(mends, at, &alike, unlike)?;
        propose_predeclared(mends, at, unlike)?;
    }
    propose_exports(mends, at, exports)?;
    propose_declared(mends, at, &alike)
}

/// Whether a token stands behind the dot of a name.
pub fn is_part(mends: &Mends<'_>, at: usize) -> bool {
    mends.source.is(at.saturating_sub(1), Symbol::Dot)
}
