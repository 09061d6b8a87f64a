//! Which definitions are reached by a change in one of them.

use indexmap::IndexMap;
use kept_modules::{Definition, Kept, Part};
use std::alloc::{AllocError, Global};

/// Definitions by the names of their modules.
pub fn numbers_of(alloc: Global, kept: &Kept) -> Result<IndexMap<&[u8], usize>, AllocError> {
    let mut numbers = IndexMap::new(alloc);
    for (number, definition) in kept.definitions.iter().enumerate() {
        numbers.insert(definition.name.as_bytes(), number)?;
    }
    Ok(numbers)
}

/// For each definition that changed itself: its own number.
fn changed(
    alloc: Global,
    kept: &Kept,
    tokens: &[String],
) -> Result<Vec<Option<usize>>, AllocError> {
    let mut causes = Vec::new(alloc);
    for (number, (definition, now)) in kept.definitions.iter().zip(tokens).enumerate() {
        let is_same = definition.tokens.as_bytes() == now.as_bytes();
        causes.push(if is_same { None } else { Some(number) })?;
    }
    Ok(causes)
}

/// The changed definition that reaches the module of this name.
fn cause_of(
    numbers: &IndexMap<&[u8], usize>,
    causes: &[Option<usize>],
    name: &str,
) -> Option<usize> {
    let number = numbers.get(name.as_bytes()).copied()?;
    causes.get(number).copied().flatten()
}

/// The changed definition that reaches one of these modules.
fn cause_among(
    numbers: &IndexMap<&[u8], usize>,
    causes: &[Option<usize>],
    names: &[String],
) -> Option<usize> {
    for name in names {
        let found = cause_of(numbers, causes, name.as_str());
        if found.is_some() {
            return found;
        }
    }
    None
}

/// Notes what reaches this definition through its imports, if nothing is noted. Whether that is new.
fn spread_to(
    numbers: &IndexMap<&[u8], usize>,
    causes: &mut Vec<Option<usize>>,
    number: usize,
    definition: &Definition,
) -> bool {
    if causes.get(number).copied().flatten().is_some() {
        return false;
    }
    let found = cause_among(numbers, causes, &definition.imports);
    if let Some(cause) = causes.get_mut(number) {
        *cause = found;
    }
    found.is_some()
}

/// Notes what reaches each definition through its imports. Whether something is new. Those that are imported mostly stand behind.
fn spread_once(
    numbers: &IndexMap<&[u8], usize>,
    causes: &mut Vec<Option<usize>>,
    definitions: &[Definition],
) -> bool {
    let mut has_more = false;
    for (number, definition) in definitions.iter().enumerate().rev() {
        if spread_to(numbers, causes, number, definition) {
            has_more = true;
        }
    }
    has_more
}

/// For each definition, whose tokens have these checksums now: the number of a changed one that it uses, directly or through others, or
/// its own if it changed itself.
pub fn causes_of(
    alloc: Global,
    kept: &Kept,
    numbers: &IndexMap<&[u8], usize>,
    tokens: &[String],
) -> Result<Vec<Option<usize>>, AllocError> {
    let mut causes = changed(alloc, kept, tokens)?;
    for _ in &kept.definitions {
        if !spread_once(numbers, &mut causes, &kept.definitions) {
            break;
        }
    }
    Ok(causes)
}

/// The changed definition that reaches a body: through its own definition, or one that it imports.
pub fn cause_for(
    numbers: &IndexMap<&[u8], usize>,
    causes: &[Option<usize>],
    body: &Part,
) -> Option<usize> {
    match cause_of(numbers, causes, body.name.as_str()) {
        Some(cause) => Some(cause),
        None => cause_among(numbers, causes, &body.imports),
    }
}
