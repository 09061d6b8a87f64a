//! What modules export, and imports that may be missing.

use m2_tree::Symbol;
use refused_text::{Export, are_alike};
use std::alloc::AllocError;
use text_mends::{Mends, words_of};

/// The last name of the import from this module, if there is one.
fn list_of(mends: &Mends<'_>, module: &[u8]) -> Option<usize> {
    let mut found = None;
    for at in 0..mends.source.tokens.len() {
        let is_from = mends.source.is(at, Symbol::From);
        if is_from && mends.source.spelling(at.saturating_add(1)) == module {
            let end = mends.next_of(at, Symbol::Semicolon, Symbol::Begin);
            found = Some(end.saturating_sub(1));
        }
    }
    found
}

/// Adds a name to the import from its module, of which this is the last name.
fn put_listed(mends: &mut Mends<'_>, export: &Export, last: usize) -> Result<(), AllocError> {
    let module = words_of(mends.alloc, &export.module)?;
    let name = words_of(mends.alloc, &export.name)?;
    let place = mends.source.end(last);
    let text = format!(in mends.alloc; ", {name}")?;
    let words = format!(in mends.alloc;
        "`{name}` is not imported: add it to FROM {module} IMPORT"
    )?;
    mends.put(place, place, text.as_bytes(), words)
}

/// The import of a name from its module.
fn import_of(mends: &Mends<'_>, export: &Export) -> Result<String, AllocError> {
    let module = words_of(mends.alloc, &export.module)?;
    let name = words_of(mends.alloc, &export.name)?;
    format!(in mends.alloc; "FROM {module} IMPORT {name};")
}

/// Imports a name from its module in a line behind the heading.
fn put_first(mends: &mut Mends<'_>, export: &Export) -> Result<(), AllocError> {
    let heading = mends.next_of(0, Symbol::Semicolon, Symbol::Begin);
    let place = mends.source.end(heading);
    let import = import_of(mends, export)?;
    let name = words_of(mends.alloc, &export.name)?;
    let text = format!(in mends.alloc; "\n{import}")?;
    let words = format!(in mends.alloc;
        "`{name}` is not imported: put `{import}` behind line {}",
        mends.source.line(heading)
    )?;
    mends.put(place, place, text.as_bytes(), words)
}

/// Imports what a module exports, in a list that is there or in a line of its own.
fn put_import(mends: &mut Mends<'_>, export: &Export) -> Result<(), AllocError> {
    match list_of(mends, &export.module) {
        Some(last) => put_listed(mends, export, last),
        None => put_first(mends, export),
    }
}

/// Imports a name from each module that exports it.
pub fn propose_import_of(
    mends: &mut Mends<'_>,
    at: usize,
    exports: &[Export],
) -> Result<(), AllocError> {
    for export in exports {
        if export.name.as_slice() == mends.source.spelling(at) {
            put_import(mends, export)?;
        }
    }
    propose_module(mends, at, exports)
}

/// Imports a whole module of this name.
fn propose_module(mends: &mut Mends<'_>, at: usize, exports: &[Export]) -> Result<(), AllocError> {
    let is_module = exports
        .iter()
        .any(|it| it.module.as_slice() == mends.source.spelling(at));
    if !is_module || !mends.source.is(at.saturating_add(1), Symbol::Dot) {
        return Ok(());
    }
    let module = words_of(mends.alloc, mends.source.spelling(at))?;
    let place = mends
        .source
        .end(mends.next_of(0, Symbol::Semicolon, Symbol::Begin));
    let text = format!(in mends.alloc; "\nIMPORT {module};")?;
    let words = format!(in mends.alloc;
        "the module is not imported: put `IMPORT {module};` behind the heading"
    )?;
    mends.put(place, place, text.as_bytes(), words)
}

/// The names of an import from one token to another without the name at a token, with commas between them.
fn other_names(
    mends: &Mends<'_>,
    from: usize,
    end: usize,
    at: usize,
) -> Result<String, AllocError> {
    let mut text = Vec::new(mends.alloc);
    for number in from..end {
        if number != at && mends.source.is_name(number) {
            text.extend_from_slice(if text.is_empty() { b"" } else { b", " })?;
            text.extend_from_slice(mends.source.spelling(number))?;
        }
    }
    words_of(mends.alloc, &text)
}

/// The import between two tokens without the name at a token, and the import of this name from another module.
fn moved_import(
    mends: &Mends<'_>,
    from: usize,
    end: usize,
    at: usize,
    export: &Export,
) -> Result<String, AllocError> {
    let left = other_names(mends, from.saturating_add(3), end, at)?;
    let import = import_of(mends, export)?;
    if left.is_empty() {
        return Ok(import);
    }
    let here = words_of(mends.alloc, mends.source.spelling(from.saturating_add(1)))?;
    format!(in mends.alloc; "FROM {here} IMPORT {left}; {import}")
}

/// Takes a name out of its import, and imports it from another module.
fn move_import(mends: &mut Mends<'_>, at: usize, export: &Export) -> Result<(), AllocError> {
    let from = statement_of_import(mends, at);
    let end = mends.next_of(at, Symbol::Semicolon, Symbol::Begin);
    let line = moved_import(mends, from, end, at, export)?;
    let module = words_of(mends.alloc, &export.module)?;
    let name = words_of(mends.alloc, &export.name)?;
    let reason = format!(in mends.alloc; "`{name}` stands in {module}")?;
    mends.write(from, end, line.as_str(), reason.as_str())
}

/// The FROM or IMPORT of the import that has a token.
fn statement_of_import(mends: &Mends<'_>, at: usize) -> usize {
    for back in 0..=at {
        let number = at.saturating_sub(back);
        if mends.source.is(number, Symbol::From) {
            return number;
        }
        if mends.source.is(number, Symbol::Semicolon) {
            return number.saturating_add(1);
        }
    }
    at
}

/// The import of a name that its module does not export.
pub fn propose_exported(
    mends: &mut Mends<'_>,
    at: usize,
    exports: &[Export],
) -> Result<(), AllocError> {
    for export in exports {
        if export.name.as_slice() == mends.source.spelling(at) {
            move_import(mends, at, export)?;
        }
    }
    Ok(())
}

/// Writes the name of a module that is not there as one that is.
pub fn propose_imported(
    mends: &mut Mends<'_>,
    at: usize,
    exports: &[Export],
) -> Result<(), AllocError> {
    let mut last: &[u8] = b"";
    for export in exports {
        let module = export.module.as_slice();
        if module != last && are_alike(module, mends.source.spelling(at)) {
            mends.replace(at, module)?;
        }
        last = module;
    }
    Ok(())
}
