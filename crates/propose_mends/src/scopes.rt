//! Declarations that may be missing, and headings.

use m2_tree::{Pos, Symbol};
use refused_text::Source;
use std::alloc::AllocError;
use std::fmt::Write;
use text_mends::{Mends, put_line, words_of};

/// The types that are tried of a variable.
const TYPES: [&str; 4] = ["INTEGER", "CARDINAL", "CHAR", "BOOLEAN"];

/// The BEGIN of the body that has a token, if it stands in one.
fn body_of(mends: &Mends<'_>, at: usize) -> Option<usize> {
    for back in 1..=at {
        let number = at.saturating_sub(back);
        if mends.source.is(number, Symbol::Begin) {
            return Some(number);
        }
    }
    None
}

/// Declares a name as a variable of a type in front of a body.
fn put_variable(mends: &mut Mends<'_>, at: usize, body: usize, of: &str) -> Result<(), AllocError> {
    let name = words_of(mends.alloc, mends.source.spelling(at))?;
    let text = format!(in mends.alloc; "VAR {name}: {of};")?;
    let line = mends.source.line(body);
    let words = format!(in mends.alloc;
        "`{name}` is not declared: put `{text}` before line {line}"
    )?;
    put_line(mends, body, text.as_str(), words)
}

/// Declares a name as a variable.
pub fn propose_variable(mends: &mut Mends<'_>, at: usize) -> Result<(), AllocError> {
    let Some(body) = body_of(mends, at) else {
        return Ok(());
    };
    for of in &TYPES {
        put_variable(mends, at, body, of)?;
    }
    Ok(())
}

/// Writes VAR in front of a name.
fn put_var(mends: &mut Mends<'_>, number: usize) -> Result<(), AllocError> {
    let name = words_of(mends.alloc, mends.source.spelling(number))?;
    let line = mends.source.line(number);
    let words = format!(in mends.alloc; "write `VAR {name}` in line {line}")?;
    let place = mends.source.begin(number);
    mends.put(place, place, b"VAR ", words)
}

/// Writes VAR in front of the formals of the procedure that has a token.
pub fn propose_var_formal(mends: &mut Mends<'_>, at: usize) -> Result<(), AllocError> {
    for number in 0..at {
        let is_formal = mends.source.is(number.saturating_sub(1), Symbol::LeftParen)
            && mends.source.spelling(number) == mends.source.spelling(at);
        if is_formal && mends.source.is(number.saturating_sub(3), Symbol::Procedure) {
            put_var(mends, number)?;
        }
    }
    Ok(())
}

/// Takes out a name that is declared twice, with a comma beside it.
pub fn propose_once(mends: &mut Mends<'_>, at: usize) -> Result<(), AllocError> {
    let before = at.saturating_sub(1);
    let behind = at.saturating_add(1);
    if mends.source.is(before, Symbol::Comma) {
        mends.replace_known(before, at, b"", "take the second one out")?;
    }
    if mends.source.is(behind, Symbol::Comma) {
        mends.replace_known(at, behind, b"", "take the second one out")?;
    }
    let end = mends.next_of(at, Symbol::Semicolon, Symbol::Begin);
    if mends.source.is(behind, Symbol::Colon) || mends.source.is(behind, Symbol::Equal) {
        mends.replace_known(at, end, b"", "take the second declaration out")?;
    }
    Ok(())
}

/// Writes the heading of a procedure as this one.
fn put_heading(mends: &mut Mends<'_>, at: usize, heading: &[u8]) -> Result<(), AllocError> {
    let text = words_of(mends.alloc, heading)?;
    let words = format!(in mends.alloc; "the definition has `{text}`: write it so")?;
    let last = heading_end(mends, at);
    mends.replace_all(at.saturating_sub(1), last, text.as_bytes(), words)
}

/// Writes the heading of a procedure as its definition has it.
pub fn propose_heading(mends: &mut Mends<'_>, at: usize, partner: &[u8]) -> Result<(), AllocError> {
    let definition = Source::of(mends.alloc, partner, Pos { line: 1, col: 1 })?;
    for number in 1..definition.tokens.len() {
        let is_heading = definition.is(number.saturating_sub(1), Symbol::Procedure);
        if is_heading && definition.spelling(number) == mends.source.spelling(at) {
            put_heading(mends, at, heading_of(&definition, number))?;
        }
    }
    Ok(())
}

/// The last token of a heading.
fn heading_end(mends: &Mends<'_>, at: usize) -> usize {
    heading_last(&mends.source, at)
}

/// Procedures that an implementation lacks: their texts, and their headings with commas between them.
#[derive(Drop)]
struct Lacking {
    text: String,
    names: String,
}

impl Lacking {
    /// Adds the procedure of this heading.
    fn push(&mut self, name: &str, heading: &str) -> Result<(), AllocError> {
        write!(self.text, "{heading};\nBEGIN\nEND {name};\n\n")?;
        let between = if self.names.is_empty() { "" } else { ", " };
        self.names.push_str(between)?;
        self.names.push_str(heading)
    }
}

/// The procedures of a definition that an implementation lacks.
fn procedures_lacking(mends: &Mends<'_>, definition: &Source<'_>) -> Result<Lacking, AllocError> {
    let mut lacking = Lacking {
        text: String::new(mends.alloc),
        names: String::new(mends.alloc),
    };
    for number in 1..definition.tokens.len() {
        let is_heading = definition.is(number.saturating_sub(1), Symbol::Procedure)
            && definition.is_name(number);
        if is_heading && !has_procedure(mends, definition.spelling(number)) {
            let name = words_of(mends.alloc, definition.spelling(number))?;
            let heading = words_of(mends.alloc, heading_of(definition, number))?;
            lacking.push(name.as_str(), heading.as_str())?;
        }
    }
    Ok(lacking)
}

/// Adds the procedures that a definition has and an implementation lacks.
pub fn propose_procedures(mends: &mut Mends<'_>, partner: &[u8]) -> Result<(), AllocError> {
    let definition = Source::of(mends.alloc, partner, Pos { line: 1, col: 1 })?;
    let lacking = procedures_lacking(mends, &definition)?;
    let place = procedures_end(mends);
    let words = format!(in mends.alloc; "the implementation lacks `{}`: add it", lacking.names)?;
    mends.put(place, place, lacking.text.as_bytes(), words)
}

/// Whether a procedure of this name is there.
fn has_procedure(mends: &Mends<'_>, name: &[u8]) -> bool {
    (1..mends.source.tokens.len()).any(|it| {
        mends.source.is(it.saturating_sub(1), Symbol::Procedure)
            && mends.source.spelling(it) == name
    })
}

/// Where procedures may be added: in front of the module's BEGIN or END.
fn procedures_end(mends: &Mends<'_>) -> usize {
    let last = mends.source.tokens.len().saturating_sub(4);
    for back in 0..=last {
        let number = last.saturating_sub(back);
        let is_behind = mends.source.is(number.saturating_sub(1), Symbol::Semicolon);
        let is_body = mends.source.is(number, Symbol::Begin)
            || mends.source.is(number, Symbol::End);
        if is_body && is_behind && mends.source.column(number) == 1 {
            return mends.source.begin(number);
        }
    }
    mends.source.begin(last)
}

/// The last token of the heading of a procedure with this name.
fn heading_last(source: &Source<'_>, name: usize) -> usize {
    let mut depth: usize = 0;
    for at in name..source.tokens.len() {
        match source.symbol(at) {
            Some(Symbol::LeftParen) => depth = depth.saturating_add(1),
            Some(Symbol::RightParen) => depth = depth.saturating_sub(1),
            Some(Symbol::Semicolon) if depth == 0 => return at.saturating_sub(1),
            _ => {}
        }
    }
    name
}

/// The heading of a procedure, from its word on.
fn heading_of<'a>(source: &Source<'a>, name: usize) -> &'a [u8] {
    source.between(name.saturating_sub(1), heading_last(source, name))
}
