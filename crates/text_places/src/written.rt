//! The types of variables, as a text has them.

use crate::scopes::{Declared, Kind, declaration_of};
use crate::texts::Text;
use m2_tree::{Symbol, Token};
use std::alloc::{AllocError, Global};
use text_tokens::{closes, excerpt, name_at, opens, symbol_of};

/// Whether the words of a type end in front of a symbol that stands outside of its brackets and records.
fn ends_type(symbol: Symbol) -> bool {
    matches!(symbol, Symbol::Semicolon | Symbol::RightParen | Symbol::End)
}

/// How many brackets and records are open behind a symbol, if this many are open before it.
fn depth_behind(symbol: Symbol, depth: usize) -> usize {
    if opens(symbol) || symbol == Symbol::Record {
        depth.saturating_add(1)
    } else if closes(symbol) || symbol == Symbol::End {
        depth.saturating_sub(1)
    } else {
        depth
    }
}

/// The number of the token behind the type that begins at the token of this number.
fn type_end(tokens: &[Token], from: usize) -> usize {
    let mut depth = 0;
    for (number, token) in tokens.iter().enumerate() {
        if number >= from {
            if let Some(symbol) = symbol_of(token) {
                if depth == 0 && ends_type(symbol) {
                    return number;
                }
                depth = depth_behind(symbol, depth);
            }
        }
    }
    tokens.len()
}

/// Whether a type stands behind a symbol of a declaration.
fn stands_before_type(symbol: Symbol) -> bool {
    matches!(symbol, Symbol::Colon | Symbol::Equal)
}

/// The number of the token behind the first colon or equal sign from one number on.
fn type_begin(tokens: &[Token], from: usize) -> usize {
    for (number, token) in tokens.iter().enumerate() {
        if number >= from && symbol_of(token).is_some_and(stands_before_type) {
            return number.saturating_add(1);
        }
    }
    tokens.len()
}

/// The type of a variable that is declared in a text, or what a type is declared as, in the words of the text.
pub fn written_type(
    alloc: Global,
    text: Text<'_>,
    declared: Declared,
) -> Result<String, AllocError> {
    let from = type_begin(text.tokens, declared.token);
    let to = type_end(text.tokens, from);
    excerpt(alloc, text.bytes, text.tokens, from, to)
}

/// The declaration of the type of a variable, if this type is a name that is declared in the text.
fn type_declaration(text: Text<'_>, all: &[Declared], variable: Declared) -> Option<Declared> {
    let from = type_begin(text.tokens, variable.token);
    if type_end(text.tokens, from) != from.saturating_add(1) {
        return None;
    }
    let declared = declaration_of(text.tokens, all, name_at(text.tokens, from)?)?;
    if declared.kind == Kind::Type {
        Some(declared)
    } else {
        None
    }
}

/// The type of a variable as the text has it. Behind the name of a type that is declared there too, it says what it is.
pub fn spelled_type(
    alloc: Global,
    text: Text<'_>,
    all: &[Declared],
    variable: Declared,
) -> Result<String, AllocError> {
    let words = written_type(alloc, text, variable)?;
    match type_declaration(text, all, variable) {
        Some(declared) => {
            let what = written_type(alloc, text, declared)?;
            format!(in alloc; "{words} = {what}")
        }
        None => Ok(words),
    }
}
