//! What the tokens of a text are.

use crate::ask::Ask;
use m2_tree::Lexeme;
use propose_mends::Source;
use serve_names::{Declaration, Kind, Role, Use};
use serve_programs::source_of;
use serve_texts::{Known, Position, Text};
use serve_words::{Sort, explanation};
use std::alloc::AllocError;
use write_json::Json;

/// The types of tokens, in the order of their numbers.
pub const TOKEN_TYPES: [&str; 10] = [
    "namespace",
    "type",
    "enumMember",
    "variable",
    "parameter",
    "property",
    "function",
    "keyword",
    "number",
    "string",
];

/// What more is said of tokens, each a bit from the lowest on.
pub const TOKEN_MODIFIERS: [&str; 3] = ["declaration", "readonly", "defaultLibrary"];

/// The numbers of types.
const OF_NAMESPACE: u32 = 0;

const OF_TYPE: u32 = 1;

const OF_ENUM_MEMBER: u32 = 2;

const OF_VARIABLE: u32 = 3;

const OF_PARAMETER: u32 = 4;

const OF_PROPERTY: u32 = 5;

const OF_FUNCTION: u32 = 6;

const OF_KEYWORD: u32 = 7;

const OF_NUMBER: u32 = 8;

const OF_STRING: u32 = 9;

/// The bits of what more is said.
const IS_PLAIN: u32 = 0;

const IS_DECLARED: u32 = 1;

const IS_READONLY: u32 = 2;

const IS_BUILT_IN: u32 = 4;

/// What a token is.
#[derive(Clone, Copy, PartialEq, Eq)]
struct Paint {
    of: u32,
    modifiers: u32,
}

/// What a declared thing is.
fn paint_of_declared(declaration: &Declaration, role: Role) -> Paint {
    let more = if matches!(role, Role::Declaration | Role::Implementation) {
        IS_DECLARED
    } else {
        IS_PLAIN
    };
    let (of, modifiers) = match declaration.kind {
        Kind::Module => (OF_NAMESPACE, IS_PLAIN),
        Kind::Constant => (OF_VARIABLE, IS_READONLY),
        Kind::Type => (OF_TYPE, IS_PLAIN),
        Kind::Variable => (OF_VARIABLE, IS_PLAIN),
        Kind::Formal => (OF_PARAMETER, IS_PLAIN),
        Kind::Field => (OF_PROPERTY, IS_PLAIN),
        Kind::Procedure => (OF_FUNCTION, IS_PLAIN),
        Kind::EnumerationConstant => (OF_ENUM_MEMBER, IS_READONLY),
    };
    Paint {
        of,
        modifiers: modifiers | more,
    }
}

/// What a word of the language is.
fn paint_of_word(spelling: &[u8]) -> Option<Paint> {
    let (of, modifiers) = match explanation(spelling)?.sort {
        Sort::Type => (OF_TYPE, IS_BUILT_IN),
        Sort::Constant => (OF_VARIABLE, IS_READONLY | IS_BUILT_IN),
        Sort::Procedure => (OF_FUNCTION, IS_BUILT_IN),
        Sort::Console => (OF_NAMESPACE, IS_BUILT_IN),
        Sort::Reserved => (OF_KEYWORD, IS_PLAIN),
    };
    Some(Paint { of, modifiers })
}

/// What the name at a byte stands for.
fn use_at(ask: &Ask<'_>, begin: usize) -> Option<Use> {
    let pos = ask.here()?.known_pos(begin);
    let found = ask.view.index.use_at(ask.file, pos)?;
    let mark = ask.view.mark_of(found.place)?;
    if mark.begin == begin {
        Some(found)
    } else {
        None
    }
}

/// What a name is.
fn paint_of_name(ask: &Ask<'_>, begin: usize, spelling: &[u8]) -> Option<Paint> {
    match use_at(ask, begin) {
        Some(found) => {
            let declaration = ask.view.index.declaration(found.declaration)?;
            Some(paint_of_declared(declaration, found.role))
        }
        None => paint_of_word(spelling),
    }
}

/// What a token is, if it is no sign.
fn paint_at(ask: &Ask<'_>, source: &Source<'_>, at: usize) -> Option<Paint> {
    let plain = |of: u32| Some(Paint {
        of,
        modifiers: IS_PLAIN,
    });
    let spelling = source.spelling(at);
    match &source.tokens.get(at)?.lexeme {
        Lexeme::Name(_) => paint_of_name(ask, source.begin(at), spelling),
        Lexeme::Number(_) => plain(OF_NUMBER),
        Lexeme::Char(_) | Lexeme::Text(_) => plain(OF_STRING),
        Lexeme::Symbol(_) if spelling.first().is_some_and(|it| it.is_ascii_alphabetic()) => {
            plain(OF_KEYWORD)
        }
        Lexeme::Symbol(_) | Lexeme::End => None,
    }
}

/// Writes the five numbers of a token: where it begins behind the token before, how long it is, and what it is.
fn put_token(before: Position, place: Position, length: u32, paint: Paint, json: &mut Json) {
    let from = if before.line == place.line {
        before.character
    } else {
        0
    };
    json.number(u64::from(place.line.saturating_sub(before.line)));
    json.number(u64::from(place.character.saturating_sub(from)));
    json.number(u64::from(length));
    json.number(u64::from(paint.of));
    json.number(u64::from(paint.modifiers));
}

/// Writes the numbers of all tokens that are no signs.
fn put_tokens(ask: &Ask<'_>, text: &Text, source: &Source<'_>, json: &mut Json) {
    let mut before = Known::BEGIN;
    for at in 0..source.tokens.len() {
        if let Some(paint) = paint_at(ask, source, at) {
            let offset = source.begin(at);
            let position = text.position_behind(before, offset, ask.encoding);
            let length = ask.encoding.units_of(source.spelling(at));
            put_token(before.position, position, length, paint, json);
            before = Known { offset, position };
        }
    }
}

/// Writes what each token of the file is, as far as the text divides into tokens: names by what they stand for, words, numbers and
/// strings. Null if there is no file.
pub fn semantic_tokens(ask: &Ask<'_>, json: &mut Json) -> Result<(), AllocError> {
    let Some(file) = ask.here() else {
        json.null();
        return Ok(());
    };
    let source = source_of(ask.alloc, ask.bytes())?;
    json.begin_object();
    json.name("data");
    json.begin_list();
    put_tokens(ask, &file.now, &source, json);
    json.end_list();
    json.end_object();
    Ok(())
}
