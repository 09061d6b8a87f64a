//! What may be written at a place.

use crate::items::put_item;
use crate::snippets::{Formals, Lead, call_of, put_lacking};
use m2_tree::{Pos, Symbol, Token};
use scan_tokens::{ScanError, scan};
use serve_hovers::Ask;
use serve_names::{Declaration, Kind, Offer, words_of};
use serve_words::{Sort, Word, explanation, reserved_words};
use std::alloc::{AllocError, Global};
use text_tokens::{name_at, part, symbol_at};
use write_json::Json;

/// The numbers that the protocol has for what is offered.
const FUNCTION: u32 = 3;

const FIELD: u32 = 5;

const VARIABLE: u32 = 6;

const MODULE: u32 = 9;

const KEYWORD: u32 = 14;

const MEMBER: u32 = 20;

const CONSTANT: u32 = 21;

const TYPE: u32 = 22;

/// The bytes of the longest text whose declarations are shown beside their names.
pub(crate) const MOST_BYTES: usize = 65_536;

/// What may be chosen from at a place.
#[derive(Clone, Copy)]
pub struct Choice<'a> {
    /// The modules that may be imported: they stand in folders.
    pub modules: &'a [String],
    /// Whether the editor takes texts with places to fill.
    pub has_snippets: bool,
}

/// What is wanted at a place.
#[derive(Clone, Copy)]
enum Wanted<'a> {
    /// The name of a procedure that is declared.
    Heading,
    /// A declaration, or what `Name` says.
    Declaration,
    /// A component or an export, behind the point that is the token of this number.
    Member(usize),
    /// The name of a module.
    Module,
    /// A name that the module of this name exports.
    Export(&'a [u8]),
    /// Any name in scope, or a word of the language.
    Name,
}

/// The tokens in front of a place, or nothing if they do not divide.
fn tokens_before(alloc: Global, front: &[u8]) -> Result<Option<Vec<Token>>, AllocError> {
    match scan(alloc, front) {
        Ok(tokens) => Ok(Some(tokens)),
        Err(error) => match error {
            ScanError::Refused(_refusal) => Ok(None),
            ScanError::NoMemory => Err(AllocError),
        },
    }
}

/// How many tokens stand in front of the word that is being written at the end of a text.
fn count_before_word(tokens: &[Token], front: &[u8]) -> usize {
    let count = tokens.len().saturating_sub(1);
    let is_in_word = front
        .last()
        .is_some_and(|byte| byte.is_ascii_alphanumeric());
    if is_in_word {
        count.saturating_sub(1)
    } else {
        count
    }
}

/// The number of the IMPORT or FROM in whose list the token of this number would stand.
fn import_before(tokens: &[Token], count: usize) -> Option<(usize, Symbol)> {
    for number in (0..count).rev() {
        match symbol_at(tokens, number) {
            Some(Symbol::Comma) | None => {}
            Some(Symbol::Import) => return Some((number, Symbol::Import)),
            Some(Symbol::From) => return Some((number, Symbol::From)),
            Some(_other) => return None,
        }
    }
    None
}

/// What is wanted behind the IMPORT of this number.
fn wanted_of_import(tokens: &[Token], number: usize) -> Wanted<'_> {
    let before = number.saturating_sub(2);
    let module = number.saturating_sub(1);
    match name_at(tokens, module) {
        Some(name) if symbol_at(tokens, before) == Some(Symbol::From) => Wanted::Export(name),
        _ => Wanted::Module,
    }
}

/// What is wanted behind so many tokens.
fn wanted_behind(tokens: &[Token], count: usize) -> Wanted<'_> {
    let last = count.saturating_sub(1);
    let before = symbol_at(tokens, last).filter(|_| count > 0);
    match (before, import_before(tokens, count)) {
        (Some(Symbol::Dot), _) => Wanted::Member(last),
        (Some(Symbol::Procedure), _) => Wanted::Heading,
        (_, Some((number, Symbol::Import))) => wanted_of_import(tokens, number),
        (_, Some((number, _from))) if number == last => Wanted::Module,
        (Some(Symbol::Semicolon), _) => Wanted::Declaration,
        _ => Wanted::Name,
    }
}

/// The number that the protocol has for a kind.
fn kind_number(kind: Kind) -> u32 {
    match kind {
        Kind::Module => MODULE,
        Kind::Constant => CONSTANT,
        Kind::Type => TYPE,
        Kind::Variable | Kind::Formal => VARIABLE,
        Kind::Field => FIELD,
        Kind::Procedure => FUNCTION,
        Kind::EnumerationConstant => MEMBER,
    }
}

/// The number that the protocol has for a word.
fn sort_number(sort: Sort) -> u32 {
    match sort {
        Sort::Type => TYPE,
        Sort::Constant => CONSTANT,
        Sort::Procedure => FUNCTION,
        Sort::Console => MODULE,
        Sort::Reserved => KEYWORD,
    }
}

/// Writes a word of the language.
fn put_word(word: &Word, json: &mut Json) {
    let kind = sort_number(word.sort);
    put_item(
        word.name.as_bytes(),
        kind,
        word.heading.as_bytes(),
        None,
        json,
    );
}

/// Writes a module by its name alone.
fn put_module(name: &[u8], json: &mut Json) {
    put_item(name, MODULE, b"", None, json);
}

/// How a thing is declared, unless that stands in too long a text.
fn shown_words(ask: &Ask<'_>, declaration: &Declaration) -> Result<Vec<u8>, AllocError> {
    let text = ask.known_bytes(declaration.place.file);
    if text.len() > MOST_BYTES {
        Ok(Vec::new(ask.alloc))
    } else {
        words_of(ask.alloc, text, declaration)
    }
}

/// Writes a declared thing: a procedure with places for what is given to it, if formals are known.
fn put_declared(
    ask: &Ask<'_>,
    number: usize,
    formals: Option<&Formals>,
    json: &mut Json,
) -> Result<(), AllocError> {
    let Some(declaration) = ask.view.index.declaration(number) else {
        return Ok(());
    };
    let words = shown_words(ask, declaration)?;
    let insert = match formals {
        Some(formals) => call_of(ask, number, declaration, formals)?,
        None => None,
    };
    let kind = kind_number(declaration.kind);
    put_item(&declaration.name, kind, &words, insert.as_ref(), json);
    Ok(())
}

/// Writes what is offered.
fn put_offer(
    ask: &Ask<'_>,
    offer: &Offer,
    formals: Option<&Formals>,
    json: &mut Json,
) -> Result<(), AllocError> {
    match (offer.declaration, explanation(&offer.name)) {
        (Some(number), _) => return put_declared(ask, number, formals, json),
        (None, Some(word)) => put_word(&word, json),
        (None, None) => put_module(&offer.name, json),
    }
    Ok(())
}

/// The formals of all procedures, if the editor takes texts with places to fill.
fn formals_for(ask: &Ask<'_>, choice: &Choice<'_>) -> Result<Option<Formals>, AllocError> {
    if choice.has_snippets {
        Ok(Some(Formals::of(ask)?))
    } else {
        Ok(None)
    }
}

/// Writes all that is offered.
fn put_offers(
    ask: &Ask<'_>,
    choice: &Choice<'_>,
    offers: &[Offer],
    json: &mut Json,
) -> Result<(), AllocError> {
    let formals = formals_for(ask, choice)?;
    for offer in offers {
        put_offer(ask, offer, formals.as_ref(), json)?;
    }
    Ok(())
}

/// Writes the names in scope at a place, and the reserved words.
fn put_scope(
    ask: &Ask<'_>,
    choice: &Choice<'_>,
    pos: Pos,
    json: &mut Json,
) -> Result<(), AllocError> {
    let offers = ask.view.index.in_scope(ask.alloc, ask.file, pos)?;
    put_offers(ask, choice, &offers, json)?;
    for word in reserved_words() {
        put_word(word, json);
    }
    Ok(())
}

/// Writes the modules that may be imported: these, which stand in folders.
fn put_modules(modules: &[String], json: &mut Json) {
    for module in modules {
        put_module(module.as_bytes(), json);
    }
}

/// The number of the module of this name.
fn module_named(ask: &Ask<'_>, name: &[u8]) -> Result<Option<usize>, AllocError> {
    let index = &ask.view.index;
    for module in index.modules(ask.alloc)? {
        let is_this = index
            .declaration(module)
            .is_some_and(|it| it.name.as_slice() == name);
        if is_this {
            return Ok(Some(module));
        }
    }
    Ok(None)
}

/// Writes what the module of this name exports.
fn put_exports(ask: &Ask<'_>, name: &[u8], json: &mut Json) -> Result<(), AllocError> {
    let Some(module) = module_named(ask, name)? else {
        return Ok(());
    };
    for number in ask.view.index.exports_of(ask.alloc, module)? {
        put_declared(ask, number, None, json)?;
    }
    Ok(())
}

/// Writes what is wanted.
fn put_wanted(
    ask: &Ask<'_>,
    tokens: &[Token],
    wanted: Wanted<'_>,
    choice: &Choice<'_>,
    json: &mut Json,
) -> Result<(), AllocError> {
    let Some(file) = ask.here() else {
        return Ok(());
    };
    let pos = file.known_pos(ask.offset);
    let index = &ask.view.index;
    match wanted {
        Wanted::Module => {
            put_modules(choice.modules, json);
            Ok(())
        }
        Wanted::Export(name) => put_exports(ask, name, json),
        Wanted::Member(point) => {
            let offers = index.members_of(ask.alloc, ask.file, pos, tokens, point)?;
            put_offers(ask, choice, &offers, json)
        }
        Wanted::Heading => put_lacking(ask, choice, Lead::Written, pos, json),
        Wanted::Declaration => {
            put_lacking(ask, choice, Lead::Missing, pos, json)?;
            put_scope(ask, choice, pos, json)
        }
        Wanted::Name => put_scope(ask, choice, pos, json),
    }
}

/// Writes the list of what may stand at a place: behind a point the fields of the record or what the module exports, in an import
/// these modules or what one exports, behind PROCEDURE what the definition declares and the implementation lacks, and else the names
/// in scope and the words of the language, where a declaration may stand what the implementation lacks too. Nothing in a comment or in
/// a string. The only error is want of memory.
pub fn completion(ask: &Ask<'_>, choice: &Choice<'_>, json: &mut Json) -> Result<(), AllocError> {
    json.begin_list();
    let front = part(ask.bytes(), 0, ask.offset);
    if let Some(tokens) = tokens_before(ask.alloc, front)? {
        let count = count_before_word(&tokens, front);
        let wanted = wanted_behind(&tokens, count);
        put_wanted(ask, &tokens, wanted, choice, json)?;
    }
    json.end_list();
    Ok(())
}
