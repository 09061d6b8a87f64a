//! The call in whose brackets a place lies.

use crate::ask::Ask;
use m2_tree::Token;
use propose_mends::Source;
use serve_names::{Signature, formals_of, words_of};
use serve_programs::source_of;
use serve_words::explanation;
use std::alloc::AllocError;
use text_tokens::{argument_at, name_at};
use write_json::Json;

/// The number of the first token at or behind a place.
fn token_from(source: &Source<'_>, offset: usize) -> usize {
    let count = source.tokens.len();
    (0..count)
        .find(|at| source.begin(*at) >= offset)
        .unwrap_or(count)
}

/// Writes a heading and the names of its formals.
fn put_signature(heading: &[u8], formals: &[Vec<u8>], json: &mut Json) {
    json.begin_object();
    json.bytes_member("label", heading);
    json.name("parameters");
    json.begin_list();
    for formal in formals {
        json.begin_object();
        json.bytes_member("label", formal);
        json.end_object();
    }
    json.end_list();
    json.end_object();
}

/// Writes the answer with one heading, the names of its formals, and the number of the argument.
fn put_help(heading: &[u8], formals: &[Vec<u8>], argument: usize, json: &mut Json) {
    json.begin_object();
    json.number_member("activeParameter", argument as u64);
    json.number_member("activeSignature", 0);
    json.name("signatures");
    json.begin_list();
    put_signature(heading, formals, json);
    json.end_list();
    json.end_object();
}

/// Writes the heading of a declared procedure.
fn put_declared(ask: &Ask<'_>, signature: Signature, json: &mut Json) -> Result<(), AllocError> {
    let index = &ask.view.index;
    let Some(declaration) = index.declaration(signature.procedure) else {
        json.null();
        return Ok(());
    };
    let text = ask.known_bytes(declaration.place.file);
    let heading = words_of(ask.alloc, text, declaration)?;
    let formals = formals_of(ask.alloc, text, index, signature.procedure)?;
    put_help(&heading, &formals, signature.argument, json);
    Ok(())
}

/// Writes the heading of a standard procedure.
fn put_standard(
    ask: &Ask<'_>,
    tokens: &[Token],
    token: usize,
    json: &mut Json,
) -> Result<(), AllocError> {
    let Some(argument) = argument_at(ask.alloc, tokens, token)? else {
        json.null();
        return Ok(());
    };
    let name = name_at(tokens, argument.call.name).unwrap_or(b"");
    match explanation(name) {
        Some(word) => put_help(word.heading.as_bytes(), &[], argument.number, json),
        None => json.null(),
    }
    Ok(())
}

/// Writes the heading of the procedure in whose brackets a place lies, and the number of the argument. Null outside of calls.
pub fn signature_help(ask: &Ask<'_>, json: &mut Json) -> Result<(), AllocError> {
    let Some(file) = ask.here() else {
        json.null();
        return Ok(());
    };
    let source = source_of(ask.alloc, ask.bytes())?;
    let token = token_from(&source, ask.offset);
    let pos = file.known_pos(ask.offset);
    let index = &ask.view.index;
    match index.signature(ask.alloc, ask.file, pos, &source.tokens, token)? {
        Some(signature) => put_declared(ask, signature, json),
        None => put_standard(ask, &source.tokens, token, json),
    }
}
