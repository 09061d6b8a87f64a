//! What a name is, in words.

use crate::meant::{Meaning, meaning_here};
use serve_lists::{Ask, Mark};
use serve_names::{Declaration, comment_of, words_of};
use serve_words::{Word, explanation};
use std::alloc::{AllocError, Global};
use write_json::Json;

/// What stands between paragraphs.
const PARAGRAPH: &str = "\n\n";

/// Text in the language, for Markdown.
fn push_code(all: &mut String, words: &str) -> Result<(), AllocError> {
    all.push_str("```modula2\n")?;
    all.push_str(words)?;
    all.push_str("\n```")
}

/// Bytes as words.
fn words_in(alloc: Global, bytes: &[u8]) -> Result<String, AllocError> {
    String::from_utf8_lossy(alloc, bytes)
}

/// Adds a paragraph, unless it is empty.
fn push_paragraph(all: &mut String, words: &str) -> Result<(), AllocError> {
    if !words.is_empty() {
        all.push_str(PARAGRAPH)?;
        all.push_str(words)?;
    }
    Ok(())
}

/// A declaration as it is written, and behind it what the constant is that it declares.
fn code_of(ask: &Ask<'_>, declaration: &Declaration, value: &str) -> Result<String, AllocError> {
    let text = ask.known_bytes(declaration.place.file);
    let mut code = words_in(ask.alloc, &words_of(ask.alloc, text, declaration)?)?;
    if !value.is_empty() {
        code.push('\n')?;
        code.push_str(value)?;
    }
    Ok(code)
}

/// What a declared thing is: its declaration, what it means, and its comment.
fn declared_words(ask: &Ask<'_>, declaration: &Declaration) -> Result<String, AllocError> {
    let alloc = ask.alloc;
    let Meaning { value, storage } = meaning_here(ask, declaration)?;
    let mut all = String::new(alloc);
    push_code(
        &mut all,
        code_of(ask, declaration, value.as_str())?.as_str(),
    )?;
    push_paragraph(&mut all, storage.as_str())?;
    let text = ask.known_bytes(declaration.place.file);
    if let Some(comment) = comment_of(text, declaration) {
        push_paragraph(&mut all, words_in(alloc, comment)?.trim())?;
    }
    Ok(all)
}

/// Writes what is shown of a place.
fn put_shown(ask: &Ask<'_>, mark: Mark, words: &str, json: &mut Json) {
    json.begin_object();
    json.name("contents");
    json.begin_object();
    json.words_member("kind", "markdown");
    json.words_member("value", words);
    json.end_object();
    json.name("range");
    ask.put_range(mark, json);
    json.end_object();
}

/// Where the token stands in which the place is.
fn token_mark(ask: &Ask<'_>) -> Result<Option<Mark>, AllocError> {
    let source = ask.source()?;
    for at in 0..source.tokens.len() {
        let (begin, end) = (source.begin(at), source.end(at));
        if begin <= ask.offset && ask.offset <= end && source.spelling(at).len() > 1 {
            return Ok(Some(Mark {
                file: ask.file,
                begin,
                end,
            }));
        }
    }
    Ok(None)
}

/// What a word of the language is: how it is written, and a sentence.
fn explained_words(alloc: Global, word: &Word) -> Result<String, AllocError> {
    let mut all = String::new(alloc);
    push_code(&mut all, word.heading)?;
    push_paragraph(&mut all, word.sentence)?;
    Ok(all)
}

/// Writes what the word of the language is in which the place is. Null if it is in none.
fn put_word(ask: &Ask<'_>, json: &mut Json) -> Result<(), AllocError> {
    let Some(mark) = token_mark(ask)? else {
        json.null();
        return Ok(());
    };
    let spelling = ask.bytes().get(mark.begin..mark.end).unwrap_or(b"");
    match explanation(spelling) {
        Some(word) => {
            let words = explained_words(ask.alloc, &word)?;
            put_shown(ask, mark, words.as_str(), json);
        }
        None => json.null(),
    }
    Ok(())
}

/// Writes what the name at a place is: its declaration with the comment, or a sentence on a word of the language. Null if neither
/// stands there. If the program is built, also the value of a constant, and the size and the place of a variable or a field. The only
/// error is want of memory.
pub fn hover(ask: &Ask<'_>, json: &mut Json) -> Result<(), AllocError> {
    let Some((found, mark)) = ask.name_here() else {
        return put_word(ask, json);
    };
    match ask.view.index.declaration(found.declaration) {
        Some(declaration) => {
            let words = declared_words(ask, declaration)?;
            put_shown(ask, mark, words.as_str(), json);
        }
        None => json.null(),
    }
    Ok(())
}
