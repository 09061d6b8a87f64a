//! What editors say of their texts.

use crate::params::{range_of, text_at};
use serde_json::Value;
use serve_names::{Parsed, read};
use serve_programs::Fresh;
use serve_texts::{Change, Encoding, OpenText, Text, Texts, path_of};
use std::alloc::{AllocError, Global};

/// The path of the file of this name, or the name itself if it is no file of this machine.
fn path_or_name(alloc: Global, uri: &str) -> Result<String, AllocError> {
    match path_of(alloc, uri)? {
        Some(path) => Ok(path),
        None => String::from_str(alloc, uri),
    }
}

/// The path of the text that a message is about.
pub fn path_in(alloc: Global, params: &Value) -> Result<Option<String>, AllocError> {
    match text_at(params, "/textDocument/uri") {
        Some(uri) => Ok(Some(path_or_name(alloc, uri)?)),
        None => Ok(None),
    }
}

/// The version of the text that a message is about.
fn version_in(params: &Value) -> i64 {
    params
        .pointer("/textDocument/version")
        .and_then(Value::as_i64)
        .unwrap_or(0)
}

/// Opens a text. Whether the message says which.
pub fn open_text(alloc: Global, texts: &mut Texts, params: &Value) -> Result<bool, AllocError> {
    let uri = text_at(params, "/textDocument/uri");
    let text = text_at(params, "/textDocument/text");
    let (Some(uri), Some(text)) = (uri, text) else {
        return Ok(false);
    };
    let path = path_or_name(alloc, uri)?;
    texts.open(alloc, path.as_str(), uri, version_in(params), text)?;
    Ok(true)
}

/// The change that an object says.
fn change_of(object: &Value) -> Option<Change<'_>> {
    let text = object.get("text").and_then(Value::as_str)?;
    match object.get("range") {
        Some(range) => Some(Change {
            range: Some(range_of(range)?),
            text,
        }),
        None => Some(Change { range: None, text }),
    }
}

/// Makes changes one after another. What is no change is passed over.
fn make_changes(
    alloc: Global,
    open: &mut OpenText,
    changes: &[Value],
    encoding: Encoding,
) -> Result<(), AllocError> {
    for object in changes {
        if let Some(change) = change_of(object) {
            open.change(alloc, change, encoding)?;
        }
    }
    Ok(())
}

/// Whether a text has a tree.
fn has_tree(alloc: Global, text: &Text) -> Result<bool, AllocError> {
    Ok(read(alloc, text.bytes())?.is_some())
}

/// The tree of a text that changed. Of one that has none the text before is kept, if it had a tree.
fn keep_sound(
    alloc: Global,
    open: &mut OpenText,
    before: Vec<u8>,
) -> Result<Option<Parsed>, AllocError> {
    let parsed = read(alloc, open.text.bytes())?;
    if parsed.is_some() {
        open.sound = None;
    } else if open.sound.is_none() {
        let before = Text::of(alloc, before)?;
        if has_tree(alloc, &before)? {
            open.sound = Some(before);
        }
    }
    Ok(parsed)
}

/// Makes the changes of a text. Whether the message says which, of a text that is open. Its tree is fresh then, if it has one.
pub fn change_text(
    alloc: Global,
    texts: &mut Texts,
    params: &Value,
    encoding: Encoding,
    fresh: &mut Option<Fresh>,
) -> Result<bool, AllocError> {
    let Some(path) = path_in(alloc, params)? else {
        return Ok(false);
    };
    let Some(open) = texts.get_mut(path.as_str()) else {
        return Ok(false);
    };
    let before = Vec::from_slice(alloc, open.text.bytes())?;
    open.version = version_in(params);
    if let Some(changes) = params.get("contentChanges").and_then(Value::as_array) {
        make_changes(alloc, open, changes, encoding)?;
    }
    let parsed = keep_sound(alloc, open, before)?;
    *fresh = parsed.map(|parsed| Fresh { path, parsed });
    Ok(true)
}

/// Closes a text. Whether it was open.
pub fn close_text(alloc: Global, texts: &mut Texts, params: &Value) -> Result<bool, AllocError> {
    match path_in(alloc, params)? {
        Some(path) => Ok(texts.close(path.as_str())),
        None => Ok(false),
    }
}
