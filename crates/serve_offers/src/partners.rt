//! The implementation that a definition wants, if its file is not there.

use m2_tree::{Symbol, Token};
use refused_text::tokens_of;
use serve_hovers::put_position;
use serve_texts::{Position, Text};
use std::alloc::{AllocError, Global};
use text_tokens::{name_at, part, symbol_at};
use write_json::Json;

/// The number of the token that is the name of a definition module.
const NAME: usize = 2;

/// The only place of an empty text.
const FRONT: Position = Position {
    line: 0,
    character: 0,
};

/// The text of an implementation in the making.
#[derive(Drop)]
struct Draft<'d, 't> {
    definition: &'d Text,
    tokens: &'t [Token],
    made: Vec<u8>,
}

/// The number of the token behind the heading or the import that begins with the token of this number: a semicolon outside of
/// brackets, or the last token.
fn end_of(tokens: &[Token], begin: usize) -> usize {
    let mut depth: usize = 0;
    for number in begin..tokens.len() {
        match symbol_at(tokens, number) {
            Some(Symbol::LeftParen) => depth = depth.saturating_add(1),
            Some(Symbol::RightParen) => depth = depth.saturating_sub(1),
            Some(Symbol::Semicolon) if depth == 0 => return number,
            _ => {}
        }
    }
    tokens.len().saturating_sub(1)
}

impl Draft<'_, '_> {
    /// The byte at which the token of this number begins.
    fn offset_of(&self, number: usize) -> usize {
        match self.tokens.get(number) {
            Some(token) => self.definition.offset_of_pos(token.pos),
            None => self.definition.bytes().len(),
        }
    }

    /// Adds what stands from the token of this number to the semicolon behind it, as it is written, with the semicolon.
    fn put_copy(&mut self, begin: usize) -> Result<(), AllocError> {
        let from = self.offset_of(begin);
        let to = self.offset_of(end_of(self.tokens, begin));
        self.made
            .extend_from_slice(part(self.definition.bytes(), from, to))?;
        self.made.extend_from_slice(b";\n")
    }

    /// Adds the procedure whose heading begins with the token of this number, with an empty body.
    fn put_procedure(&mut self, begin: usize, name: &[u8]) -> Result<(), AllocError> {
        self.made.push(b'\n')?;
        self.put_copy(begin)?;
        self.made.extend_from_slice(b"BEGIN\nEND ")?;
        self.made.extend_from_slice(name)?;
        self.made.extend_from_slice(b";\n")
    }

    /// Adds all imports of the definition, and all procedures.
    fn put_all(&mut self) -> Result<(), AllocError> {
        let tokens = self.tokens;
        let mut is_in_from = false;
        for number in 0..tokens.len() {
            match symbol_at(tokens, number) {
                Some(Symbol::From) => {
                    is_in_from = true;
                    self.put_copy(number)?;
                }
                Some(Symbol::Import) if !is_in_from => self.put_copy(number)?,
                Some(Symbol::Import) => is_in_from = false,
                Some(Symbol::Procedure) => {
                    if let Some(name) = name_at(tokens, number.saturating_add(1)) {
                        self.put_procedure(number, name)?;
                    }
                }
                _ => {}
            }
        }
        Ok(())
    }
}

/// The text of an implementation of a definition: its imports, and each procedure with an empty body. Nothing if the definition has no
/// name. The only error is want of memory.
pub fn implementation_text(
    alloc: Global,
    definition: &Text,
) -> Result<Option<Vec<u8>>, AllocError> {
    let tokens = tokens_of(alloc, definition.bytes())?;
    let Some(name) = name_at(&tokens, NAME) else {
        return Ok(None);
    };
    let mut draft = Draft {
        definition,
        tokens: &tokens,
        made: Vec::new(alloc),
    };
    draft.made.extend_from_slice(b"IMPLEMENTATION MODULE ")?;
    draft.made.extend_from_slice(name)?;
    draft.made.extend_from_slice(b";\n")?;
    draft.put_all()?;
    draft.made.extend_from_slice(b"\nEND ")?;
    draft.made.extend_from_slice(name)?;
    draft.made.extend_from_slice(b".\n")?;
    let Draft { made, .. } = draft;
    Ok(Some(made))
}

/// Writes the step that makes an empty file of this name.
fn put_made(uri: &str, json: &mut Json) {
    json.begin_object();
    json.words_member("kind", "create");
    json.words_member("uri", uri);
    json.end_object();
}

/// Writes the edit of an empty text that makes it this text.
fn put_whole(text: &[u8], json: &mut Json) {
    json.begin_object();
    json.bytes_member("newText", text);
    json.name("range");
    json.begin_object();
    json.name("end");
    put_position(FRONT, json);
    json.name("start");
    put_position(FRONT, json);
    json.end_object();
    json.end_object();
}

/// Writes the step that puts this text into the empty file of this name, which the editor has no version of.
fn put_filled(uri: &str, text: &[u8], json: &mut Json) {
    json.begin_object();
    json.name("edits");
    json.begin_list();
    put_whole(text, json);
    json.end_list();
    json.name("textDocument");
    json.begin_object();
    json.words_member("uri", uri);
    json.name("version");
    json.null();
    json.end_object();
    json.end_object();
}

/// Writes the change that makes a file with this text. The file has this name for the editor.
pub fn put_new_file(uri: &str, text: &[u8], json: &mut Json) {
    json.begin_object();
    json.name("documentChanges");
    json.begin_list();
    put_made(uri, json);
    put_filled(uri, text, json);
    json.end_list();
    json.end_object();
}
