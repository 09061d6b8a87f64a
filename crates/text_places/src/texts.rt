//! The files of a program, with their tokens.

use build_jobs::SourceFile;
use m2_tree::{Symbol, Token};
use refused_text::tokens_of;
use std::alloc::{AllocError, Global};
use text_tokens::{is_named, symbol_at};

/// The files of a program, and the tokens of each.
#[derive(Drop)]
pub struct Texts<'a> {
    pub files: &'a [SourceFile],
    tokens: Vec<Vec<Token>>,
}

/// A text with its tokens.
#[derive(Clone, Copy)]
pub struct Text<'a> {
    pub bytes: &'a [u8],
    pub tokens: &'a [Token],
}

/// The number of the token that is the name of a module, if the text of these tokens is a definition.
fn definition_name(tokens: &[Token]) -> Option<usize> {
    let is_definition = symbol_at(tokens, 0) == Some(Symbol::Definition);
    if is_definition { Some(2) } else { None }
}

/// Whether these are the tokens of the definition of the module of this name.
fn defines(tokens: &[Token], module: &[u8]) -> bool {
    match definition_name(tokens) {
        Some(number) => is_named(tokens, number, module),
        None => false,
    }
}

impl<'a> Texts<'a> {
    /// The files with their tokens. An error if memory ran out.
    pub fn of(alloc: Global, files: &'a [SourceFile]) -> Result<Texts<'a>, AllocError> {
        let mut tokens = Vec::new(alloc);
        for file in files {
            tokens.push(tokens_of(alloc, &file.bytes)?)?;
        }
        Ok(Texts { files, tokens })
    }

    /// The text of this number.
    pub fn text(&self, number: usize) -> Option<Text<'_>> {
        Some(Text {
            bytes: self.files.get(number)?.bytes.as_slice(),
            tokens: self.tokens.get(number)?.as_slice(),
        })
    }

    /// The text of the file of this name.
    pub fn text_of(&self, name: &str) -> Option<Text<'_>> {
        self.text(self.files.iter().position(|it| it.name.as_str() == name)?)
    }

    /// The definition of the module of this name.
    pub fn definition(&self, module: &[u8]) -> Option<Text<'_>> {
        self.text(self.tokens.iter().position(|it| defines(it, module))?)
    }
}
