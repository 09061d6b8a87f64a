//! The types that a program declares and that can be named at a place of one of its texts.

use crate::imports::{Imported, Imports, ends_imports};
use crate::scopes::{Declared, Kind};
use crate::texts::{Text, Texts};
use m2_tree::{Symbol, Token};
use std::alloc::{AllocError, Global};
use text_tokens::{is_named, name_at, symbol_at, symbol_of};

/// The most names of a text's imports that are looked up in definitions.
const MOST_IMPORTS: usize = 64;

/// The names of types, and how many of them are wanted at most.
#[derive(Drop)]
struct Names {
    alloc: Global,
    names: Vec<String>,
    most: usize,
    /// How many names of imports may still be looked up.
    imports: usize,
}

/// Whether a name in a definition is one of a type that is declared there.
#[derive(Clone, Copy)]
struct InTypes {
    is_types: bool,
    records: usize,
}

impl InTypes {
    /// What holds behind a token.
    fn behind(self, token: &Token) -> InTypes {
        let mut inside = self;
        match symbol_of(token) {
            Some(Symbol::Type) => inside.is_types = true,
            Some(Symbol::Const) => inside.is_types = false,
            Some(Symbol::Record) => inside.records = self.records.saturating_add(1),
            Some(Symbol::End) => inside.records = self.records.saturating_sub(1),
            _ => {}
        }
        inside
    }

    /// Whether the token of this number is the name of a type.
    fn is_type(self, tokens: &[Token], number: usize) -> bool {
        self.is_types
            && self.records == 0
            && name_at(tokens, number).is_some()
            && symbol_at(tokens, number.saturating_add(1)) == Some(Symbol::Equal)
    }
}

/// Whether a definition declares a type of this name.
fn has_type(tokens: &[Token], name: &[u8]) -> bool {
    let mut inside = InTypes {
        is_types: false,
        records: 0,
    };
    for (number, token) in tokens.iter().enumerate() {
        inside = inside.behind(token);
        if inside.is_type(tokens, number) && is_named(tokens, number, name) {
            return true;
        }
    }
    false
}

impl Names {
    fn is_full(&self) -> bool {
        self.names.len() >= self.most
    }

    /// Adds a name, with a module's name and a dot in front if there is one.
    fn push(&mut self, module: Option<&[u8]>, name: &[u8]) -> Result<(), AllocError> {
        let mut words = String::new(self.alloc);
        if let Some(module) = module {
            words.push_str(String::from_utf8_lossy(self.alloc, module)?.as_str())?;
            words.push('.')?;
        }
        words.push_str(String::from_utf8_lossy(self.alloc, name)?.as_str())?;
        self.names.push(words)?;
        Ok(())
    }

    /// Adds the types among the names that are declared around a place.
    fn push_declared(&mut self, tokens: &[Token], all: &[Declared]) -> Result<(), AllocError> {
        for declared in all {
            if declared.kind == Kind::Type && !self.is_full() {
                self.push(None, name_at(tokens, declared.token).unwrap_or(b""))?;
            }
        }
        Ok(())
    }

    /// Adds the types of a definition.
    fn push_defined(&mut self, module: Option<&[u8]>, tokens: &[Token]) -> Result<(), AllocError> {
        let mut inside = InTypes {
            is_types: false,
            records: 0,
        };
        for (number, token) in tokens.iter().enumerate() {
            if self.is_full() {
                return Ok(());
            }
            inside = inside.behind(token);
            if inside.is_type(tokens, number) {
                self.push(module, name_at(tokens, number).unwrap_or(b""))?;
            }
        }
        Ok(())
    }

    /// Adds the types of an imported module.
    fn push_module(&mut self, texts: &Texts<'_>, module: &[u8]) -> Result<(), AllocError> {
        match texts.definition(module) {
            Some(text) => self.push_defined(Some(module), text.tokens),
            None => Ok(()),
        }
    }

    /// Adds a name that a module exports, if it is the name of a type.
    fn push_exported(
        &mut self,
        texts: &Texts<'_>,
        module: &[u8],
        name: &[u8],
    ) -> Result<(), AllocError> {
        match texts.definition(module) {
            Some(text) => {
                if has_type(text.tokens, name) {
                    self.push(None, name)?;
                }
                Ok(())
            }
            None => Ok(()),
        }
    }

    /// Adds the types that a name of an import stands for.
    fn push_import(
        &mut self,
        texts: &Texts<'_>,
        tokens: &[Token],
        number: usize,
        imported: Imported,
    ) -> Result<(), AllocError> {
        let Some(name) = name_at(tokens, number) else {
            return Ok(());
        };
        if self.is_full() || self.imports == 0 {
            return Ok(());
        }
        self.imports = self.imports.saturating_sub(1);
        match imported {
            Imported::Module => self.push_module(texts, name),
            Imported::From(module) => {
                self.push_exported(texts, name_at(tokens, module).unwrap_or(b""), name)
            }
        }
    }

    /// Adds the types that a text imports.
    fn push_imports(&mut self, texts: &Texts<'_>, tokens: &[Token]) -> Result<(), AllocError> {
        let mut imports = Imports::begin();
        let mut before = None;
        for (number, token) in tokens.iter().enumerate() {
            if ends_imports(token) {
                return Ok(());
            }
            imports = imports.behind(token, number, before);
            if let Some(imported) = imports.meaning() {
                self.push_import(texts, tokens, number, imported)?;
            }
            before = symbol_of(token);
        }
        Ok(())
    }

    /// Adds the types of the definition of an implementation.
    fn push_own(&mut self, texts: &Texts<'_>, tokens: &[Token]) -> Result<(), AllocError> {
        if symbol_at(tokens, 0) != Some(Symbol::Implementation) {
            return Ok(());
        }
        match texts.definition(name_at(tokens, 2).unwrap_or(b"")) {
            Some(text) => self.push_defined(None, text.tokens),
            None => Ok(()),
        }
    }
}

/// The names of at most this many types that the program declares, as they are written in this text.
pub fn type_names(
    alloc: Global,
    texts: &Texts<'_>,
    text: Text<'_>,
    declared: &[Declared],
    most: usize,
) -> Result<Vec<String>, AllocError> {
    let mut names = Names {
        alloc,
        names: Vec::new(alloc),
        most,
        imports: MOST_IMPORTS,
    };
    names.push_declared(text.tokens, declared)?;
    names.push_own(texts, text.tokens)?;
    names.push_imports(texts, text.tokens)?;
    let Names { names, .. } = names;
    Ok(names)
}
