//! What a text imports, by its tokens.

use m2_tree::{Lexeme, Symbol, Token};
use text_tokens::{is_named, name_at, symbol_of};

/// What the names are behind a word of an import.
#[derive(Clone, Copy, PartialEq, Eq)]
pub enum Imported {
    /// Of a whole module.
    Module,
    /// Of what the module of this number of a token exports.
    From(usize),
}

/// The import that a walk over tokens is in.
#[derive(Clone, Copy)]
pub struct Imports {
    /// The module behind the last FROM.
    from: Option<usize>,
    is_list: bool,
}

impl Imports {
    /// Before the first token.
    pub fn begin() -> Imports {
        Imports {
            from: None,
            is_list: false,
        }
    }

    /// Behind the token of this number, which stands behind this symbol.
    pub fn behind(self, token: &Token, number: usize, before: Option<Symbol>) -> Imports {
        match symbol_of(token) {
            Some(Symbol::Import) => Imports {
                from: self.from,
                is_list: true,
            },
            Some(Symbol::Semicolon) => Imports::begin(),
            Some(_) => self,
            None => {
                if before == Some(Symbol::From) {
                    Imports {
                        from: Some(number),
                        is_list: false,
                    }
                } else {
                    self
                }
            }
        }
    }

    /// What a name is that stands here.
    pub fn meaning(self) -> Option<Imported> {
        if !self.is_list {
            return None;
        }
        match self.from {
            Some(module) => Some(Imported::From(module)),
            None => Some(Imported::Module),
        }
    }
}

/// Whether the imports of a text end with this token.
pub fn ends_imports(token: &Token) -> bool {
    match symbol_of(token) {
        Some(symbol) => matches!(
            symbol,
            Symbol::Const | Symbol::Type | Symbol::Var | Symbol::Procedure | Symbol::Begin
        ),
        None => token.lexeme == Lexeme::End,
    }
}

/// The name of the module from which a name is imported alone.
pub fn module_of<'a>(tokens: &'a [Token], name: &[u8]) -> Option<&'a [u8]> {
    let mut imports = Imports::begin();
    let mut before = None;
    for (number, token) in tokens.iter().enumerate() {
        if ends_imports(token) {
            return None;
        }
        imports = imports.behind(token, number, before);
        if let Some(Imported::From(module)) = imports.meaning() {
            if is_named(tokens, number, name) {
                return name_at(tokens, module);
            }
        }
        before = symbol_of(token);
    }
    None
}
