//! The headings of procedures, by their tokens.

use m2_tree::{Lexeme, Symbol, Token};
use std::alloc::{AllocError, Global};
use text_tokens::{excerpt, is_named, name_at, symbol_at, symbol_of};

/// A heading: the text that it stands in, the tokens of this, and the number of the procedure's name among them.
#[derive(Clone, Copy)]
pub struct Heading<'a> {
    pub text: &'a [u8],
    pub tokens: &'a [Token],
    pub name: usize,
}

/// A formal, by the numbers of tokens: its name, and the colon before its type.
#[derive(Clone, Copy)]
struct Formal {
    name: usize,
    colon: usize,
    is_var: bool,
}

/// What was seen of the formals of a heading.
#[derive(Clone, Copy)]
struct Seen {
    /// How many formals stand before the one that is looked for.
    left: usize,
    name: Option<usize>,
    is_var: bool,
    is_type: bool,
}

impl Seen {
    /// What was seen behind the token of this number.
    fn behind(self, token: &Token, number: usize) -> Seen {
        let mut seen = self;
        match &token.lexeme {
            Lexeme::Name(_) => {
                if !seen.is_type {
                    if seen.left == 0 && seen.name.is_none() {
                        seen.name = Some(number);
                    }
                    seen.left = seen.left.saturating_sub(1);
                }
            }
            Lexeme::Symbol(Symbol::Var) => seen.is_var = true,
            Lexeme::Symbol(Symbol::Colon) => seen.is_type = true,
            Lexeme::Symbol(Symbol::Semicolon) => {
                seen.is_var = false;
                seen.is_type = false;
            }
            _ => {}
        }
        seen
    }

    /// The formal that was looked for, if the token of this number is the colon behind its name.
    fn formal(self, number: usize) -> Option<Formal> {
        let name = self.name?;
        if !self.is_type {
            return None;
        }
        Some(Formal {
            name,
            colon: number,
            is_var: self.is_var,
        })
    }
}

/// The formal of this number, from 0, behind the bracket of a heading.
fn formal_behind(tokens: &[Token], open: usize, wanted: usize) -> Option<Formal> {
    let mut seen = Seen {
        left: wanted,
        name: None,
        is_var: false,
        is_type: false,
    };
    for (number, token) in tokens.iter().enumerate() {
        if number > open {
            if symbol_of(token) == Some(Symbol::RightParen) {
                return None;
            }
            seen = seen.behind(token, number);
            if let Some(formal) = seen.formal(number) {
                return Some(formal);
            }
        }
    }
    None
}

/// Whether a formal's type or a heading's formals end in front of this.
fn ends_formal(token: &Token) -> bool {
    match symbol_of(token) {
        Some(symbol) => matches!(symbol, Symbol::Semicolon | Symbol::RightParen),
        None => token.lexeme == Lexeme::End,
    }
}

/// The number of the first token from one number on that ends a formal.
fn end_of_formal(tokens: &[Token], from: usize) -> usize {
    for (number, token) in tokens.iter().enumerate() {
        if number >= from && ends_formal(token) {
            return number;
        }
    }
    tokens.len()
}

/// The number of the first closing bracket from one number on.
fn closing(tokens: &[Token], from: usize) -> usize {
    for (number, token) in tokens.iter().enumerate() {
        if number >= from && symbol_of(token) == Some(Symbol::RightParen) {
            return number;
        }
    }
    tokens.len()
}

impl Heading<'_> {
    /// The bracket in front of the formals, if there are any.
    fn open(&self) -> Option<usize> {
        let open = self.name.saturating_add(1);
        if symbol_at(self.tokens, open) != Some(Symbol::LeftParen) {
            return None;
        }
        if symbol_at(self.tokens, open.saturating_add(1)) == Some(Symbol::RightParen) {
            return None;
        }
        Some(open)
    }

    /// The words of the formal of this number, from 0: its name and its type.
    pub fn formal_words(&self, alloc: Global, wanted: usize) -> Result<Option<String>, AllocError> {
        let Some(open) = self.open() else {
            return Ok(None);
        };
        let Some(formal) = formal_behind(self.tokens, open, wanted) else {
            return Ok(None);
        };
        let name = name_at(self.tokens, formal.name).unwrap_or(b"");
        let begin = formal.colon.saturating_add(1);
        let end = end_of_formal(self.tokens, begin);
        let mut words = String::new(alloc);
        words.push_str(if formal.is_var { "VAR " } else { "" })?;
        words.push_str(String::from_utf8_lossy(alloc, name)?.as_str())?;
        words.push_str(": ")?;
        words.push_str(excerpt(alloc, self.text, self.tokens, begin, end)?.as_str())?;
        Ok(Some(words))
    }

    /// The number of the token behind the name and the formals.
    fn formals_end(&self) -> usize {
        let open = self.name.saturating_add(1);
        if symbol_at(self.tokens, open) == Some(Symbol::LeftParen) {
            closing(self.tokens, open).saturating_add(1)
        } else {
            open
        }
    }

    /// The words of the type of the result, or none if there is no result.
    pub fn result_words(&self, alloc: Global) -> Result<Option<String>, AllocError> {
        let colon = self.formals_end();
        if symbol_at(self.tokens, colon) != Some(Symbol::Colon) {
            return Ok(None);
        }
        let begin = colon.saturating_add(1);
        let end = end_of_formal(self.tokens, begin);
        Ok(Some(excerpt(alloc, self.text, self.tokens, begin, end)?))
    }

    /// The words of all formals, or none if there are none.
    pub fn all_words(&self, alloc: Global) -> Result<Option<String>, AllocError> {
        let Some(open) = self.open() else {
            return Ok(None);
        };
        let begin = open.saturating_add(1);
        let end = closing(self.tokens, begin);
        Ok(Some(excerpt(alloc, self.text, self.tokens, begin, end)?))
    }
}

/// The name of the innermost procedure around the token of this number, by the number of its token.
pub fn procedure_around(
    alloc: Global,
    tokens: &[Token],
    at: usize,
) -> Result<Option<usize>, AllocError> {
    let mut open = Vec::new(alloc);
    let mut before = None;
    for (number, token) in tokens.iter().enumerate() {
        if number < at && name_at(tokens, number).is_some() {
            if before == Some(Symbol::Procedure) {
                open.push(number)?;
            } else if before == Some(Symbol::End) {
                let _ = open.pop();
            }
        }
        before = symbol_of(token);
    }
    Ok(open.pop())
}

/// The name of a procedure of a definition, by the number of its token.
pub fn procedure_in(tokens: &[Token], name: &[u8]) -> Option<usize> {
    let mut is_heading = false;
    for (number, token) in tokens.iter().enumerate() {
        if is_heading && is_named(tokens, number, name) {
            return Some(number);
        }
        is_heading = symbol_of(token) == Some(Symbol::Procedure);
    }
    None
}
