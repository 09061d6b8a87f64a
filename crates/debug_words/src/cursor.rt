//! The tokens of a line.

use crate::command::{Path, Relation, Selector, Value};
use m2_tree::{Lexeme, Symbol, Token};
use std::alloc::{AllocError, Global};

/// A place among the tokens of a line.
#[derive(Clone, Copy)]
pub struct Cursor<'a> {
    tokens: &'a [Token],
}

impl<'a> Cursor<'a> {
    /// In front of these tokens.
    pub fn new(tokens: &'a [Token]) -> Cursor<'a> {
        Cursor { tokens }
    }

    /// Passes a token.
    fn pass(&mut self) {
        if let Some((_, rest)) = self.tokens.split_first() {
            self.tokens = rest;
        }
    }

    /// The next symbol.
    fn symbol(&self) -> Option<Symbol> {
        match self.tokens.first() {
            Some(
                Token {
                    lexeme: Lexeme::Symbol(symbol),
                    ..
                },
            ) => Some(*symbol),
            _ => None,
        }
    }

    /// Passes this symbol, if it is the next one.
    pub fn takes(&mut self, symbol: Symbol) -> bool {
        let is_next = self.symbol() == Some(symbol);
        if is_next {
            self.pass();
        }
        is_next
    }

    /// Whether nothing follows.
    pub fn is_at_end(&self) -> bool {
        match self.tokens.first() {
            None => true,
            Some(token) => token.lexeme == Lexeme::End,
        }
    }

    /// The next name.
    pub fn name(&mut self) -> Option<&'a [u8]> {
        match self.tokens.first() {
            Some(
                Token {
                    lexeme: Lexeme::Name(name),
                    ..
                },
            ) => {
                self.pass();
                Some(name.as_bytes())
            }
            _ => None,
        }
    }

    /// The next number.
    pub fn number(&mut self) -> Option<u32> {
        match self.tokens.first() {
            Some(
                Token {
                    lexeme: Lexeme::Number(number),
                    ..
                },
            ) => {
                self.pass();
                Some(*number)
            }
            _ => None,
        }
    }

    /// The code of the next character.
    fn character(&mut self) -> Option<u8> {
        let code = match &self.tokens.first()?.lexeme {
            Lexeme::Char(code) => *code,
            Lexeme::Text(text) => match text.as_bytes() {
                [code] => *code,
                _ => return None,
            },
            _ => return None,
        };
        self.pass();
        Some(code)
    }

    /// The next value.
    pub fn value(&mut self, alloc: Global) -> Result<Option<Value>, AllocError> {
        if let Some(name) = self.name() {
            return Ok(Some(Value::Named(Vec::from_slice(alloc, name)?)));
        }
        if let Some(code) = self.character() {
            return Ok(Some(Value::Number(i64::from(code))));
        }
        let is_negative = self.takes(Symbol::Minus);
        Ok(
            self.number().map(|number| {
                let number = i64::from(number);
                Value::Number(if is_negative {
                    number.saturating_neg()
                } else {
                    number
                })
            }),
        )
    }

    /// The next relation.
    pub fn relation(&mut self) -> Option<Relation> {
        let relation = match self.symbol()? {
            Symbol::Equal => Relation::Equal,
            Symbol::Unequal => Relation::Unequal,
            Symbol::Less => Relation::Less,
            Symbol::AtMost => Relation::AtMost,
            Symbol::Greater => Relation::Greater,
            Symbol::AtLeast => Relation::AtLeast,
            _ => return None,
        };
        self.pass();
        Some(relation)
    }

    /// Adds the next field. False if no name follows.
    fn add_field(&mut self, alloc: Global, path: &mut Path) -> Result<bool, AllocError> {
        let Some(name) = self.name() else {
            return Ok(false);
        };
        let name = Vec::from_slice(alloc, name)?;
        path.selectors.push(Selector::Field(name))?;
        Ok(true)
    }

    /// Adds the next indexes, up to their bracket. False if they are none.
    fn add_indexes(&mut self, alloc: Global, path: &mut Path) -> Result<bool, AllocError> {
        for _ in self.tokens {
            let Some(value) = self.value(alloc)? else {
                return Ok(false);
            };
            path.selectors.push(Selector::Index(value))?;
            if self.takes(Symbol::RightBracket) {
                return Ok(true);
            }
            if !self.takes(Symbol::Comma) {
                return Ok(false);
            }
        }
        Ok(false)
    }

    /// The next variable with its selectors. Nothing if there is none.
    pub fn path(&mut self, alloc: Global) -> Result<Option<Path>, AllocError> {
        let Some(name) = self.name() else {
            return Ok(None);
        };
        let mut path = Path {
            name: Vec::from_slice(alloc, name)?,
            selectors: Vec::new(alloc),
        };
        for _ in self.tokens {
            let is_right = if self.takes(Symbol::Dot) {
                self.add_field(alloc, &mut path)?
            } else if self.takes(Symbol::LeftBracket) {
                self.add_indexes(alloc, &mut path)?
            } else {
                break;
            };
            if !is_right {
                return Ok(None);
            }
        }
        Ok(Some(path))
    }
}
