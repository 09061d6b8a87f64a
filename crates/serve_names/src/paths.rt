//! Designators in a text that need not have a tree, by their tokens.

use crate::index::Index;
use crate::offers::{Offer, Offers};
use m2_tree::{Lexeme, Pos, Symbol, Token};
use serve_scopes::{PUT, Spot, Standing};
use std::alloc::{AllocError, Global};
use text_tokens::{DESIGNATOR, bracket_around, closes, opens, operand_begin, symbol_at};

/// A call in whose brackets a place lies.
#[derive(Clone, Copy, Debug, PartialEq, Eq)]
pub struct Signature {
    /// The declaration of what is called: a procedure, or what holds one.
    pub procedure: usize,
    /// The number of the argument, from 0.
    pub argument: usize,
}

/// What the tokens of a designator stand for up to a place.
#[derive(Clone, Copy)]
struct Path {
    standing: Option<Standing>,
    spot: Spot,
    /// How many brackets are open.
    depth: usize,
    /// Whether no token is passed yet.
    is_first: bool,
}

/// A designator that has not begun.
const FRONT: Path = Path {
    standing: None,
    spot: Spot::Nothing,
    depth: 0,
    is_first: true,
};

/// Where a text is asked about.
#[derive(Clone, Copy)]
struct Here {
    file: usize,
    pos: Pos,
}

impl Index {
    /// The path behind a name.
    fn path_behind_name(&self, here: Here, path: Path, name: &[u8]) -> Path {
        if path.depth > 0 {
            return path;
        }
        let standing = if path.is_first {
            self.standing_at(here.file, here.pos, name)
        } else {
            self.program.picked(path.spot, name)
        };
        Path {
            standing,
            spot: self.program.spot_of(standing, name),
            ..path
        }
    }

    /// The path behind a symbol.
    fn path_behind_symbol(&self, path: Path, symbol: Symbol) -> Path {
        if opens(symbol) {
            let is_subscript = symbol == Symbol::LeftBracket && path.depth == 0;
            return Path {
                spot: if is_subscript {
                    self.program.element_of(path.spot)
                } else {
                    path.spot
                },
                depth: path.depth.saturating_add(1),
                ..path
            };
        }
        if closes(symbol) {
            return Path {
                depth: path.depth.saturating_sub(1),
                ..path
            };
        }
        if symbol == Symbol::Comma && path.depth == 1 {
            return Path {
                spot: self.program.element_of(path.spot),
                ..path
            };
        }
        path
    }

    /// The path behind a token.
    fn path_behind(&self, here: Here, path: Path, token: &Token) -> Path {
        let behind = match &token.lexeme {
            Lexeme::Name(name) => self.path_behind_name(here, path, name.as_bytes()),
            Lexeme::Symbol(symbol) => self.path_behind_symbol(path, *symbol),
            _ => path,
        };
        Path {
            is_first: false,
            ..behind
        }
    }

    /// What the designator stands for that ends in front of the token of this number.
    fn path_to(
        &self,
        alloc: Global,
        here: Here,
        tokens: &[Token],
        to: usize,
    ) -> Result<Path, AllocError> {
        let from = operand_begin(alloc, tokens, to, DESIGNATOR)?;
        let is_heading = symbol_at(tokens, from.saturating_sub(1)) == Some(Symbol::Procedure);
        let mut path = FRONT;
        if is_heading {
            return Ok(path);
        }
        for (number, token) in tokens.iter().enumerate() {
            if from <= number && number < to {
                path = self.path_behind(here, path, token);
            }
        }
        Ok(path)
    }

    /// What may be written behind the point that is the token of this number: the fields of the record in front, or what the module in
    /// front exports. The tokens are those of the text as it is now, which need not have a tree, and the place is one of the text that
    /// the index knows, where the names are looked up. The only error is that memory ran out.
    pub fn members_of(
        &self,
        alloc: Global,
        file: usize,
        pos: Pos,
        tokens: &[Token],
        point: usize,
    ) -> Result<Vec<Offer>, AllocError> {
        let mut offers = Offers::new(alloc);
        let path = self.path_to(alloc, Here { file, pos }, tokens, point)?;
        if path.spot == Spot::Console {
            offers.add(PUT, None)?;
        }
        if let Some(scope) = self.program.parts_of(path.spot) {
            self.add_scope(&mut offers, scope)?;
        }
        Ok(offers.into_all())
    }

    /// The call in whose brackets the token of this number begins, of a procedure that is declared in the program. The tokens are those
    /// of the text as it is now, and the place is one of the text that the index knows. The only error is that memory ran out.
    pub fn signature(
        &self,
        alloc: Global,
        file: usize,
        pos: Pos,
        tokens: &[Token],
        token: usize,
    ) -> Result<Option<Signature>, AllocError> {
        let Some(bracket) = bracket_around(alloc, tokens, token)? else {
            return Ok(None);
        };
        if symbol_at(tokens, bracket.token) != Some(Symbol::LeftParen) {
            return Ok(None);
        }
        let path = self.path_to(alloc, Here { file, pos }, tokens, bracket.token)?;
        match path.standing {
            Some(Standing::Declared(procedure)) => Ok(Some(Signature {
                procedure,
                argument: bracket.commas,
            })),
            Some(Standing::BuiltIn) | None => Ok(None),
        }
    }
}
