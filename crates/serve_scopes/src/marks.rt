//! Where the declarations of a text begin and end, by its tokens. A tree keeps the places of names, and not those of semicolons and
//! closing names.

use crate::places::{Place, Range, narrow, wide};
use m2_tree::{Ident, Lexeme, Pos, Symbol, Token};
use std::alloc::{AllocError, Global};

/// The place of the first byte of a text.
const FRONT: Pos = Pos { line: 1, col: 1 };

/// A bracket, a statement, a record, a procedure or a module, read from its end.
#[derive(Clone, Copy)]
struct Level {
    /// The token that closes it.
    closer: usize,
    /// The token that ends what stands directly in front, in this level.
    end: usize,
}

/// What a token does to the levels.
#[derive(Clone, Copy, PartialEq, Eq)]
enum Turn {
    Opens,
    Closes,
    Separates,
    Stays,
}

/// The places of a text's tokens, and where each ends.
#[derive(Drop)]
pub struct Marks {
    places: Vec<Pos>,
    /// For each token, the last one first: the number of the token that closes what it opens, or else of the semicolon or the closing
    /// token that ends the part in which it stands.
    ends: Vec<u32>,
}

/// What a symbol does to the levels. Behind a PROCEDURE with a name stands a body, unless the module is a definition.
fn turn_of(symbol: Symbol, has_body: bool) -> Turn {
    match symbol {
        Symbol::LeftParen
        | Symbol::LeftBracket
        | Symbol::LeftBrace
        | Symbol::Record
        | Symbol::If
        | Symbol::Case
        | Symbol::While
        | Symbol::Loop
        | Symbol::For
        | Symbol::With
        | Symbol::Module => Turn::Opens,
        Symbol::Procedure => { if has_body { Turn::Opens } else { Turn::Stays } }
        Symbol::RightParen | Symbol::RightBracket | Symbol::RightBrace | Symbol::End => {
            Turn::Closes
        }
        Symbol::Semicolon => Turn::Separates,
        _ => Turn::Stays,
    }
}

/// A walk over the tokens of a text, from the last to the first.
#[derive(Drop)]
struct Walk {
    /// The levels that are open around the innermost one.
    outer: Vec<Level>,
    level: Level,
    ends: Vec<u32>,
}

impl Walk {
    /// Notes the token that ends the next one.
    fn put(&mut self, end: usize) -> Result<(), AllocError> {
        self.ends.push(narrow(end))?;
        Ok(())
    }

    /// Passes the token of this number.
    fn pass(&mut self, number: usize, turn: Turn) -> Result<(), AllocError> {
        match turn {
            Turn::Stays => {
                let end = self.level.end;
                return self.put(end);
            }
            Turn::Separates => self.level.end = number,
            Turn::Closes => {
                self.outer.push(self.level)?;
                self.level = Level {
                    closer: number,
                    end: number,
                };
            }
            Turn::Opens => {
                let closer = self.level.closer;
                self.level = self.outer.pop().unwrap_or(self.level);
                return self.put(closer);
            }
        }
        self.put(number)
    }
}

/// The ends of tokens, the last first.
fn ends_of(alloc: Global, tokens: &[Token], is_definition: bool) -> Result<Vec<u32>, AllocError> {
    let last = Level {
        closer: tokens.len(),
        end: tokens.len(),
    };
    let mut walk = Walk {
        outer: Vec::new(alloc),
        level: last,
        ends: Vec::new(alloc),
    };
    let mut is_named = false;
    for (number, token) in tokens.iter().enumerate().rev() {
        let turn = match &token.lexeme {
            Lexeme::Symbol(symbol) => turn_of(*symbol, is_named && !is_definition),
            _ => Turn::Stays,
        };
        walk.pass(number, turn)?;
        is_named = matches!(&token.lexeme, Lexeme::Name(_));
    }
    let Walk { ends, .. } = walk;
    Ok(ends)
}

impl Marks {
    /// No marks.
    pub fn none(alloc: Global) -> Marks {
        Marks {
            places: Vec::new(alloc),
            ends: Vec::new(alloc),
        }
    }

    /// The marks of a text. The only error is that memory ran out.
    pub fn of(alloc: Global, tokens: &[Token], is_definition: bool) -> Result<Marks, AllocError> {
        let mut places = Vec::new(alloc);
        for token in tokens {
            places.push(token.pos)?;
        }
        let ends = ends_of(alloc, tokens, is_definition)?;
        Ok(Marks { places, ends })
    }

    /// The number of the token at a place, or of the first one behind it.
    fn number_of(&self, pos: Pos) -> usize {
        match self.places.binary_search(&pos) {
            Ok(number) => number,
            Err(number) => number,
        }
    }

    /// The place of the token of this number, or of the last one.
    fn place(&self, number: usize) -> Pos {
        match self.places.get(number) {
            Some(pos) => *pos,
            None => self.places.last().map_or(FRONT, |last| *last),
        }
    }

    /// The number of the token that ends the token of this number.
    fn end_of(&self, number: usize) -> usize {
        let last = self.ends.len().saturating_sub(1);
        match self.ends.get(last.saturating_sub(number)) {
            Some(end) => wide(*end),
            None => last,
        }
    }

    /// From a place on to the end of the part in which it stands.
    pub fn part_from(&self, pos: Pos) -> Range {
        Range {
            begin: pos,
            end: self.place(self.end_of(self.number_of(pos))),
        }
    }

    /// What stands behind a name, up to the end of the part in which it stands.
    pub fn tail_of(&self, name: &Ident) -> Range {
        let number = self.number_of(name.pos);
        Range {
            begin: self.place(number.saturating_add(1)),
            end: self.place(self.end_of(number)),
        }
    }

    /// The heading of a procedure that has no body, with its PROCEDURE.
    pub fn heading_of(&self, name: &Ident) -> Range {
        let number = self.number_of(name.pos);
        Range {
            begin: self.place(number.saturating_sub(1)),
            end: self.place(self.end_of(number)),
        }
    }

    /// The closing name of a procedure with a body, or of a module.
    pub fn closing_of(&self, file: usize, name: &Ident) -> Place {
        let opener = self.number_of(name.pos).saturating_sub(1);
        let end = self.end_of(opener);
        Place {
            pos: self.place(end.saturating_add(1)),
            ..Place::of(file, name)
        }
    }

    /// A procedure with a body, from its PROCEDURE to its closing name.
    pub fn body_of(&self, name: &Ident) -> Range {
        let opener = self.number_of(name.pos).saturating_sub(1);
        Range {
            begin: self.place(opener),
            end: self.closing_of(0, name).end(),
        }
    }

    /// A module, from its first token to its closing name.
    pub fn module_of(&self, name: &Ident) -> Range {
        Range {
            begin: self.place(0),
            end: self.closing_of(0, name).end(),
        }
    }

    /// The whole text.
    pub fn whole(&self) -> Range {
        Range {
            begin: FRONT,
            end: self.place(self.places.len()),
        }
    }

    /// The statements of a WITH whose record begins with this name: from there to the END.
    pub fn with_of(&self, name: &Ident) -> Range {
        let opener = self.number_of(name.pos).saturating_sub(1);
        Range {
            begin: self.place(opener.saturating_add(2)),
            end: self.place(self.end_of(opener)),
        }
    }
}
