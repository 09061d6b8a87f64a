//! The statements of a text, found by its tokens.

use crate::lines::Lines;
use indexmap::IndexMap;
use m2_tree::{Lexeme, Pos, Symbol, Token};
use scan_tokens::{ScanError, scan};
use std::alloc::{AllocError, Global};
use text_tokens::{begins_statement, part, shorten, stands_before_statement, symbol_of};

/// A statement, as it is shown.
#[derive(Drop)]
pub struct Statement {
    /// The place of its first token, and the byte in front of which it stands.
    pub pos: Pos,
    pub offset: usize,
    /// Its words up to the first statement inside of it.
    pub words: Vec<u8>,
}

/// What begins at a mark.
#[derive(Clone, Copy, PartialEq, Eq)]
pub enum MarkKind {
    /// A statement.
    Statement,
    /// What a WHILE or a FOR does behind its statements: it tests its condition again, or counts on.
    Turn,
    /// The condition of a REPEAT, behind its statements.
    Until,
    /// The condition of an ELSIF. No text can be put in front of it.
    Condition,
}

/// A place of a text to which a run can come.
#[derive(Clone, Copy)]
pub struct Mark {
    /// What it begins.
    pub kind: MarkKind,
    /// The place that is told of it. Of a WHILE and a FOR this is where they begin, also in their turns.
    pub pos: Pos,
    /// The byte in front of which it stands.
    pub offset: usize,
}

/// Some that follow each other: the number of the first, and of the one behind the last.
#[derive(Clone, Copy)]
struct Range {
    from: usize,
    to: usize,
}

impl Range {
    /// Those of this range.
    fn of<T>(self, all: &[T]) -> &[T] {
        let front = &all[..self.to.min(all.len())];
        &front[self.from.min(front.len())..]
    }
}

/// The statements and the marks of a procedure.
#[derive(Clone, Copy)]
struct Ranges {
    statements: Range,
    marks: Range,
}

/// The statements of a text in their order.
#[derive(Drop)]
pub struct Statements {
    pub all: Vec<Statement>,
    /// The marks of the text in their order.
    pub marks: Vec<Mark>,
    /// The ranges of each procedure, and of the module, by the place of the name.
    ranges: IndexMap<u64, Ranges>,
}

/// A place as one number.
fn key_of(pos: Pos) -> u64 {
    (u64::from(pos.line) << 32) | u64::from(pos.col)
}

impl Statements {
    /// The statements of the procedure or the module whose name stands at a place.
    pub fn of_name(&self, pos: Pos) -> &[Statement] {
        match self.ranges.get(&key_of(pos)) {
            Some(ranges) => ranges.statements.of(&self.all),
            None => &[],
        }
    }

    /// The marks of the procedure or the module whose name stands at a place.
    pub fn marks_of_name(&self, pos: Pos) -> &[Mark] {
        match self.ranges.get(&key_of(pos)) {
            Some(ranges) => ranges.marks.of(&self.marks),
            None => &[],
        }
    }
}

/// What an END or an UNTIL closes.
#[derive(Clone, Copy)]
enum Open {
    /// A WHILE or a FOR that begins at this place.
    Loop(Pos),
    /// Another statement.
    Other,
}

/// A walk over the tokens of a text.
#[derive(Drop)]
struct Walk<'a> {
    alloc: Global,
    text: &'a [u8],
    lines: Lines<'a>,
    statements: Statements,
    /// The places of the names of the module and of the procedures that are open.
    names: Vec<Pos>,
    /// Whether statements stand here, and the numbers of the first statement and the first mark of the innermost procedure.
    is_body: bool,
    first: usize,
    first_mark: usize,
    /// The place of the statement whose words are open.
    open: Option<Pos>,
    /// The statements that an END or an UNTIL closes.
    around: Vec<Open>,
}

/// Whether a statement begins with this.
fn is_first(lexeme: &Lexeme) -> bool {
    match lexeme {
        Lexeme::Name(_) => true,
        Lexeme::Symbol(symbol) => begins_statement(*symbol),
        Lexeme::Number(_) | Lexeme::Char(_) | Lexeme::Text(_) | Lexeme::End => false,
    }
}

/// Whether the words of a statement end in front of this symbol.
fn ends_before(symbol: Symbol) -> bool {
    matches!(
        symbol,
        Symbol::Semicolon | Symbol::End | Symbol::Else | Symbol::Elsif | Symbol::Until | Symbol::Bar
    )
}

/// How many bytes of this symbol belong to the words of the statement that ends with it, if it ends with it.
fn bytes_at_end(symbol: Symbol) -> Option<usize> {
    match symbol {
        Symbol::Do | Symbol::Of => Some(2),
        Symbol::Then | Symbol::Loop => Some(4),
        Symbol::Repeat => Some(6),
        _ => None,
    }
}

impl Walk<'_> {
    /// The statement that is open ends in front of a byte.
    fn end_statement(&mut self, to: usize) -> Result<(), AllocError> {
        if let Some(pos) = self.open {
            let offset = self.lines.offset(pos);
            let words = shorten(self.alloc, part(self.text, offset, to))?;
            self.statements.all.push(Statement { pos, offset, words })?;
            self.open = None;
        }
        Ok(())
    }

    /// The end of a procedure or of the module.
    fn close(&mut self) -> Result<(), AllocError> {
        self.is_body = false;
        if let Some(pos) = self.names.pop() {
            let statements = Range {
                from: self.first,
                to: self.statements.all.len(),
            };
            let marks = Range {
                from: self.first_mark,
                to: self.statements.marks.len(),
            };
            let ranges = Ranges { statements, marks };
            self.statements.ranges.insert(key_of(pos), ranges)?;
        }
        self.begin();
        Ok(())
    }

    /// The statements of a procedure or of the module begin, or are over.
    fn begin(&mut self) {
        self.first = self.statements.all.len();
        self.first_mark = self.statements.marks.len();
    }

    /// A mark of this kind in front of a byte, which tells of this place.
    fn mark(&mut self, kind: MarkKind, pos: Pos, offset: usize) -> Result<(), AllocError> {
        self.statements.marks.push(Mark { kind, pos, offset })?;
        Ok(())
    }

    /// An END in front of which a byte stands: the turn of a loop, if it closes one.
    fn close_statement(&mut self, offset: usize) -> Result<(), AllocError> {
        match self.around.pop() {
            Some(Open::Loop(pos)) => self.mark(MarkKind::Turn, pos, offset),
            Some(Open::Other) | None => Ok(()),
        }
    }

    /// A symbol among statements: it opens or closes one, or a condition or a turn begins with it.
    fn pass_mark(&mut self, symbol: Symbol, pos: Pos, offset: usize) -> Result<(), AllocError> {
        match symbol {
            Symbol::While | Symbol::For => {
                self.around.push(Open::Loop(pos))?;
                Ok(())
            }
            Symbol::If | Symbol::Case | Symbol::Loop | Symbol::With | Symbol::Repeat => {
                self.around.push(Open::Other)?;
                Ok(())
            }
            Symbol::Elsif => self.mark(MarkKind::Condition, pos, offset),
            Symbol::Until => {
                let _ = self.around.pop();
                self.mark(MarkKind::Until, pos, offset)
            }
            Symbol::End => self.close_statement(offset),
            _ => Ok(()),
        }
    }

    /// A name behind this symbol.
    fn pass_name(&mut self, pos: Pos, before: Option<Symbol>) -> Result<(), AllocError> {
        match before {
            Some(Symbol::Procedure | Symbol::Module) => {
                self.names.push(pos)?;
                Ok(())
            }
            Some(Symbol::End) => self.close(),
            _ => Ok(()),
        }
    }

    /// A symbol at this place.
    fn pass_symbol(&mut self, symbol: Symbol, pos: Pos) -> Result<(), AllocError> {
        if symbol == Symbol::Begin {
            self.is_body = true;
            self.begin();
        }
        let offset = self.lines.offset(pos);
        if self.is_body {
            self.pass_mark(symbol, pos, offset)?;
        }
        match bytes_at_end(symbol) {
            Some(more) => self.end_statement(offset.saturating_add(more)),
            None => {
                if ends_before(symbol) {
                    self.end_statement(offset)
                } else {
                    Ok(())
                }
            }
        }
    }

    /// A token behind this symbol.
    fn pass(&mut self, token: &Token, before: Option<Symbol>) -> Result<(), AllocError> {
        let may_begin = before.is_some_and(stands_before_statement);
        if self.is_body && may_begin && is_first(&token.lexeme) {
            self.open = Some(token.pos);
            let offset = self.lines.offset(token.pos);
            self.mark(MarkKind::Statement, token.pos, offset)?;
        }
        match &token.lexeme {
            Lexeme::Name(_) => self.pass_name(token.pos, before),
            Lexeme::Symbol(symbol) => self.pass_symbol(*symbol, token.pos),
            Lexeme::Number(_) | Lexeme::Char(_) | Lexeme::Text(_) | Lexeme::End => Ok(()),
        }
    }
}

/// The statements of a text with these tokens.
fn statements_in(alloc: Global, text: &[u8], tokens: &[Token]) -> Result<Statements, AllocError> {
    let mut walk = Walk {
        alloc,
        text,
        lines: Lines::of(alloc, text)?,
        statements: Statements {
            all: Vec::new(alloc),
            marks: Vec::new(alloc),
            ranges: IndexMap::new(alloc),
        },
        names: Vec::new(alloc),
        is_body: false,
        first: 0,
        first_mark: 0,
        open: None,
        around: Vec::new(alloc),
    };
    let mut before = None;
    for token in tokens {
        walk.pass(token, before)?;
        before = symbol_of(token);
    }
    let Walk { statements, .. } = walk;
    Ok(statements)
}

/// The statements of a text that is a module, and none of one that has no tokens. The only error is that memory ran out.
pub fn statements_of(alloc: Global, text: &[u8]) -> Result<Statements, AllocError> {
    match scan(alloc, text) {
        Ok(tokens) => statements_in(alloc, text, &tokens),
        Err(ScanError::Refused(_)) => statements_in(alloc, text, &[]),
        Err(ScanError::NoMemory) => Err(AllocError),
    }
}
