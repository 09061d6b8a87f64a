//! What is open at a place of a text, and how far a line is indented there.

use m2_tree::Symbol;
use std::alloc::{AllocError, Global};
use text_tokens::{closes, opens};

/// A construct that is open.
#[derive(Clone, Copy, PartialEq, Eq)]
enum Construct {
    /// A module or a procedure, from its heading on.
    Block,
    /// Declarations behind CONST, TYPE or VAR.
    Section,
    /// The statements of a block.
    Body,
    /// Statements in a statement.
    Statements,
    /// The labels of a CASE.
    Case,
    /// The statements behind labels.
    Arm,
    /// The fields of a record.
    Record,
}

/// A construct that is open, and the level of the word that ends it.
#[derive(Clone, Copy)]
struct Frame {
    construct: Construct,
    level: usize,
}

impl Frame {
    /// The level of what stands in it.
    fn inner(self) -> usize {
        match self.construct {
            Construct::Block => self.level,
            _ => self.level.saturating_add(1),
        }
    }

    /// The level of the word that ends it, or its part.
    fn outer(self) -> usize {
        match self.construct {
            Construct::Arm => self.level.saturating_sub(1),
            _ => self.level,
        }
    }
}

/// What is open at a place.
#[derive(Drop)]
pub struct Nest {
    frames: Vec<Frame>,
    /// Whether a declaration, a field, a label or a statement may begin here.
    is_begin: bool,
    /// How many brackets are open.
    brackets: usize,
    /// Whether procedures have bodies, as in all modules but definitions.
    has_bodies: bool,
}

impl Nest {
    /// The nest in front of a text.
    pub fn new(alloc: Global) -> Nest {
        Nest {
            frames: Vec::new(alloc),
            is_begin: true,
            brackets: 0,
            has_bodies: true,
        }
    }

    fn top(&self) -> Frame {
        self.frames.last().copied().unwrap_or(Frame {
            construct: Construct::Block,
            level: 0,
        })
    }

    fn is_in(&self, construct: Construct) -> bool {
        self.top().construct == construct
    }

    fn open(&mut self, construct: Construct, level: usize) -> Result<(), AllocError> {
        self.frames.push(Frame { construct, level })?;
        Ok(())
    }

    /// Closes this construct, if it is the innermost.
    fn close_if(&mut self, construct: Construct) {
        if self.is_in(construct) {
            let _ = self.frames.pop();
        }
    }

    /// The level of a procedure's heading.
    fn heading_level(&self) -> usize {
        let top = self.top();
        let in_section = usize::from(top.construct == Construct::Section);
        let is_local = self.has_bodies && self.frames.len().saturating_sub(in_section) > 1;
        top.level.saturating_add(usize::from(is_local))
    }

    /// The level of a line that begins with this symbol, or with an operand.
    pub fn level(&self, symbol: Option<Symbol>) -> usize {
        let inner = self.top().inner();
        if self.brackets > 0 {
            let is_last = self.brackets == 1 && symbol.is_some_and(closes);
            return inner.saturating_add(usize::from(!is_last));
        }
        match symbol {
            Some(Symbol::Begin) => self.top().level,
            Some(Symbol::Const | Symbol::Type | Symbol::Var) if self.is_begin => self.top().level,
            Some(Symbol::Procedure) if self.is_begin => self.heading_level(),
            Some(Symbol::End | Symbol::Else | Symbol::Elsif | Symbol::Until | Symbol::Bar) => {
                self.top().outer()
            }
            Some(Symbol::Then | Symbol::Do) => inner,
            _ => inner.saturating_add(usize::from(!self.is_begin)),
        }
    }

    /// The level of a comment that begins a line, in front of a token with this symbol.
    pub fn comment_level(&self, next: Option<Symbol>) -> usize {
        match next {
            Some(Symbol::End | Symbol::Else | Symbol::Elsif | Symbol::Until | Symbol::Bar)
                if self.brackets == 0 => { self.top().inner() }
            _ => self.level(next),
        }
    }

    /// Takes a CONST, a TYPE or a VAR into account.
    fn begin_section(&mut self) -> Result<(), AllocError> {
        self.close_if(Construct::Section);
        self.open(Construct::Section, self.top().level)
    }

    /// Takes the heading of a procedure into account.
    fn begin_procedure(&mut self) -> Result<(), AllocError> {
        let level = self.heading_level();
        self.close_if(Construct::Section);
        self.is_begin = false;
        if self.has_bodies {
            self.open(Construct::Block, level)?;
        }
        Ok(())
    }

    fn begin_body(&mut self) -> Result<(), AllocError> {
        self.close_if(Construct::Section);
        self.is_begin = true;
        self.open(Construct::Body, self.top().level)
    }

    fn begin_statements(&mut self) -> Result<(), AllocError> {
        self.is_begin = true;
        self.open(Construct::Statements, self.top().inner())
    }

    /// Takes an ELSE into account: that of an IF, or that of a CASE.
    fn begin_else(&mut self) -> Result<(), AllocError> {
        self.close_if(Construct::Arm);
        let level = self.top().level;
        let _ = self.frames.pop();
        self.is_begin = true;
        self.open(Construct::Statements, level)
    }

    /// Takes an END into account.
    fn end(&mut self) {
        let is_part = matches!(
            self.top().construct,
            Construct::Section | Construct::Body | Construct::Arm
        );
        let _ = self.frames.pop();
        if is_part {
            let _ = self.frames.pop();
        }
        self.is_begin = false;
    }

    /// Takes a symbol into account that is in no bracket, and none of those of declarations.
    fn pass_statement(&mut self, symbol: Symbol) -> Result<(), AllocError> {
        match symbol {
            Symbol::Then | Symbol::Do | Symbol::Loop | Symbol::Repeat => self.begin_statements()?,
            Symbol::Else => self.begin_else()?,
            Symbol::Elsif | Symbol::Until => {
                let _ = self.frames.pop();
                self.is_begin = false;
            }
            Symbol::Case => {
                self.is_begin = false;
                self.open(Construct::Case, self.top().inner())?;
            }
            Symbol::Colon if self.is_in(Construct::Case) => {
                self.is_begin = true;
                self.open(Construct::Arm, self.top().inner())?;
            }
            Symbol::Bar => {
                self.close_if(Construct::Arm);
                self.is_begin = true;
            }
            Symbol::End => self.end(),
            Symbol::Of => self.is_begin = self.is_in(Construct::Case),
            _ => self.is_begin = symbol == Symbol::Semicolon,
        }
        Ok(())
    }

    /// Takes a symbol into account that is in no bracket.
    fn pass_symbol(&mut self, symbol: Symbol) -> Result<(), AllocError> {
        match symbol {
            Symbol::Definition => self.has_bodies = false,
            Symbol::Module => self.open(Construct::Block, 0)?,
            Symbol::Const | Symbol::Type | Symbol::Var if self.is_begin => self.begin_section()?,
            Symbol::Procedure if self.is_begin => self.begin_procedure()?,
            Symbol::Begin => self.begin_body()?,
            Symbol::Record => {
                self.is_begin = true;
                self.open(Construct::Record, self.top().inner())?;
            }
            _ => self.pass_statement(symbol)?,
        }
        Ok(())
    }

    /// Takes a token with this symbol, or an operand, into account.
    pub fn pass(&mut self, symbol: Option<Symbol>) -> Result<(), AllocError> {
        let Some(symbol) = symbol else {
            self.is_begin = false;
            return Ok(());
        };
        if opens(symbol) {
            self.brackets = self.brackets.saturating_add(1);
            self.is_begin = false;
        } else if closes(symbol) {
            self.brackets = self.brackets.saturating_sub(1);
        } else if self.brackets == 0 {
            self.pass_symbol(symbol)?;
        }
        Ok(())
    }
}
