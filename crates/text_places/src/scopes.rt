//! The names that are declared around a place of a text, found by its tokens.

use m2_tree::{Lexeme, Symbol, Token};
use std::alloc::{AllocError, Global};
use text_tokens::{is_named, symbol_of};

/// What a name is declared as.
#[derive(Clone, Copy, PartialEq, Eq)]
pub enum Kind {
    Procedure,
    Type,
    /// A variable or a formal.
    Variable,
}

/// A name that is declared.
#[derive(Clone, Copy, PartialEq, Eq)]
pub struct Declared {
    /// The number of its token.
    pub token: usize,
    /// How many procedures it stands in.
    pub level: usize,
    pub kind: Kind,
}

/// What the names are that begin a declaration.
#[derive(Clone, Copy, PartialEq, Eq)]
enum Section {
    Types,
    Variables,
    Other,
}

/// A walk over the tokens of a text, up to its end. What the procedures declare that do not stand around the place is dropped.
#[derive(Drop)]
struct Walk {
    visible: Vec<Declared>,
    /// How many names were visible before each procedure that is open.
    open: Vec<usize>,
    /// How many of the open procedures stand around the place, if the walk is behind it.
    around: usize,
    section: Section,
    /// How many records and round brackets are open.
    records: usize,
    brackets: usize,
    /// The names of a list that may turn out to be variables.
    list: Vec<usize>,
}

/// Whether a list of names goes on or ends in front of this.
fn goes_on(behind: Option<Symbol>) -> bool {
    matches!(behind, Some(Symbol::Comma | Symbol::Colon))
}

/// Adds variables that stand in this many procedures.
fn push_variables(
    visible: &mut Vec<Declared>,
    list: &[usize],
    level: usize,
) -> Result<(), AllocError> {
    for token in list {
        visible.push(Declared {
            token: *token,
            level,
            kind: Kind::Variable,
        })?;
    }
    Ok(())
}

impl Walk {
    fn declare(&mut self, token: usize, kind: Kind) -> Result<(), AllocError> {
        let level = self.open.len();
        self.visible.push(Declared { token, level, kind })?;
        Ok(())
    }

    /// The name of a procedure, which opens a scope.
    fn open_procedure(&mut self, number: usize) -> Result<(), AllocError> {
        self.declare(number, Kind::Procedure)?;
        self.open.push(self.visible.len())?;
        self.section = Section::Variables;
        Ok(())
    }

    /// The end of a procedure or of the module.
    fn close(&mut self) {
        self.section = Section::Other;
        if let Some(before) = self.open.pop() {
            if self.open.len() >= self.around {
                self.visible.truncate(before);
            } else {
                self.around = self.open.len();
            }
        }
    }

    /// A name that may begin a declaration.
    fn begin(&mut self, number: usize, behind: Option<Symbol>) -> Result<(), AllocError> {
        self.list.clear();
        if self.records > 0 {
            return Ok(());
        }
        if self.section == Section::Types && behind == Some(Symbol::Equal) {
            return self.declare(number, Kind::Type);
        }
        if self.section == Section::Variables && goes_on(behind) {
            self.list.push(number)?;
        }
        Ok(())
    }

    /// A name behind a comma.
    fn go_on(&mut self, number: usize, behind: Option<Symbol>) -> Result<(), AllocError> {
        if !self.list.is_empty() && goes_on(behind) {
            self.list.push(number)?;
        }
        Ok(())
    }

    /// A name between these.
    fn pass_name(
        &mut self,
        number: usize,
        before: Option<Symbol>,
        behind: Option<Symbol>,
    ) -> Result<(), AllocError> {
        match before {
            Some(Symbol::Procedure) => self.open_procedure(number),
            Some(Symbol::End) => {
                self.close();
                Ok(())
            }
            Some(Symbol::Type | Symbol::Var | Symbol::Semicolon | Symbol::LeftParen) => {
                self.begin(number, behind)
            }
            Some(Symbol::Comma) => self.go_on(number, behind),
            _ => {
                self.list.clear();
                Ok(())
            }
        }
    }

    /// The names of the list are variables.
    fn declare_list(&mut self) -> Result<(), AllocError> {
        push_variables(&mut self.visible, &self.list, self.open.len())?;
        self.list.clear();
        Ok(())
    }

    /// A symbol that may begin or end something.
    fn pass_symbol(&mut self, symbol: Symbol) {
        match symbol {
            Symbol::Type => self.section = Section::Types,
            Symbol::Var => {
                if self.brackets == 0 {
                    self.section = Section::Variables;
                }
            }
            Symbol::Const | Symbol::Begin | Symbol::Import => self.section = Section::Other,
            Symbol::Record => self.records = self.records.saturating_add(1),
            Symbol::End => self.records = self.records.saturating_sub(1),
            Symbol::LeftParen => self.brackets = self.brackets.saturating_add(1),
            Symbol::RightParen => self.brackets = self.brackets.saturating_sub(1),
            _ => {}
        }
    }

    /// The token of this number, between these symbols.
    fn pass(
        &mut self,
        token: &Token,
        number: usize,
        before: Option<Symbol>,
        behind: Option<Symbol>,
    ) -> Result<(), AllocError> {
        match &token.lexeme {
            Lexeme::Name(_) => self.pass_name(number, before, behind),
            Lexeme::Symbol(Symbol::Colon) => self.declare_list(),
            Lexeme::Symbol(Symbol::Comma) => Ok(()),
            Lexeme::Symbol(symbol) => {
                self.list.clear();
                self.pass_symbol(*symbol);
                Ok(())
            }
            Lexeme::Number(_) | Lexeme::Char(_) | Lexeme::Text(_) | Lexeme::End => {
                self.list.clear();
                Ok(())
            }
        }
    }
}

/// The procedures, types and variables that are declared around the token of this number, also behind it.
pub fn declared_around(
    alloc: Global,
    tokens: &[Token],
    at: usize,
) -> Result<Vec<Declared>, AllocError> {
    let mut walk = Walk {
        visible: Vec::new(alloc),
        open: Vec::new(alloc),
        around: 0,
        section: Section::Other,
        records: 0,
        brackets: 0,
        list: Vec::new(alloc),
    };
    let mut before = None;
    for (number, token) in tokens.iter().enumerate() {
        if number == at {
            walk.around = walk.open.len();
        }
        let behind = tokens.get(number.saturating_add(1)).and_then(symbol_of);
        walk.pass(token, number, before, behind)?;
        before = symbol_of(token);
    }
    let Walk { visible, .. } = walk;
    Ok(visible)
}

/// Whether a declaration stands in more procedures than the one that was found.
fn is_inner(declared: Declared, found: Option<Declared>) -> bool {
    match found {
        Some(it) => declared.level > it.level,
        None => true,
    }
}

/// Which declaration a name means: that in the innermost procedure, and there the first.
pub fn declaration_of(tokens: &[Token], all: &[Declared], name: &[u8]) -> Option<Declared> {
    let mut found = None;
    for declared in all {
        if is_named(tokens, declared.token, name) && is_inner(*declared, found) {
            found = Some(*declared);
        }
    }
    found
}
