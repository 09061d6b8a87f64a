//! Declarations.

use crate::places::{Place, Range};
use m2_tree::Ident;
use std::alloc::{AllocError, Global};

/// What a declared thing is.
#[derive(Clone, Copy, Debug, PartialEq, Eq)]
pub enum Kind {
    Module,
    Constant,
    Type,
    Variable,
    Formal,
    Field,
    Procedure,
    EnumerationConstant,
}

/// Declarations one behind another, by the first number and the number behind the last.
#[derive(Clone, Copy, Debug, PartialEq, Eq)]
pub struct Numbers {
    pub begin: usize,
    pub end: usize,
}

/// No declarations.
const NONE: Numbers = Numbers { begin: 0, end: 0 };

/// What is known of a declared thing when it is declared.
#[derive(Clone, Copy)]
pub struct Facts {
    pub kind: Kind,
    /// The whole declaration.
    pub range: Range,
    /// What stands behind the name and says what it is.
    pub tail: Range,
    /// The declaration in which it stands.
    pub parent: Option<usize>,
    /// The declaration of its module. A module's own number is not known yet.
    pub module: Option<usize>,
    /// Whether VAR stands before it in a heading.
    pub is_var: bool,
    /// Whether it is declared in a definition.
    pub is_exported: bool,
}

/// A declared thing.
#[derive(Drop)]
pub struct Declaration {
    /// What it is.
    pub kind: Kind,
    /// Its name.
    pub name: Vec<u8>,
    /// The name where it is declared: in the definition, if a definition declares it.
    pub place: Place,
    /// The name in the heading of the implementation, of a module or a procedure of a definition.
    pub implementation: Option<Place>,
    /// The declaration around `place`, from its first token to the place of the semicolon behind it. A module, and a procedure with
    /// a body, end behind the closing name. A name of a list has the stretch from its own first letter on.
    pub range: Range,
    /// The same around `implementation`.
    pub implementation_range: Option<Range>,
    /// The procedure or the module in which it stands. Of a field or a constant of an enumeration the type, variable or field in whose
    /// type it is written, the first of a list. A module has none.
    pub parent: Option<usize>,
    /// The declaration of its module. Of a module this is its own.
    pub module: usize,
    /// What stands behind the name and says what it is, as `: INTEGER`, `= 10` or `(x: INTEGER): CHAR`.
    pub tail: Range,
    /// Whether VAR stands before it in a heading.
    pub is_var: bool,
    /// Whether a definition declares it, so that importers see it. The formals and fields there are not exported by themselves.
    pub is_exported: bool,
    /// The number of its type: of a variable, a formal, a field or a type. Of a function the type of its result.
    pub of: Option<usize>,
    /// The scope of what a module exports.
    pub scope: Option<usize>,
    /// The constants of an enumeration that is declared under this name.
    pub constants: Numbers,
}

impl Declaration {
    /// What is declared under this name in a file, with the number that it gets. The only error is that memory ran out.
    pub fn new(
        alloc: Global,
        file: usize,
        name: &Ident,
        number: usize,
        facts: Facts,
    ) -> Result<Declaration, AllocError> {
        Ok(Declaration {
            kind: facts.kind,
            name: Vec::from_slice(alloc, name.name.as_bytes())?,
            place: Place::of(file, name),
            implementation: None,
            range: facts.range,
            implementation_range: None,
            parent: facts.parent,
            module: facts.module.unwrap_or(number),
            tail: facts.tail,
            is_var: facts.is_var,
            is_exported: facts.is_exported,
            of: None,
            scope: None,
            constants: NONE,
        })
    }

    /// Whether its name stands here, in the declaration or in the implementation.
    pub fn stands_at(&self, place: Place) -> bool {
        self.place == place || self.implementation == Some(place)
    }
}
