//! What stands at a refused place.

use crate::trial::{Test, Trial};
use m2_tree::Lexeme;
use m2c::BuildFault;
use std::alloc::{AllocError, Global};
use std::thread::Threads;
use text_places::{Declared, Kind, Side, Text, declaration_of, spelled_type, written_type};
use text_tokens::{excerpt, name_at};

/// A refused place: what is tried there, and what is declared around it.
pub struct Scene<'a> {
    pub trial: Trial<'a>,
    pub text: Text<'a>,
    pub declared: Vec<Declared>,
    /// The types that the program declares, and that are tried.
    pub types: Vec<String>,
}

// Written by hand, so that proofs above take a drop as one call.
impl<'a> Drop for Scene<'a> {
    fn drop(self) {
        let Scene {
            trial: _trial,
            text: _text,
            declared,
            types,
        } = self;
        drop(declared);
        drop(types);
    }
}

/// A type of the language, and a comparison that only a value of this type passes.
struct Sort {
    name: &'static str,
    test: &'static str,
}

pub const INTEGER: &str = "INTEGER";

pub const CARDINAL: &str = "CARDINAL";

/// The types that are tried, in this order.
const SORTS: [Sort; 5] = [
    Sort {
        name: INTEGER,
        test: "= MIN(INTEGER)",
    },
    Sort {
        name: CARDINAL,
        test: "= MIN(CARDINAL)",
    },
    Sort {
        name: "BOOLEAN",
        test: "= MIN(BOOLEAN)",
    },
    Sort {
        name: "CHAR",
        test: "= MIN(CHAR)",
    },
    Sort {
        name: "BITSET",
        test: "= {}",
    },
];

/// What a side is called that is made of number literals alone. It fits both INTEGER and CARDINAL.
const NUMBER: &str = "a number";

/// What is said of an argument that no procedure may change.
const NO_VARIABLE: &str = "no variable";

/// How an open array of characters is written.
const CHARACTERS: &str = "ARRAY OF CHAR";

/// What is taken by value where characters are.
const STRING: &str = "a string";

/// What has characters and is not taken for an open array.
const SHIFTED: &str = "an array of CHAR that does not begin at 0";

impl Scene<'_> {
    /// The variable or formal that a side is, if it is one that is declared in the text.
    fn variable(&self, side: Side) -> Option<Declared> {
        if !side.is_single() {
            return None;
        }
        let name = name_at(self.text.tokens, side.from)?;
        let found = declaration_of(self.text.tokens, &self.declared, name)?;
        if found.kind == Kind::Variable {
            Some(found)
        } else {
            None
        }
    }

    /// What a variable is called, and its type, if the side is one that is declared in the text.
    pub fn declaration_words(
        &self,
        alloc: Global,
        side: Side,
    ) -> Result<Option<String>, AllocError> {
        match self.variable(side) {
            Some(variable) => Ok(Some(self.words_of(alloc, variable)?)),
            None => Ok(None),
        }
    }

    /// What a variable is called, and its type.
    pub fn words_of(&self, alloc: Global, variable: Declared) -> Result<String, AllocError> {
        let token = variable.token;
        let name = self.excerpt(
            alloc,
            Side {
                from: token,
                to: token.saturating_add(1),
            },
        )?;
        let of = spelled_type(alloc, self.text, &self.declared, variable)?;
        format!(in alloc; "{name} is {of}")
    }

    /// The words of a side.
    pub fn excerpt(&self, alloc: Global, side: Side) -> Result<String, AllocError> {
        excerpt(alloc, self.text.bytes, self.text.tokens, side.from, side.to)
    }

    /// The type of a side as the text has it, if the side is a variable that is declared there.
    fn written_type(&self, alloc: Global, side: Side) -> Result<Option<String>, AllocError> {
        let Some(variable) = self.variable(side) else {
            return Ok(None);
        };
        Ok(Some(written_type(alloc, self.text, variable)?))
    }

    /// Whether a side passes a test.
    fn passes<R: AllocGlobal + Threads + Sync>(
        &self,
        rt: &R,
        side: Side,
        test: Test<'_>,
    ) -> Result<bool, BuildFault> {
        self.trial.passes(rt, side.bytes(self.text), test)
    }

    /// The type of the language that a side's values have.
    fn sort<R: AllocGlobal + Threads + Sync>(
        &self,
        rt: &R,
        side: Side,
    ) -> Result<Option<&'static str>, BuildFault> {
        let mut found = None;
        for sort in &SORTS {
            if self.passes(rt, side, Test::Compared(sort.test))? {
                found = Some(if found.is_some() { NUMBER } else { sort.name });
            }
        }
        Ok(found)
    }

    /// The type of the language that a variable has.
    fn exact_sort<R: AllocGlobal + Threads + Sync>(
        &self,
        rt: &R,
        side: Side,
    ) -> Result<Option<&'static str>, BuildFault> {
        for sort in &SORTS {
            if self.passes(rt, side, Test::Changed(sort.name))? {
                return Ok(Some(sort.name));
            }
        }
        Ok(None)
    }

    /// The first of the program's types that a side has.
    fn named_type<R: AllocGlobal + Threads + Sync>(
        &self,
        rt: &R,
        side: Side,
        is_exact: bool,
    ) -> Result<Option<&str>, BuildFault> {
        for name in &self.types {
            let of = name.as_str();
            let test = if is_exact {
                Test::Changed(of)
            } else {
                Test::Taken(of)
            };
            if self.passes(rt, side, test)? {
                return Ok(Some(of));
            }
        }
        Ok(None)
    }

    /// What a side is if it is made of characters.
    fn characters<R: AllocGlobal + Threads + Sync>(
        &self,
        rt: &R,
        side: Side,
    ) -> Result<Option<&'static str>, BuildFault> {
        if self.passes(rt, side, Test::Changed(CHARACTERS))? {
            return Ok(Some(CHARACTERS));
        }
        if self.passes(rt, side, Test::Taken(CHARACTERS))? {
            return Ok(Some(STRING));
        }
        if self.passes(rt, side, Test::Elements("CHAR"))? {
            return Ok(Some(SHIFTED));
        }
        Ok(None)
    }

    /// What a side is if it is a string literal.
    fn string_words(&self, alloc: Global, side: Side) -> Result<Option<String>, AllocError> {
        match self.text.tokens.get(side.from).map(|it| &it.lexeme) {
            Some(Lexeme::Text(text)) if side.is_single() => {
                let count = text.as_bytes().len();
                Ok(Some(format!(in alloc; "{STRING} of {count} characters")?))
            }
            _ => Ok(None),
        }
    }

    /// What a side is that has no type of the language.
    fn other<R: AllocGlobal + Threads + Sync>(
        &self,
        rt: &R,
        side: Side,
        is_exact: bool,
    ) -> Result<Option<String>, BuildFault> {
        if let Some(words) = self.string_words(rt.alloc(), side)? {
            return Ok(Some(words));
        }
        if let Some(name) = self.named_type(rt, side, is_exact)? {
            return Ok(Some(String::from_str(rt.alloc(), name)?));
        }
        copy_words(rt.alloc(), self.characters(rt, side)?)
    }

    /// What an operand or a side of an assignment is.
    pub fn operand_words<R: AllocGlobal + Threads + Sync>(
        &self,
        rt: &R,
        side: Side,
    ) -> Result<Option<String>, BuildFault> {
        if let Some(name) = self.sort(rt, side)? {
            return copy_words(rt.alloc(), Some(name));
        }
        if let Some(words) = self.written_type(rt.alloc(), side)? {
            return Ok(Some(words));
        }
        self.other(rt, side, false)
    }

    /// What an argument is that is passed by value.
    pub fn value_words<R: AllocGlobal + Threads + Sync>(
        &self,
        rt: &R,
        side: Side,
    ) -> Result<Option<String>, BuildFault> {
        if let Some(words) = self.written_type(rt.alloc(), side)? {
            return Ok(Some(words));
        }
        if let Some(name) = self.sort(rt, side)? {
            return copy_words(rt.alloc(), Some(name));
        }
        self.other(rt, side, false)
    }

    /// What an argument is if a variable is needed.
    pub fn variable_words<R: AllocGlobal + Threads + Sync>(
        &self,
        rt: &R,
        side: Side,
    ) -> Result<Option<String>, BuildFault> {
        if let Some(words) = self.written_type(rt.alloc(), side)? {
            return Ok(Some(words));
        }
        if !self.passes(rt, side, Test::Assigned)? {
            return copy_words(rt.alloc(), Some(NO_VARIABLE));
        }
        if let Some(name) = self.exact_sort(rt, side)? {
            return copy_words(rt.alloc(), Some(name));
        }
        self.other(rt, side, true)
    }
}

/// Words in memory of their own.
fn copy_words(alloc: Global, words: Option<&str>) -> Result<Option<String>, BuildFault> {
    match words {
        Some(words) => Ok(Some(String::from_str(alloc, words)?)),
        None => Ok(None),
    }
}
