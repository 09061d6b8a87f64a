//! Predeclared names and reserved words.

use crate::names::NAMES;
use crate::reserved::RESERVED;

/// What a word is.
#[derive(Clone, Copy, Debug, PartialEq, Eq)]
pub enum Sort {
    /// A predeclared type.
    Type,
    /// A predeclared constant.
    Constant,
    /// A predeclared procedure.
    Procedure,
    /// The built in module `Console`, or its procedure `Put`. Both are known only where they are imported.
    Console,
    /// A reserved word.
    Reserved,
}

/// A word of the language, with what is said of it.
#[derive(Clone, Copy)]
pub struct Word {
    /// The word.
    pub name: &'static str,
    /// What it is.
    pub sort: Sort,
    /// How it is used, as `INC(v, n)`.
    pub heading: &'static str,
    /// What it means, in a sentence.
    pub sentence: &'static str,
}

/// The word with this name among these.
fn find(words: &'static [Word], name: &[u8]) -> Option<Word> {
    for word in words {
        if word.name.as_bytes() == name {
            return Some(*word);
        }
    }
    None
}

/// The predeclared names, and behind them `Console` and its `Put`.
pub fn predeclared_words() -> &'static [Word] {
    &NAMES
}

/// The reserved words, in the order of letters.
pub fn reserved_words() -> &'static [Word] {
    &RESERVED
}

/// What is said of a predeclared name, a reserved word, `Console` or `Put`. None of another name.
pub fn explanation(name: &[u8]) -> Option<Word> {
    match find(predeclared_words(), name) {
        Some(word) => Some(word),
        None => find(reserved_words(), name),
    }
}

/// Whether a name is known in every module in which it is not declared anew.
pub fn is_predeclared(name: &[u8]) -> bool {
    match find(predeclared_words(), name) {
        Some(word) => word.sort != Sort::Console,
        None => false,
    }
}
