//! What a grammar asks of a token.

use m2_tree::Symbol;

/// What a grammar asks of a token: which symbol or word it is, or that it is a name or a literal, whichever one.
#[derive(Clone, Copy)]
pub enum Kind {
    Name,
    Number,
    Char,
    Text,
    Symbol(Symbol),
    /// The end of the text.
    End,
}
