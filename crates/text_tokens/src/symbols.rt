//! What a token is.

use m2_tree::{Lexeme, Symbol, Token};

/// The symbol of a token.
pub fn symbol_of(token: &Token) -> Option<Symbol> {
    match &token.lexeme {
        Lexeme::Symbol(symbol) => Some(*symbol),
        _ => None,
    }
}

/// The symbol of the token of this number.
pub fn symbol_at(tokens: &[Token], number: usize) -> Option<Symbol> {
    symbol_of(tokens.get(number)?)
}

/// The bytes of the name of this number, or none if no name stands there.
pub fn name_at(tokens: &[Token], number: usize) -> Option<&[u8]> {
    match &tokens.get(number)?.lexeme {
        Lexeme::Name(name) => Some(name.as_bytes()),
        _ => None,
    }
}

/// Whether this name stands at the token of this number.
pub fn is_named(tokens: &[Token], number: usize, name: &[u8]) -> bool {
    match name_at(tokens, number) {
        Some(it) => it == name,
        None => false,
    }
}

/// Whether a symbol opens a bracket.
pub fn opens(symbol: Symbol) -> bool {
    matches!(
        symbol,
        Symbol::LeftParen | Symbol::LeftBracket | Symbol::LeftBrace
    )
}

/// Whether a symbol closes a bracket.
pub fn closes(symbol: Symbol) -> bool {
    matches!(
        symbol,
        Symbol::RightParen | Symbol::RightBracket | Symbol::RightBrace
    )
}

/// How many brackets are open behind a token, if `depth` are open before it. Nothing if it closes one more than are
/// open.
pub fn depth_behind(token: &Token, depth: usize) -> Option<usize> {
    match symbol_of(token) {
        Some(symbol) => {
            if opens(symbol) {
                Some(depth.saturating_add(1))
            } else if closes(symbol) {
                depth.checked_sub(1)
            } else {
                Some(depth)
            }
        }
        None => Some(depth),
    }
}
