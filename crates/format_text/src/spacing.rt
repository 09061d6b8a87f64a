//! How many spaces stand between two pieces of one line.

use crate::pieces::{Kind, Piece};
use m2_tree::Symbol;
use text_tokens::closes;

/// Whether a symbol stands close to what is in front of it.
fn is_close_before(symbol: Symbol) -> bool {
    closes(symbol)
        || matches!(
            symbol,
            Symbol::Comma | Symbol::Semicolon | Symbol::Dot | Symbol::Colon
        )
}

/// Whether a symbol stands close to what is behind it.
fn is_close_behind(symbol: Symbol) -> bool {
    matches!(
        symbol,
        Symbol::LeftParen | Symbol::LeftBracket | Symbol::LeftBrace | Symbol::Dot
    )
}

/// Whether an operand ends with this piece.
fn ends_operand(piece: &Piece<'_>) -> bool {
    match piece.kind {
        Kind::Operand => true,
        Kind::Symbol(symbol) => closes(symbol),
        Kind::Comment(_) => false,
    }
}

/// Whether a symbol is the sign of the operand behind it, where this piece stands in front of it.
pub fn is_sign(before: &Piece<'_>, piece: &Piece<'_>) -> bool {
    match piece.kind {
        Kind::Symbol(Symbol::Plus | Symbol::Minus) => !ends_operand(before),
        Kind::Symbol(Symbol::Not) => matches!(piece.bytes, [b'~']),
        _ => false,
    }
}

/// Whether nothing stands between two tokens.
fn are_close(before: &Piece<'_>, piece: &Piece<'_>) -> bool {
    match piece.kind {
        Kind::Symbol(symbol) if is_close_before(symbol) => true,
        Kind::Symbol(Symbol::LeftParen | Symbol::LeftBracket | Symbol::LeftBrace)
            if ends_operand(before) => { true }
        _ => before.symbol().is_some_and(is_close_behind),
    }
}

/// How many spaces stand between two pieces. A comment behind a token stands where it stood.
pub fn spaces_between(before: &Piece<'_>, piece: &Piece<'_>) -> usize {
    if piece.is_comment() {
        return piece.blanks.max(1);
    }
    usize::from(!are_close(before, piece))
}
