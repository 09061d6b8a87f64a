//! Tokens.

use crate::name::Name;
use crate::pos::Pos;
use crate::text::Quoted;

/// An operator, a delimiter or a reserved word ("Programming in Modula-2", 4th edition, Report, section 3). The two
/// spellings of one operator, as `&` and `AND`, are one symbol.
#[derive(Clone, Copy, PartialEq, Eq)]
pub enum Symbol {
    // Reserved words.
    And,
    Array,
    Begin,
    By,
    Case,
    Const,
    Definition,
    Div,
    Do,
    Else,
    Elsif,
    End,
    Exit,
    Export,
    For,
    From,
    If,
    Implementation,
    Import,
    In,
    Loop,
    Mod,
    Module,
    Not,
    Of,
    Or,
    Pointer,
    Procedure,
    Qualified,
    Record,
    Repeat,
    Return,
    Set,
    Then,
    To,
    Type,
    Until,
    Var,
    While,
    With,
    // Operators and delimiters.
    Plus,
    Minus,
    Star,
    Slash,
    Assign,
    Dot,
    Comma,
    Semicolon,
    LeftParen,
    LeftBracket,
    LeftBrace,
    Equal,
    Unequal,
    Less,
    Greater,
    AtMost,
    AtLeast,
    DotDot,
    Colon,
    RightParen,
    RightBracket,
    RightBrace,
    Bar,
}

/// What a token says.
#[derive(PartialEq, Eq, Drop)]
pub enum Lexeme {
    /// A name that is no reserved word.
    Name(Name),
    /// The value of a number, in whichever base it is written.
    Number(u32),
    /// The code of a character that is written as an octal number with a `C`.
    Char(u8),
    /// The bytes between the quotes of a string.
    Text(Quoted),
    /// An operator, a delimiter or a reserved word.
    Symbol(Symbol),
    /// The end of the text.
    End,
}

/// A token, and the place of its first byte. The end of a text is a token behind its last byte.
#[derive(PartialEq, Eq, Drop)]
pub struct Token {
    pub lexeme: Lexeme,
    pub pos: Pos,
}
