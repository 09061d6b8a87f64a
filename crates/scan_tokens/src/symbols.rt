//! Reserved words, operators and delimiters.

ghost use Rattle.std.specs.Prelude.{◌≡◌, [], ◌∷◌, map};
ghost use Rattle.std.specs.Str.{bytes_eq};
ghost use Rattle.scan_tokens.specs.Bytes.{Text};
ghost use Rattle.scan_tokens.specs.Symbols.{lookup, word_of, sign_of};

use m2_tree::Symbol;

/// Whether these are the same bytes. Most words differ in length, which is seen at once.
fn are_same(first: &[u8], second: &[u8]) -> bool
    ensures { result ≡ bytes_eq first.now second.now }
{
    first.len() == second.len() && first == second
}

fn lookup(mut table: &[(&[u8], Symbol)], word: &[u8]) -> Option<Symbol>
    ensures { result ≡ lookup (map (λ e. (e.0.now, e.1)) table.entry.now) word.now }
{
    while let [entry, rest @ ..] = table {
        if are_same(entry.0, word) {
            return Some(entry.1);
        }
        table = rest;
    }
    None
}

/// The reserved words that begin with a byte, so that a name is compared with few of them.
#[tactic(auto, unfolding(crate::specs::Symbols::word_of))]
fn words_with(first: u8) -> &'static [(&'static [u8], Symbol)]
    ensures { (rest : Text)
        → lookup (map (λ e. (e.0.now, e.1)) result.now) (first ∷ rest) ≡ word_of (first ∷ rest) }
{
    match first {
        b'A' => &[(b"AND", Symbol::And), (b"ARRAY", Symbol::Array)],
        b'B' => &[(b"BEGIN", Symbol::Begin), (b"BY", Symbol::By)],
        b'C' => &[(b"CASE", Symbol::Case), (b"CONST", Symbol::Const)],
        b'D' => &[
            (b"DEFINITION", Symbol::Definition),
            (b"DIV", Symbol::Div),
            (b"DO", Symbol::Do),
        ],
        b'E' => &[
            (b"ELSE", Symbol::Else),
            (b"ELSIF", Symbol::Elsif),
            (b"END", Symbol::End),
            (b"EXIT", Symbol::Exit),
            (b"EXPORT", Symbol::Export),
        ],
        b'F' => &[(b"FOR", Symbol::For), (b"FROM", Symbol::From)],
        b'I' => &[
            (b"IF", Symbol::If),
            (b"IMPLEMENTATION", Symbol::Implementation),
            (b"IMPORT", Symbol::Import),
            (b"IN", Symbol::In),
        ],
        b'L' => &[(b"LOOP", Symbol::Loop)],
        b'M' => &[(b"MOD", Symbol::Mod), (b"MODULE", Symbol::Module)],
        b'N' => &[(b"NOT", Symbol::Not)],
        b'O' => &[(b"OF", Symbol::Of), (b"OR", Symbol::Or)],
        b'P' => &[
            (b"POINTER", Symbol::Pointer),
            (b"PROCEDURE", Symbol::Procedure),
        ],
        b'Q' => &[(b"QUALIFIED", Symbol::Qualified)],
        b'R' => &[
            (b"RECORD", Symbol::Record),
            (b"REPEAT", Symbol::Repeat),
            (b"RETURN", Symbol::Return),
        ],
        b'S' => &[(b"SET", Symbol::Set)],
        b'T' => &[
            (b"THEN", Symbol::Then),
            (b"TO", Symbol::To),
            (b"TYPE", Symbol::Type),
        ],
        b'U' => &[(b"UNTIL", Symbol::Until)],
        b'V' => &[(b"VAR", Symbol::Var)],
        b'W' => &[(b"WHILE", Symbol::While), (b"WITH", Symbol::With)],
        _ => &[],
    }
}

/// The reserved word that these bytes are.
#[tactic(auto, unfolding(crate::specs::Symbols::word_of))]
pub fn word_of(run: &[u8]) -> Option<Symbol>
    ensures { result ≡ word_of run.now }
{
    match run {
        [] => None,
        [first, ..] => lookup(words_with(*first), run),
    }
}

/// The operator or delimiter of two bytes that these are.
#[tactic(auto, unfolding(crate::specs::Symbols::sign_of))]
pub fn pair_of(first: u8, second: u8) -> Option<Symbol>
    ensures { result ≡ sign_of (first ∷ second ∷ []) }
{
    match (first, second) {
        (b':', b'=') => Some(Symbol::Assign),
        (b'<', b'>') => Some(Symbol::Unequal),
        (b'<', b'=') => Some(Symbol::AtMost),
        (b'>', b'=') => Some(Symbol::AtLeast),
        (b'.', b'.') => Some(Symbol::DotDot),
        _ => None,
    }
}

/// The operator or delimiter of one byte that this is.
#[tactic(auto, unfolding(crate::specs::Symbols::sign_of))]
pub fn single_of(first: u8) -> Option<Symbol>
    ensures { result ≡ sign_of (first ∷ []) }
{
    match first {
        b'+' => Some(Symbol::Plus),
        b'-' => Some(Symbol::Minus),
        b'*' => Some(Symbol::Star),
        b'/' => Some(Symbol::Slash),
        b'&' => Some(Symbol::And),
        b'.' => Some(Symbol::Dot),
        b',' => Some(Symbol::Comma),
        b';' => Some(Symbol::Semicolon),
        b'(' => Some(Symbol::LeftParen),
        b'[' => Some(Symbol::LeftBracket),
        b'{' => Some(Symbol::LeftBrace),
        b'=' => Some(Symbol::Equal),
        b'#' => Some(Symbol::Unequal),
        b'<' => Some(Symbol::Less),
        b'>' => Some(Symbol::Greater),
        b':' => Some(Symbol::Colon),
        b')' => Some(Symbol::RightParen),
        b']' => Some(Symbol::RightBracket),
        b'}' => Some(Symbol::RightBrace),
        b'|' => Some(Symbol::Bar),
        b'~' => Some(Symbol::Not),
        _ => None,
    }
}
