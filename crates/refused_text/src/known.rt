//! What is said of a refused place where no edit helps: what is not in this profile, or cannot be as it is written.

use crate::source::Source;
use m2_tree::{Pos, Symbol};
use text_tokens::{offset_of, rest};

/// What stands around a word.
#[derive(Clone, Copy, PartialEq, Eq)]
enum Around {
    /// Anything.
    Anything,
    /// A round bracket opens behind it.
    BeforeBracket,
    /// A number stands before it, and digits behind it.
    BetweenDigits,
    /// It stands in a list of variables.
    InDeclaration,
    /// An assignment sign stands behind it.
    BeforeAssign,
    /// A string stands before it, or behind it.
    BesideString,
    /// A variable stands between braces.
    InBraces,
    /// It is called as a statement.
    AsStatement,
    /// A record begins in front of it.
    BehindRecord,
}

/// A word that a rule refuses, and what to do.
struct Way {
    rule: u32,
    /// The word; empty for any.
    word: &'static str,
    around: Around,
    say: &'static str,
}

/// Numbers that are not whole.
const REAL: &str =
    "real numbers are not in this profile, and nothing stands for them: count in whole parts, as cents for money";

/// Pointers.
const POINTER: &str =
    "pointers are not in this profile: keep the records in an array, and use an index in place of a pointer, 0 for none";

/// The size of a type.
const SIZE: &str =
    "SIZE is not in this profile, and nothing stands for it: how many bytes a value takes cannot be asked";

/// A type as a function.
const CAST: &str =
    "a type is no function: `VAL(INTEGER, x)` takes x as an INTEGER, and `ORD(x)` and `CHR(x)` change between characters and numbers";

/// A set of a value.
const SET_CAST: &str =
    "a type is no function: a set is made with braces of constants, as `{1, 3}`, and with `INCL(s, x)`";

/// Real numbers and whole ones.
const ROUND: &str =
    "real numbers are not in this profile, so nothing has to be changed into or out of them: take the argument as it is";

/// The module SYSTEM.
const SYSTEM: &str =
    "the module SYSTEM is not in this profile: addresses, words of memory and coroutines cannot be had";

/// Memory that is asked for.
const STORAGE: &str =
    "the module Storage is not in this profile, as there are no pointers: keep the records in an array";

/// A conversion that is left out.
const LONG: &str =
    "there is one size of numbers: INTEGER from -2147483648 to 2147483647, and CARDINAL from 0 to 4294967295";

/// The ways, the first that fits first.
const WAYS: [Way; 48] = [
    Way {
        rule: 30,
        word: "REAL",
        around: Around::Anything,
        say: REAL,
    },
    Way {
        rule: 30,
        word: "LONGREAL",
        around: Around::Anything,
        say: REAL,
    },
    Way {
        rule: 30,
        word: "FLOAT",
        around: Around::Anything,
        say: ROUND,
    },
    Way {
        rule: 30,
        word: "TRUNC",
        around: Around::Anything,
        say: ROUND,
    },
    Way {
        rule: 30,
        word: "LONGINT",
        around: Around::Anything,
        say: LONG,
    },
    Way {
        rule: 30,
        word: "LONGCARD",
        around: Around::Anything,
        say: LONG,
    },
    Way {
        rule: 30,
        word: "SHORTINT",
        around: Around::Anything,
        say: LONG,
    },
    Way {
        rule: 30,
        word: "SHORTCARD",
        around: Around::Anything,
        say: LONG,
    },
    Way {
        rule: 30,
        word: "SIZE",
        around: Around::Anything,
        say: SIZE,
    },
    Way {
        rule: 30,
        word: "TSIZE",
        around: Around::Anything,
        say: SIZE,
    },
    Way {
        rule: 30,
        word: "NIL",
        around: Around::Anything,
        say: POINTER,
    },
    Way {
        rule: 30,
        word: "NEW",
        around: Around::Anything,
        say: POINTER,
    },
    Way {
        rule: 30,
        word: "DISPOSE",
        around: Around::Anything,
        say: POINTER,
    },
    Way {
        rule: 30,
        word: "ALLOCATE",
        around: Around::Anything,
        say: POINTER,
    },
    Way {
        rule: 30,
        word: "DEALLOCATE",
        around: Around::Anything,
        say: POINTER,
    },
    Way {
        rule: 30,
        word: "PROC",
        around: Around::Anything,
        say: "PROC is not in this profile: write `PROCEDURE`",
    },
    Way {
        rule: 13,
        word: "POINTER",
        around: Around::Anything,
        say: POINTER,
    },
    Way {
        rule: 2,
        word: "^",
        around: Around::Anything,
        say: POINTER,
    },
    Way {
        rule: 13,
        word: "SET",
        around: Around::Anything,
        say: "the only set type is BITSET, of the numbers 0 to 31: for others write `ARRAY T OF BOOLEAN`",
    },
    Way {
        rule: 13,
        word: "MODULE",
        around: Around::Anything,
        say: "a module within a module is not in this profile: write a procedure, or a module with files of its own",
    },
    Way {
        rule: 13,
        word: "EXPORT",
        around: Around::Anything,
        say: "everything in a definition is exported: take the export list out",
    },
    Way {
        rule: 13,
        word: "QUALIFIED",
        around: Around::Anything,
        say: "everything in a definition is exported: take the export list out",
    },
    Way {
        rule: 20,
        word: "SYSTEM",
        around: Around::Anything,
        say: SYSTEM,
    },
    Way {
        rule: 20,
        word: "Storage",
        around: Around::Anything,
        say: STORAGE,
    },
    Way {
        rule: 20,
        word: "MathLib0",
        around: Around::Anything,
        say: REAL,
    },
    Way {
        rule: 20,
        word: "RealInOut",
        around: Around::Anything,
        say: REAL,
    },
    Way {
        rule: 20,
        word: "FileSystem",
        around: Around::Anything,
        say: "a program opens no files: its input is given with `m2 run --input`, and its output can be sent to a file",
    },
    Way {
        rule: 20,
        word: "Files",
        around: Around::Anything,
        say: "a program opens no files: its input is given with `m2 run --input`, and its output can be sent to a file",
    },
    Way {
        rule: 40,
        word: "BITSET",
        around: Around::BeforeBracket,
        say: SET_CAST,
    },
    Way {
        rule: 40,
        word: "INTEGER",
        around: Around::BeforeBracket,
        say: CAST,
    },
    Way {
        rule: 40,
        word: "CARDINAL",
        around: Around::BeforeBracket,
        say: CAST,
    },
    Way {
        rule: 40,
        word: "CHAR",
        around: Around::BeforeBracket,
        say: CAST,
    },
    Way {
        rule: 40,
        word: "BOOLEAN",
        around: Around::BeforeBracket,
        say: CAST,
    },
    Way {
        rule: 10,
        word: ".",
        around: Around::BetweenDigits,
        say: REAL,
    },
    Way {
        rule: 10,
        word: ":=",
        around: Around::InDeclaration,
        say: "a variable has no value where it is declared: give it one behind BEGIN",
    },
    Way {
        rule: 10,
        word: "=",
        around: Around::InDeclaration,
        say: "a variable has no value where it is declared: give it one behind BEGIN",
    },
    Way {
        rule: 40,
        word: "",
        around: Around::BeforeAssign,
        say: "only a variable can be assigned to: a constant keeps its value",
    },
    Way {
        rule: 40,
        word: "+",
        around: Around::BesideString,
        say: "strings are not joined by an operator: write one behind the other, or use Append of Strings",
    },
    Way {
        rule: 40,
        word: "&",
        around: Around::BesideString,
        say: "strings are not joined by an operator: write one behind the other, or use Append of Strings",
    },
    Way {
        rule: 34,
        word: "",
        around: Around::InBraces,
        say: "the elements in braces are constants: write `s := {}` and then `INCL(s, x)`",
    },
    Way {
        rule: 40,
        word: "",
        around: Around::AsStatement,
        say: "a function is called in an expression, and its result is used",
    },
    Way {
        rule: 10,
        word: "CASE",
        around: Around::BehindRecord,
        say: "variant records are not in this profile: write the fields of all variants",
    },
    Way {
        rule: 6,
        word: "",
        around: Around::Anything,
        say: "the greatest number is 4294967295, and the greatest INTEGER 2147483647",
    },
    Way {
        rule: 7,
        word: "",
        around: Around::Anything,
        say: "a name has at most 64 letters and digits: shorten it",
    },
    Way {
        rule: 1,
        word: "",
        around: Around::Anything,
        say: "a text has at most 1048576 bytes: divide it into modules",
    },
    Way {
        rule: 12,
        word: "",
        around: Around::Anything,
        say: "at most 200 levels can be nested: put inner statements into a procedure",
    },
    Way {
        rule: 23,
        word: "",
        around: Around::Anything,
        say: "a program has one module without DEFINITION and IMPLEMENTATION, and it is the one to compile",
    },
    Way {
        rule: 61,
        word: "",
        around: Around::Anything,
        say: "the variables need more memory: --memory gives more",
    },
];

/// Whether a token ends in a digit and the other begins with one, with the token of this number between them.
fn is_between_digits(source: &Source<'_>, at: usize) -> bool {
    let before = source.spelling(at.saturating_sub(1)).last();
    let behind = source.spelling(at.saturating_add(1)).first();
    let is_near = source.end(at.saturating_sub(1)) == source.begin(at);
    is_near
        && before.is_some_and(|it| it.is_ascii_digit())
        && behind.is_some_and(|it| it.is_ascii_digit())
}

/// Whether a token is a string.
fn is_string(source: &Source<'_>, at: usize) -> bool {
    matches!(source.spelling(at), [b'"' | b'\'', _, _, _, ..])
}

/// Whether a type stands in front of a token, and a colon in front of it.
fn is_in_declaration(source: &Source<'_>, at: usize) -> bool {
    let colon = source.is(at.saturating_sub(2), Symbol::Colon);
    colon && source.is_name(at.saturating_sub(1)) && source.is_name(at.saturating_sub(3))
}

/// Whether a token stands between braces.
fn is_in_braces(source: &Source<'_>, at: usize) -> bool {
    matches!(source.symbol(at.saturating_sub(1)), Some(Symbol::LeftBrace))
}

/// Whether a statement begins with a token and is a call.
fn is_statement(source: &Source<'_>, at: usize) -> bool {
    let begins = text_tokens::front_of(&source.tokens, at).is_some_and(|it| it.token == at);
    let behind = source.symbol(at.saturating_add(1));
    begins && matches!(behind, Some(Symbol::LeftParen))
}

/// Whether a token is a name, and no other name is the same but for capital letters.
fn is_alone(source: &Source<'_>, at: usize) -> bool {
    let name = source.spelling(at);
    let has_other = (0..source.tokens.len()).any(|it| {
        let other = source.spelling(it);
        other != name && other.eq_ignore_ascii_case(name)
    });
    source.is_name(at) && !has_other
}

/// Whether this stands around a token.
fn is_around(source: &Source<'_>, around: Around, at: usize) -> bool {
    let behind = at.saturating_add(1);
    match around {
        Around::Anything => true,
        Around::BeforeBracket => source.is(behind, Symbol::LeftParen),
        Around::BetweenDigits => is_between_digits(source, at),
        Around::InDeclaration => is_in_declaration(source, at),
        Around::BeforeAssign => source.is(behind, Symbol::Assign) && is_alone(source, at),
        Around::BesideString => is_string(source, at.saturating_sub(1))
            || is_string(source, behind),
        Around::InBraces => is_in_braces(source, at),
        Around::AsStatement => is_statement(source, at) && is_alone(source, at),
        Around::BehindRecord => source.is(at.saturating_sub(1), Symbol::Record),
    }
}

/// Whether a way is that of a rule at a token.
fn fits(source: &Source<'_>, way: &Way, rule: u32, at: usize) -> bool {
    let is_word = way.word.is_empty() || way.word.as_bytes() == source.spelling(at);
    way.rule == rule && is_word && is_around(source, way.around, at)
}

/// The rule of a byte that begins nothing.
const BYTE: u32 = 2;

/// Letters that no text has.
const LETTER: &str =
    "a text has the letters, digits and signs of ASCII alone, in strings too: write other letters in two; comments may hold any";

/// Whether a letter begins a text that stands for no sign of ASCII.
fn is_letter(text: &[u8]) -> bool {
    match text {
        [0xC2, 0xA0, ..] | [0xE2, 0x80, ..] | [0xEF, 0xBB, ..] => false,
        [first, ..] => *first >= 0xC2,
        [] => false,
    }
}

/// What to do where this rule refuses a text, if that is known and no edit helps. A sentence without a full stop.
pub fn known_way(source: &Source<'_>, rule: u32, pos: Pos) -> Option<&'static str> {
    if rule == BYTE && is_letter(rest(source.bytes, offset_of(source.bytes, pos))) {
        return Some(LETTER);
    }
    let at = source
        .number_at(pos)
        .unwrap_or(source.tokens.len().saturating_sub(1));
    WAYS.iter()
        .find(|it| fits(source, it, rule, at))
        .map(|it| it.say)
}
