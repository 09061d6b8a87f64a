//! Which tokens the parts of a module begin with.

ghost use Rattle.std.specs.Prelude.{◌≡◌, ◌∷◌};
ghost use Rattle.m2_tree.specs.declared.token.Symbol.TheVariants.{Var};
ghost use Rattle.def_grammar.specs.declared.kind.Kind.TheVariants as the;
ghost use Rattle.def_grammar.specs.Kinds.{kind_said};
ghost use Rattle.def_grammar.specs.Tables.{in_expr, in_formal, in_selector, in_simple, in_type};
ghost use Rattle.def_grammar.specs.Reading.{is_among};
ghost use Rattle.parse_expr.specs.Lone.{going_on, lone_kinds};

use def_grammar::Kind;
use m2_tree::{Lexeme, Symbol};

/// The kind of a token that says this.
pub(crate) fn kind_of(lexeme: &Lexeme) -> Kind
    ensures { result ≡ kind_said lexeme.now }
{
    match lexeme {
        Lexeme::Name(_) => Kind::Name,
        Lexeme::Number(_) => Kind::Number,
        Lexeme::Char(_) => Kind::Char,
        Lexeme::Text(_) => Kind::Text,
        Lexeme::Symbol(symbol) => Kind::Symbol(*symbol),
        Lexeme::End => Kind::End,
    }
}

/// Whether an expression can begin so.
#[tactic(auto, using(def_grammar::proofs::Truth::symbols), unfolding(def_grammar::specs::Kinds::same_kind))]
pub fn begins_expr(kind: Kind) -> bool
    ensures { result ≡ is_among kind in_expr }
{
    match kind {
        Kind::Name | Kind::Number | Kind::Char | Kind::Text => true,
        Kind::Symbol(symbol) => matches!(
            symbol,
            Symbol::Plus | Symbol::Minus | Symbol::LeftBrace | Symbol::Not | Symbol::LeftParen
        ),
        Kind::End => false,
    }
}

/// Whether this token can be the whole of an expression.
#[tactic(auto, unfolding(def_grammar::specs::Kinds::same_kind))]
pub(crate) fn can_be_lone(lexeme: &Lexeme) -> bool
    ensures { result ≡ is_among (kind_said lexeme.now) lone_kinds }
{
    match lexeme {
        Lexeme::Name(_) | Lexeme::Number(_) | Lexeme::Char(_) | Lexeme::Text(_) => true,
        Lexeme::Symbol(_) | Lexeme::End => false,
    }
}

/// Whether an expression that begins with a name or a literal goes on with this token.
#[tactic(auto, using(def_grammar::proofs::Truth::symbols), unfolding(def_grammar::specs::Kinds::same_kind))]
pub(crate) fn goes_on(lexeme: &Lexeme) -> bool
    ensures { result ≡ is_among (kind_said lexeme.now) going_on }
{
    match lexeme {
        Lexeme::Symbol(symbol) => matches!(
            symbol,
            Symbol::Equal
                | Symbol::Unequal
                | Symbol::Less
                | Symbol::AtMost
                | Symbol::Greater
                | Symbol::AtLeast
                | Symbol::In
                | Symbol::Plus
                | Symbol::Minus
                | Symbol::Or
                | Symbol::Star
                | Symbol::Slash
                | Symbol::Div
                | Symbol::Mod
                | Symbol::And
                | Symbol::Dot
                | Symbol::LeftBracket
                | Symbol::LeftParen
                | Symbol::LeftBrace
        ),
        Lexeme::Name(_) | Lexeme::Number(_) | Lexeme::Char(_) | Lexeme::Text(_) | Lexeme::End => {
            false
        }
    }
}

/// Whether a component can begin so.
#[tactic(auto, using(def_grammar::proofs::Truth::symbols), unfolding(def_grammar::specs::Kinds::same_kind))]
pub(crate) fn begins_selector(kind: Kind) -> bool
    ensures { result ≡ is_among kind in_selector }
{
    match kind {
        Kind::Symbol(symbol) => matches!(symbol, Symbol::Dot | Symbol::LeftBracket),
        Kind::Name | Kind::Number | Kind::Char | Kind::Text | Kind::End => false,
    }
}

/// Whether an index type can begin so.
#[tactic(auto, using(def_grammar::proofs::Truth::symbols), unfolding(def_grammar::specs::Kinds::same_kind))]
pub(crate) fn begins_simple(kind: Kind) -> bool
    ensures { result ≡ is_among kind in_simple }
{
    match kind {
        Kind::Name => true,
        Kind::Symbol(symbol) => matches!(symbol, Symbol::LeftParen | Symbol::LeftBracket),
        Kind::Number | Kind::Char | Kind::Text | Kind::End => false,
    }
}

/// Whether a type can begin so.
#[tactic(auto, using(def_grammar::proofs::Truth::symbols), unfolding(def_grammar::specs::Kinds::same_kind))]
pub(crate) fn begins_type(kind: Kind) -> bool
    ensures { result ≡ is_among kind in_type }
{
    match kind {
        Kind::Name => true,
        Kind::Symbol(symbol) => matches!(
            symbol,
            Symbol::LeftParen
                | Symbol::LeftBracket
                | Symbol::Array
                | Symbol::Record
                | Symbol::Procedure
        ),
        Kind::Number | Kind::Char | Kind::Text | Kind::End => false,
    }
}

/// Whether a formal of a procedure type can begin so.
#[tactic(auto, using(def_grammar::proofs::Truth::symbols), unfolding(def_grammar::specs::Kinds::same_kind))]
pub(crate) fn begins_formal(kind: Kind) -> bool
    ensures { result ≡ is_among kind (the.Symbol Var ∷ in_formal) }
{
    match kind {
        Kind::Name => true,
        Kind::Symbol(symbol) => matches!(symbol, Symbol::Var | Symbol::Array),
        Kind::Number | Kind::Char | Kind::Text | Kind::End => false,
    }
}
