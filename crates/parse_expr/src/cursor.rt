//! A cursor over tokens.

ghost use Rattle.std.specs.Prelude.{◌≡◌, ◌≢◌, ◌↔◌, [], ◌∷◌, IsTrue};
ghost use Rattle.def_grammar.specs.declared.kind.Kind.TheVariants as the;
ghost use Rattle.def_grammar.specs.Kinds.{kind_said};
ghost use Rattle.def_grammar.specs.Trees.{ident_of, literal_of};
ghost use Rattle.def_grammar.specs.Tables.{in_simple, in_type, literals};
ghost use Rattle.def_grammar.specs.Refusal.{place_of, number_of, unfit_number};
ghost use Rattle.def_grammar.specs.Reading.{
  kind_at,
  is_among,
  begins,
  closing,
  one_token,
  enter_level,
  AteIf,
  HadIf,
  Reads,
  ReadsAs,
  TookIf,
};
ghost use Rattle.parse_expr.specs.Lone.{is_lone, lone_kinds, value_of};

use crate::begins::{begins_simple, begins_type, can_be_lone, goes_on, kind_of};
use def_grammar::{GrammarRule, Kind, ParseRefusal, Stop};
use m2_tree::{Designator, Expr, Ident, Lexeme, Pos, Symbol, Token};
use std::alloc::Global;
use std::marker::Model;
use tree_parts::Items;

/// What is left of the tokens. Contracts see it as their list.
///
/// A method that answers an error leaves the cursor at the token that is refused, unless memory ran out.
#[derive(Drop)]
pub struct Cursor<'a> {
    pub alloc: Global,
    pub(crate) rest: &'a [Token],
}

impl<'a> Model for Cursor<'a> {
    ghost use Rattle.std.specs.Prelude.{List};
    ghost use Rattle.m2_tree.specs.declared.token.Token.{Token};

    ghost Value = { List Token };

    ghost view = { λ c. c.rest.now };
}

#[tactic(auto, unfolding(def_grammar::specs::Kinds::same_kind, def_grammar::specs::Kinds::same_symbol))]
fn is_symbol(lexeme: &Lexeme, symbol: Symbol) -> bool
    ensures { result ≡ is_among (kind_said lexeme.now) (the.Symbol symbol ∷ []) }
{
    match lexeme {
        Lexeme::Symbol(found) => *found == symbol,
        Lexeme::Name(_) | Lexeme::Number(_) | Lexeme::Char(_) | Lexeme::Text(_) | Lexeme::End => {
            false
        }
    }
}

/// The number that is reported of a token that does not fit.
fn unfit_number(lexeme: &Lexeme) -> u32
    ensures { result ≡ unfit_number lexeme.now }
{
    match lexeme {
        Lexeme::Symbol(
            Symbol::Pointer | Symbol::Qualified | Symbol::Export | Symbol::Set | Symbol::Module,
        ) => 13,
        _ => 10,
    }
}

impl<'a> Cursor<'a> {
    /// A cursor before the first of these tokens.
    pub fn new(alloc: Global, tokens: &'a [Token]) -> Cursor<'a>
        ensures { result ≡ tokens.now }
    {
        Cursor {
            alloc,
            rest: tokens,
        }
    }

    /// The kind of the next token, and the end if none is left.
    pub fn peek(&self) -> Kind
        ensures { result ≡ kind_at self.now }
    {
        match self.rest {
            [] => Kind::End,
            [token, ..] => kind_of(&token.lexeme),
        }
    }

    /// Whether the next token is this symbol.
    #[tactic(auto, unfolding(def_grammar::specs::Kinds::same_kind))]
    pub fn sees(&self, symbol: Symbol) -> bool
        ensures { result ≡ begins (the.Symbol symbol ∷ []) self.now }
    {
        match self.rest {
            [] => false,
            [token, ..] => is_symbol(&token.lexeme, symbol),
        }
    }

    /// Whether the next token is a name.
    #[tactic(auto, unfolding(def_grammar::specs::Kinds::same_kind))]
    pub fn sees_name(&self) -> bool
        ensures { result ≡ begins (the.Name ∷ []) self.now }
    {
        match self.peek() {
            Kind::Name => true,
            Kind::Number | Kind::Char | Kind::Text | Kind::Symbol(_) | Kind::End => false,
        }
    }

    /// Takes the next token, which has to be this symbol, and answers its place.
    pub fn expect(&mut self, symbol: Symbol) -> Result<Pos, Stop>
        ensures { ReadsAs (λ t. t.pos) (one_token (the.Symbol symbol ∷ []) self.old) result
            self.new }
    {
        match self.rest {
            [token, rest @ ..] if is_symbol(&token.lexeme, symbol) => {
                self.rest = rest;
                Ok(token.pos)
            }
            _ => Err(Stop::Refused(GrammarRule::Unfit)),
        }
    }

    /// Takes the next token if it is this symbol, and answers whether it was.
    #[tactic(auto, unfolding(def_grammar::specs::Kinds::same_kind))]
    pub fn eat(&mut self, symbol: Symbol) -> bool
        ensures { AteIf (the.Symbol symbol) self.old result self.new }
    {
        match self.rest {
            [token, rest @ ..] if is_symbol(&token.lexeme, symbol) => {
                self.rest = rest;
                true
            }
            _ => false,
        }
    }

    /// Takes the next token if it is this symbol, and answers its place.
    #[tactic(auto, unfolding(def_grammar::specs::Kinds::same_kind))]
    pub fn take(&mut self, symbol: Symbol) -> Option<Pos>
        ensures { TookIf (the.Symbol symbol ∷ []) (λ t. t.pos) self.old result self.new }
    {
        match self.rest {
            [token, rest @ ..] if is_symbol(&token.lexeme, symbol) => {
                self.rest = rest;
                Some(token.pos)
            }
            _ => None,
        }
    }

    /// As `eat`, for a caller that does not tell the cases apart.
    pub fn has(&mut self, symbol: Symbol) -> bool
        ensures { HadIf (the.Symbol symbol) self.old result self.new }
    {
        self.eat(symbol)
    }

    /// Takes the next token, which has to be a name.
    #[tactic(auto, unfolding(def_grammar::specs::Kinds::same_kind))]
    pub fn ident(&mut self) -> Result<Ident, Stop>
        ensures { ReadsAs ident_of (one_token (the.Name ∷ []) self.old) result self.new }
    {
        let [token, rest @ ..] = self.rest else {
            return Err(Stop::Refused(GrammarRule::Unfit));
        };
        match &token.lexeme {
            Lexeme::Name(name) => {
                let name = name.clone()?;
                self.rest = rest;
                Ok(Ident {
                    name,
                    pos: token.pos,
                })
            }
            Lexeme::Number(_)
            | Lexeme::Char(_)
            | Lexeme::Text(_)
            | Lexeme::Symbol(_)
            | Lexeme::End => Err(Stop::Refused(GrammarRule::Unfit)),
        }
    }

    /// Takes the next token, which has to be a number, a character or a string.
    #[tactic(auto, unfolding(def_grammar::specs::Kinds::same_kind))]
    pub(crate) fn literal(&mut self) -> Result<Expr, Stop>
        ensures { ReadsAs literal_of (one_token literals self.old) result self.new }
    {
        let [token, rest @ ..] = self.rest else {
            return Err(Stop::Refused(GrammarRule::Unfit));
        };
        let value = match &token.lexeme {
            Lexeme::Number(number) => Expr::Number(token.pos, *number),
            Lexeme::Char(code) => Expr::Char(token.pos, *code),
            Lexeme::Text(text) => Expr::Text(token.pos, text.clone()?),
            Lexeme::Name(_) | Lexeme::Symbol(_) | Lexeme::End => {
                return Err(Stop::Refused(GrammarRule::Unfit));
            }
        };
        self.rest = rest;
        Ok(value)
    }

    /// Whether the next token is the whole of an expression: a name or a literal behind which it does not go on.
    #[tactic(auto, unfolding(def_grammar::specs::Kinds::same_kind))]
    pub(crate) fn is_lone(&self) -> bool
        ensures { result ≡ is_lone self.now }
    {
        match self.rest {
            [token, next, ..] => can_be_lone(&token.lexeme) && !goes_on(&next.lexeme),
            _ => false,
        }
    }

    /// Takes the next token, which has to be a name or a literal, as an expression.
    #[tactic(auto, unfolding(def_grammar::specs::Kinds::same_kind))]
    pub(crate) fn lone(&mut self) -> Result<Expr, Stop>
        ensures { ReadsAs value_of (one_token lone_kinds self.old) result self.new }
    {
        let [token, rest @ ..] = self.rest else {
            return Err(Stop::Refused(GrammarRule::Unfit));
        };
        let value = match &token.lexeme {
            Lexeme::Name(name) => {
                let name = Ident {
                    name: name.clone()?,
                    pos: token.pos,
                };
                let selectors = Items::new(self.alloc);
                Expr::Use(Designator { name, selectors }, None)
            }
            Lexeme::Number(number) => Expr::Number(token.pos, *number),
            Lexeme::Char(code) => Expr::Char(token.pos, *code),
            Lexeme::Text(text) => Expr::Text(token.pos, text.clone()?),
            Lexeme::Symbol(_) | Lexeme::End => {
                return Err(Stop::Refused(GrammarRule::Unfit));
            }
        };
        self.rest = rest;
        Ok(value)
    }

    /// How many levels of nesting are left in a part that this symbol begins. It takes nothing.
    pub fn enter(&self, symbol: Symbol, room: usize) -> Result<usize, Stop>
        ensures { Reads (enter_level (the.Symbol symbol ∷ []) room self.now) result self.now }
    {
        if room > 0 {
            return Ok(room - 1);
        }
        match self.rest {
            [token, ..] if is_symbol(&token.lexeme, symbol) => Err(Stop::Refused(
                GrammarRule::TooDeep,
            )),
            _ => Err(Stop::Refused(GrammarRule::Unfit)),
        }
    }

    /// The same, for a type.
    pub(crate) fn enter_type(&self, room: usize) -> Result<usize, Stop>
        ensures { Reads (enter_level in_type room self.now) result self.now }
    {
        if room > 0 {
            return Ok(room - 1);
        }
        match self.rest {
            [token, ..] if begins_type(kind_of(&token.lexeme)) => {
                Err(Stop::Refused(GrammarRule::TooDeep))
            }
            _ => Err(Stop::Refused(GrammarRule::Unfit)),
        }
    }

    /// The same, for an inner array, which begins with its index.
    pub(crate) fn enter_inner(&self, room: usize) -> Result<usize, Stop>
        ensures { Reads (enter_level in_simple room self.now) result self.now }
    {
        if room > 0 {
            return Ok(room - 1);
        }
        match self.rest {
            [token, ..] if begins_simple(kind_of(&token.lexeme)) => {
                Err(Stop::Refused(GrammarRule::TooDeep))
            }
            _ => Err(Stop::Refused(GrammarRule::Unfit)),
        }
    }

    /// Takes the closing name, which has to be this one.
    #[tactic(auto, unfolding(def_grammar::specs::Kinds::same_kind))]
    pub fn close(&mut self, opening: &Ident) -> Result<(), Stop>
        ensures { ReadsAs (λ t. tt) (closing opening.now.name self.old) result self.new }
    {
        let [token, rest @ ..] = self.rest else {
            return Err(Stop::Refused(GrammarRule::Unfit));
        };
        match &token.lexeme {
            Lexeme::Name(name) => {
                if opening.name.as_bytes() != name.as_bytes() {
                    return Err(Stop::Refused(GrammarRule::Misnamed));
                }
                self.rest = rest;
                Ok(())
            }
            Lexeme::Number(_)
            | Lexeme::Char(_)
            | Lexeme::Text(_)
            | Lexeme::Symbol(_)
            | Lexeme::End => Err(Stop::Refused(GrammarRule::Unfit)),
        }
    }

    /// Takes the token of the text's end.
    #[tactic(auto, unfolding(def_grammar::specs::Kinds::same_kind))]
    pub fn end(&mut self) -> Result<(), Stop>
        ensures { ReadsAs (λ t. tt) (one_token (the.End ∷ []) self.old) result self.new }
    {
        let [token, rest @ ..] = self.rest else {
            return Err(Stop::Refused(GrammarRule::Unfit));
        };
        match &token.lexeme {
            Lexeme::End => {
                self.rest = rest;
                Ok(())
            }
            Lexeme::Name(_)
            | Lexeme::Number(_)
            | Lexeme::Char(_)
            | Lexeme::Text(_)
            | Lexeme::Symbol(_) => Err(Stop::Refused(GrammarRule::Unfit)),
        }
    }

    /// Whether no token is left.
    pub fn is_at_end(&self) -> bool
        ensures { IsTrue result ↔ (self.now ≡ []) }
    {
        self.rest.is_empty()
    }

    /// What is reported if this rule is broken at the next token.
    pub fn refusal(&self, broken: GrammarRule) -> ParseRefusal
        ensures pos { result.pos ≡ place_of self.now }
        ensures number { result.number ≡ number_of broken self.now }
    {
        let (pos, unfit) = match self.rest {
            [] => (Pos { line: 1, col: 1 }, 10),
            [token, ..] => (token.pos, unfit_number(&token.lexeme)),
        };
        let number = match broken {
            GrammarRule::Unfit => unfit,
            GrammarRule::Misnamed => 11,
            GrammarRule::TooDeep => 12,
        };
        ParseRefusal { pos, number }
    }
}
