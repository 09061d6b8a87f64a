//! Operators.

ghost use Rattle.std.specs.Prelude.{◌≡◌};
ghost use Rattle.def_grammar.specs.Tables.{add_ops, mul_ops, relations, signs};
ghost use Rattle.def_grammar.specs.Trees.{
  add_op_of,
  add_op_said,
  mul_op_of,
  mul_op_said,
  relation_of,
  relation_said,
  sign_of,
  sign_said,
};
ghost use Rattle.def_grammar.specs.Reading.{SaysIf, TookAs, TookIf};

use crate::cursor::Cursor;
use m2_tree::{AddOp, Lexeme, MulOp, Operator, RelOp, Sign, Symbol};

#[tactic(auto, using(def_grammar::proofs::Truth::symbols), unfolding(def_grammar::specs::Kinds::same_kind))]
fn relation(lexeme: &Lexeme) -> Option<RelOp>
    ensures { SaysIf relations relation_said lexeme.now result }
{
    match lexeme {
        Lexeme::Symbol(Symbol::Equal) => Some(RelOp::Equal),
        Lexeme::Symbol(Symbol::Unequal) => Some(RelOp::Unequal),
        Lexeme::Symbol(Symbol::Less) => Some(RelOp::Less),
        Lexeme::Symbol(Symbol::AtMost) => Some(RelOp::AtMost),
        Lexeme::Symbol(Symbol::Greater) => Some(RelOp::Greater),
        Lexeme::Symbol(Symbol::AtLeast) => Some(RelOp::AtLeast),
        Lexeme::Symbol(Symbol::In) => Some(RelOp::In),
        _ => None,
    }
}

#[tactic(auto, using(def_grammar::proofs::Truth::symbols), unfolding(def_grammar::specs::Kinds::same_kind))]
fn sign(lexeme: &Lexeme) -> Option<Sign>
    ensures { SaysIf signs sign_said lexeme.now result }
{
    match lexeme {
        Lexeme::Symbol(Symbol::Plus) => Some(Sign::Plus),
        Lexeme::Symbol(Symbol::Minus) => Some(Sign::Minus),
        _ => None,
    }
}

#[tactic(auto, using(def_grammar::proofs::Truth::symbols), unfolding(def_grammar::specs::Kinds::same_kind))]
fn add_op(lexeme: &Lexeme) -> Option<AddOp>
    ensures { SaysIf add_ops add_op_said lexeme.now result }
{
    match lexeme {
        Lexeme::Symbol(Symbol::Plus) => Some(AddOp::Plus),
        Lexeme::Symbol(Symbol::Minus) => Some(AddOp::Minus),
        Lexeme::Symbol(Symbol::Or) => Some(AddOp::Or),
        _ => None,
    }
}

#[tactic(auto, using(def_grammar::proofs::Truth::symbols), unfolding(def_grammar::specs::Kinds::same_kind))]
fn mul_op(lexeme: &Lexeme) -> Option<MulOp>
    ensures { SaysIf mul_ops mul_op_said lexeme.now result }
{
    match lexeme {
        Lexeme::Symbol(Symbol::Star) => Some(MulOp::Times),
        Lexeme::Symbol(Symbol::Slash) => Some(MulOp::Over),
        Lexeme::Symbol(Symbol::Div) => Some(MulOp::Div),
        Lexeme::Symbol(Symbol::Mod) => Some(MulOp::Mod),
        Lexeme::Symbol(Symbol::And) => Some(MulOp::And),
        _ => None,
    }
}

impl Cursor<'_> {
    /// Takes the next token if it is an operator of a relation.
    #[tactic(auto, unfolding(def_grammar::specs::Kinds::same_kind))]
    pub(crate) fn relation(&mut self) -> Option<Operator<RelOp>>
        ensures { TookIf relations relation_of self.old result self.new }
    {
        let [token, rest @ ..] = self.rest else {
            return None;
        };
        let op = relation(&token.lexeme)?;
        self.rest = rest;
        Some(Operator { op, pos: token.pos })
    }

    /// Takes the next token if it is a sign.
    #[tactic(auto, unfolding(def_grammar::specs::Kinds::same_kind))]
    pub(crate) fn sign(&mut self) -> Option<Operator<Sign>>
        ensures { TookIf signs sign_of self.old result self.new }
    {
        let [token, rest @ ..] = self.rest else {
            return None;
        };
        let op = sign(&token.lexeme)?;
        self.rest = rest;
        Some(Operator { op, pos: token.pos })
    }

    /// The same, for a caller that does not tell the cases apart.
    pub(crate) fn any_sign(&mut self) -> Option<Operator<Sign>>
        ensures { TookAs signs sign_of self.old result self.new }
    {
        self.sign()
    }

    /// Takes the next token if it is an operator between terms.
    #[tactic(auto, unfolding(def_grammar::specs::Kinds::same_kind))]
    pub(crate) fn add_op(&mut self) -> Option<Operator<AddOp>>
        ensures { TookIf add_ops add_op_of self.old result self.new }
    {
        let [token, rest @ ..] = self.rest else {
            return None;
        };
        let op = add_op(&token.lexeme)?;
        self.rest = rest;
        Some(Operator { op, pos: token.pos })
    }

    /// Takes the next token if it is an operator between factors.
    #[tactic(auto, unfolding(def_grammar::specs::Kinds::same_kind))]
    pub(crate) fn mul_op(&mut self) -> Option<Operator<MulOp>>
        ensures { TookIf mul_ops mul_op_of self.old result self.new }
    {
        let [token, rest @ ..] = self.rest else {
            return None;
        };
        let op = mul_op(&token.lexeme)?;
        self.rest = rest;
        Some(Operator { op, pos: token.pos })
    }
}
