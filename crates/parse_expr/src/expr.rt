//! Expressions and designators.

ghost use Rattle.std.specs.Prelude.{◌≡◌, [], ◌∷◌, ◌++◌, map, IfOk, OnOk};
ghost use Rattle.m2_tree.specs.declared.token.Symbol.TheVariants.{LeftBracket, LeftParen, Not, RightBracket, RightParen};
ghost use Rattle.def_grammar.specs.Rule.{
  args_rule,
  desig_rule,
  expr_rule,
  factor_rule,
  item_rule,
  selectors_rule,
  set_rule,
  sum_rule,
  term_rule,
};
ghost use Rattle.def_grammar.specs.Grammar.{◌·◌, ◌∣◌, ◌◂◌, many, nest, opt};
ghost use Rattle.def_grammar.specs.Ebnf.{
  add_op,
  args,
  expr,
  exprs,
  factor,
  ident,
  items,
  mul_op,
  selector,
  selectors,
  set,
  symbol,
  term,
};
ghost use Rattle.def_grammar.specs.Trees.{
  add_operand,
  begun_by,
  ident_of,
  multiply_operand,
  product_of,
  selectors_of,
  sum_of,
  with_first,
};
ghost use Rattle.def_grammar.specs.Reading.{read, read_rule, Reads, ReadsAs, ReadsOnto};

use crate::begins::{begins_expr, begins_selector};
use crate::cursor::Cursor;
use def_grammar::{Kind, Stop};
use m2_tree::{AddOp, Designator, Expr, Item, MulOp, Operator, Pos, Selector, Sign, Symbol};
use std::alloc::{AllocError, Global};
use tree_parts::{Boxed, Items};

fn sum_of(
    alloc: Global,
    sign: Option<Operator<Sign>>,
    first: Expr,
    others: Items<(Operator<AddOp>, Expr)>,
) -> Result<Expr, AllocError>
    ensures { IfOk result (λ e. e ≡ sum_of sign first others) }
{
    match sign {
        None if others.is_empty() => Ok(first),
        _ => Ok(Expr::Sum(sign, Boxed::new(alloc, first)?, others)),
    }
}

fn product_of(
    alloc: Global,
    first: Expr,
    others: Items<(Operator<MulOp>, Expr)>,
) -> Result<Expr, AllocError>
    ensures { IfOk result (λ e. e ≡ product_of first others) }
{
    if others.is_empty() {
        return Ok(first);
    }
    Ok(Expr::Term(Boxed::new(alloc, first)?, others))
}

/// Adds the indexes of one bracket, which stands at this place.
fn push_indexes(
    found: &mut Items<Selector>,
    bracket: Pos,
    indexes: Items<Expr>,
) -> Result<(), AllocError>
    ensures { OnOk result (found.new ≡ found.old ++ map (Selector.Index bracket) indexes) }
{
    for index in indexes.into_vec() {
        found.push(Selector::Index(bracket, index))?;
    }
    Ok(())
}

impl Cursor<'_> {
    /// An expression, with this many levels of nesting left.
    #[cycle(expr)]
    #[tactic(auto, using(def_grammar::proofs::Rules::expr_is, crate::proofs::Lone::lone_is))]
    pub fn expr(&mut self, room: usize) -> Result<Expr, Stop>
        ensures { Reads (read_rule room expr_rule self.old) result self.new }
    {
        if self.is_lone() {
            let value = self.lone()?;
            return Ok(value);
        }
        let left = self.sum(room)?;
        match self.relation() {
            None => Ok(left),
            Some(op) => {
                let right = self.sum(room)?;
                Ok(Expr::Relation(
                    Boxed::new(self.alloc, left)?,
                    op,
                    Boxed::new(self.alloc, right)?,
                ))
            }
        }
    }

    #[cycle(expr)]
    #[tactic(auto, using(def_grammar::proofs::Rules::sum_is))]
    fn sum(&mut self, room: usize) -> Result<Expr, Stop>
        ensures { Reads (read_rule room sum_rule self.old) result self.new }
    {
        let sign = self.any_sign();
        let first = self.term(room)?;
        let others = self.terms(room)?;
        Ok(sum_of(self.alloc, sign, first, others)?)
    }

    /// The operators and the terms behind the first one.
    #[cycle(expr)]
    fn terms(&mut self, room: usize) -> Result<Items<(Operator<AddOp>, Expr)>, Stop>
        ensures { ReadsAs (map add_operand) (read (many (add_op · term)) room self.old) result
            self.new }
    {
        let mut found = Items::new(self.alloc);
        while let Some(op) = self.add_op() {
            found.push((op, self.term(room)?))?;
        }
        Ok(found)
    }

    #[cycle(expr)]
    #[tactic(auto, using(def_grammar::proofs::Rules::term_is))]
    fn term(&mut self, room: usize) -> Result<Expr, Stop>
        ensures { Reads (read_rule room term_rule self.old) result self.new }
    {
        let first = self.factor(room)?;
        let others = self.factors(room)?;
        Ok(product_of(self.alloc, first, others)?)
    }

    /// The operators and the factors behind the first one.
    #[cycle(expr)]
    fn factors(&mut self, room: usize) -> Result<Items<(Operator<MulOp>, Expr)>, Stop>
        ensures { ReadsAs (map multiply_operand) (read (many (mul_op · factor)) room self.old)
            result self.new }
    {
        let mut found = Items::new(self.alloc);
        while let Some(op) = self.mul_op() {
            found.push((op, self.factor(room)?))?;
        }
        Ok(found)
    }

    #[cycle(expr)]
    #[tactic(auto, using(def_grammar::proofs::Rules::factor_steps, def_grammar::proofs::Truth::kinds))]
    fn factor(&mut self, room: usize) -> Result<Expr, Stop>
        ensures { Reads (read_rule room factor_rule self.old) result self.new }
    {
        match self.peek() {
            Kind::Number | Kind::Char | Kind::Text => {
                let value = self.literal()?;
                Ok(value)
            }
            Kind::Name => {
                let value = self.name_use(room)?;
                Ok(value)
            }
            Kind::Symbol(Symbol::LeftBrace) => {
                let (brace, elements) = self.set(room)?;
                Ok(Expr::Set(None, brace, elements))
            }
            Kind::Symbol(Symbol::Not) => {
                let value = self.negation(room)?;
                Ok(value)
            }
            _ => {
                let value = self.bracket_expr(room)?;
                Ok(value)
            }
        }
    }

    #[cycle(expr)]
    fn negation(&mut self, room: usize) -> Result<Expr, Stop>
        ensures { ReadsAs (λ p. Expr.Not p.0.pos p.1)
            (read (nest (symbol Not · factor)) room self.old) result self.new }
    {
        let inner = self.enter(Symbol::Not, room)?;
        let pos = self.expect(Symbol::Not)?;
        let operand = self.factor(inner)?;
        Ok(Expr::Not(pos, Boxed::new(self.alloc, operand)?))
    }

    #[cycle(expr)]
    fn bracket_expr(&mut self, room: usize) -> Result<Expr, Stop>
        ensures { ReadsAs (λ p. Expr.Bracketed p.0.pos p.1)
            (read (nest (symbol LeftParen · expr ◂ RightParen)) room self.old) result self.new }
    {
        let inner = self.enter(Symbol::LeftParen, room)?;
        let pos = self.expect(Symbol::LeftParen)?;
        let value = self.expr(inner)?;
        self.expect(Symbol::RightParen)?;
        Ok(Expr::Bracketed(pos, Boxed::new(self.alloc, value)?))
    }

    /// What a name begins: a set with its type, or a use with arguments.
    #[cycle(expr)]
    #[tactic(auto, using(def_grammar::proofs::Truth::kinds))]
    fn name_use(&mut self, room: usize) -> Result<Expr, Stop>
        ensures { ReadsAs (λ p. begun_by (ident_of p.0) p.1)
            (read (ident · (set ∣ selectors · opt args)) room self.old) result self.new }
    {
        let name = self.ident()?;
        if self.sees(Symbol::LeftBrace) {
            let (brace, elements) = self.set(room)?;
            return Ok(Expr::Set(Some(name), brace, elements));
        }
        let selectors = self.selectors(room)?;
        if self.sees(Symbol::LeftParen) {
            let args = self.args(room)?;
            let boxed = Boxed::new(self.alloc, args)?;
            return Ok(Expr::Use(Designator { name, selectors }, Some(boxed)));
        }
        Ok(Expr::Use(Designator { name, selectors }, None))
    }

    /// One value, or a range: an element of a set, or a label of a case.
    #[cycle(expr)]
    #[tactic(auto, using(def_grammar::proofs::Rules::item_is))]
    fn item(&mut self, room: usize) -> Result<Item, Stop>
        ensures { Reads (read_rule room item_rule self.old) result self.new }
    {
        let low = self.expr(room)?;
        if self.eat(Symbol::DotDot) {
            let high = self.expr(room)?;
            return Ok(Item {
                low,
                high: Some(high),
            });
        }
        Ok(Item { low, high: None })
    }

    /// A set from its brace on: the place of the brace, and the elements.
    #[cycle(expr)]
    #[tactic(auto, using(def_grammar::proofs::Rules::set_is, def_grammar::proofs::Loops::lists))]
    fn set(&mut self, room: usize) -> Result<(Pos, Items<Item>), Stop>
        ensures { Reads (read_rule room set_rule self.old) result self.new }
    {
        let inner = self.enter(Symbol::LeftBrace, room)?;
        let brace = self.expect(Symbol::LeftBrace)?;
        if !begins_expr(self.peek()) {
            self.expect(Symbol::RightBrace)?;
            return Ok((brace, Items::new(self.alloc)));
        }
        let found = self.items(inner)?;
        self.expect(Symbol::RightBrace)?;
        Ok((brace, found))
    }

    /// One item or more, with commas between them.
    #[cycle(expr)]
    #[tactic(auto, using(def_grammar::proofs::Loops::lists))]
    pub fn items(&mut self, room: usize) -> Result<Items<Item>, Stop>
        ensures { ReadsAs with_first (read items room self.old) result self.new }
    {
        let mut found = Items::new(self.alloc);
        found.push(self.item(room)?)?;
        while self.eat(Symbol::Comma) {
            found.push(self.item(room)?)?;
        }
        Ok(found)
    }

    #[cycle(expr)]
    #[tactic(auto, using(def_grammar::proofs::Loops::lists))]
    fn exprs(&mut self, room: usize) -> Result<Items<Expr>, Stop>
        ensures { ReadsAs with_first (read exprs room self.old) result self.new }
    {
        let mut found = Items::new(self.alloc);
        found.push(self.expr(room)?)?;
        while self.eat(Symbol::Comma) {
            found.push(self.expr(room)?)?;
        }
        Ok(found)
    }

    /// The arguments of a call, with their brackets.
    #[cycle(expr)]
    #[tactic(auto, using(def_grammar::proofs::Rules::args_is))]
    pub fn args(&mut self, room: usize) -> Result<Items<Expr>, Stop>
        ensures { Reads (read_rule room args_rule self.old) result self.new }
    {
        let inner = self.enter(Symbol::LeftParen, room)?;
        self.expect(Symbol::LeftParen)?;
        if !begins_expr(self.peek()) {
            self.expect(Symbol::RightParen)?;
            return Ok(Items::new(self.alloc));
        }
        let found = self.exprs(inner)?;
        self.expect(Symbol::RightParen)?;
        Ok(found)
    }

    #[cycle(expr)]
    fn selectors(&mut self, room: usize) -> Result<Items<Selector>, Stop>
        ensures { Reads (read_rule room selectors_rule self.old) result self.new }
    {
        let mut found = Items::new(self.alloc);
        while begins_selector(self.peek()) {
            self.selector(room, &mut found)?;
        }
        Ok(found)
    }

    /// One field, or the indexes of one bracket.
    #[cycle(expr)]
    fn selector(&mut self, room: usize, found: &mut Items<Selector>) -> Result<(), Stop>
        ensures { ReadsOnto selectors_of (read selector room self.old) found.old result found.new
            self.new }
    {
        if self.sees(Symbol::Dot) {
            let dot = self.expect(Symbol::Dot)?;
            let name = self.ident()?;
            found.push(Selector::Field(dot, name))?;
            return Ok(());
        }
        let (bracket, indexes) = self.subscript(room)?;
        push_indexes(found, bracket, indexes)?;
        Ok(())
    }

    /// The place of a bracket, and the indexes in it.
    #[cycle(expr)]
    fn subscript(&mut self, room: usize) -> Result<(Pos, Items<Expr>), Stop>
        ensures { ReadsAs (λ p. (p.0.pos, with_first p.1))
            (read (nest (symbol LeftBracket · exprs ◂ RightBracket)) room self.old) result
            self.new }
    {
        let inner = self.enter(Symbol::LeftBracket, room)?;
        let bracket = self.expect(Symbol::LeftBracket)?;
        let indexes = self.exprs(inner)?;
        self.expect(Symbol::RightBracket)?;
        Ok((bracket, indexes))
    }

    /// A name with the components that are picked.
    #[tactic(auto, using(def_grammar::proofs::Rules::desig_is))]
    pub fn designator(&mut self, room: usize) -> Result<Designator, Stop>
        ensures { Reads (read_rule room desig_rule self.old) result self.new }
    {
        let name = self.ident()?;
        let selectors = self.selectors(room)?;
        Ok(Designator { name, selectors })
    }
}
