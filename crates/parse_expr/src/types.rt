//! Types and names in them.

ghost use Rattle.std.specs.Prelude.{◌≡◌, [], ◌∷◌, map, option_to_list, IfOk};
ghost use Rattle.m2_tree.specs.declared.token.Symbol.TheVariants.{Array, LeftParen, Of, RightParen};
ghost use Rattle.def_grammar.specs.Rule.{
  dims_rule,
  field_rule,
  formal_rule,
  idents_rule,
  parameter_rule,
  qual_rule,
  simple_rule,
  type_rule,
};
ghost use Rattle.def_grammar.specs.Grammar.{◌·◌, ◌▸◌, ◌◂◌, nest, opt};
ghost use Rattle.def_grammar.specs.Ebnf.{
  dims,
  field,
  fields,
  idents,
  parameters,
  procedure_type,
  qual,
  range,
  result_type,
  structured_type,
  symbol,
};
ghost use Rattle.def_grammar.specs.Trees.{
  formals_of,
  if_any,
  is_there,
  named_simple,
  present,
  procedure_type_of,
  qualified_pos,
  simple_pos,
  structured_of,
  with_first,
};
ghost use Rattle.def_grammar.specs.Reading.{read, read_rule, Reads, ReadsAs, ReadsOnto};

use crate::begins::{begins_formal, begins_simple};
use crate::cursor::Cursor;
use def_grammar::{Kind, Stop};
use m2_tree::{
    Expr, Field, FormalType, Ident, Parameter, Pos, Qualified, Simple, Symbol, TypeExpr,
};
use std::alloc::{AllocError, Global};
use tree_parts::{Boxed, Items};

/// The formals of a procedure type, and its result.
type Signature = (Items<Parameter>, Option<Qualified>);

fn qualified_pos(name: &Qualified) -> Pos
    ensures { result ≡ qualified_pos name.now }
{
    match &name.module {
        None => name.name.pos,
        Some(module) => module.pos,
    }
}

/// The place of the first token of an index type.
fn simple_pos(simple: &Simple) -> Pos
    ensures { result ≡ simple_pos simple.now }
{
    match simple {
        Simple::Named(name) => qualified_pos(name),
        Simple::Enumeration(pos, _) => *pos,
        Simple::Subrange(None, pos, _, _) => *pos,
        Simple::Subrange(Some(base), _, _, _) => qualified_pos(base),
    }
}

/// Two expressions, each in a box.
fn boxed_pair(
    alloc: Global,
    first: Expr,
    second: Expr,
) -> Result<(Boxed<Expr>, Boxed<Expr>), AllocError>
    ensures { IfOk result (λ pair. pair ≡ (first, second)) }
{
    Ok((Boxed::new(alloc, first)?, Boxed::new(alloc, second)?))
}

impl Cursor<'_> {
    /// One name or more, with commas between them.
    #[tactic(auto, using(def_grammar::proofs::Rules::idents_is, def_grammar::proofs::Loops::lists))]
    pub fn idents(&mut self) -> Result<Items<Ident>, Stop>
        ensures { Reads (read_rule 0 idents_rule self.old) result self.new }
    {
        let mut found = Items::new(self.alloc);
        found.push(self.ident()?)?;
        while self.eat(Symbol::Comma) {
            found.push(self.ident()?)?;
        }
        Ok(found)
    }

    /// A name, or a name of a module.
    #[tactic(auto, using(def_grammar::proofs::Rules::qual_is))]
    fn qualified_name(&mut self) -> Result<Qualified, Stop>
        ensures { Reads (read_rule 0 qual_rule self.old) result self.new }
    {
        let first = self.ident()?;
        if self.eat(Symbol::Dot) {
            let name = self.ident()?;
            return Ok(Qualified {
                module: Some(first),
                name,
            });
        }
        Ok(Qualified {
            module: None,
            name: first,
        })
    }

    /// The type of a result behind a colon, if there is one.
    #[tactic(auto, using(def_grammar::proofs::Flat::qual_flat))]
    pub fn result_type(&mut self) -> Result<Option<Qualified>, Stop>
        ensures { Reads (read result_type 0 self.old) result self.new }
    {
        if !self.eat(Symbol::Colon) {
            return Ok(None);
        }
        let name = self.qualified_name()?;
        Ok(Some(name))
    }

    /// Whether ARRAY OF stands here.
    fn open_array(&mut self) -> Result<bool, Stop>
        ensures { ReadsAs is_there (read (opt (symbol Array ◂ Of)) 0 self.old) result self.new }
    {
        if !self.eat(Symbol::Array) {
            return Ok(false);
        }
        self.expect(Symbol::Of)?;
        Ok(true)
    }

    /// The type of a formal.
    #[tactic(auto, using(def_grammar::proofs::Rules::formal_is))]
    pub fn formal_type(&mut self) -> Result<FormalType, Stop>
        ensures { Reads (read_rule 0 formal_rule self.old) result self.new }
    {
        let is_open = self.open_array()?;
        let of = self.qualified_name()?;
        Ok(FormalType { is_open, of })
    }

    #[tactic(auto, using(def_grammar::proofs::Rules::parameter_is))]
    fn parameter(&mut self) -> Result<Parameter, Stop>
        ensures { Reads (read_rule 0 parameter_rule self.old) result self.new }
    {
        let is_var = self.has(Symbol::Var);
        let of = self.formal_type()?;
        Ok(Parameter { is_var, of })
    }

    #[tactic(auto, using(def_grammar::proofs::Loops::lists))]
    fn parameters(&mut self) -> Result<Items<Parameter>, Stop>
        ensures { ReadsAs with_first (read parameters 0 self.old) result self.new }
    {
        let mut found = Items::new(self.alloc);
        found.push(self.parameter()?)?;
        // The prover has to meet the types that a formal holds before the loop.
        let none: (Option<Ident>, Option<Qualified>, Option<FormalType>) = (None, None, None);
        drop(none);
        while let Some(_comma) = self.take(Symbol::Comma) {
            found.push(self.parameter()?)?;
        }
        Ok(found)
    }

    fn any_parameters(&mut self) -> Result<Items<Parameter>, Stop>
        ensures { ReadsAs if_any (read (opt parameters) 0 self.old) result self.new }
    {
        if !begins_formal(self.peek()) {
            return Ok(Items::new(self.alloc));
        }
        let found = self.parameters()?;
        Ok(found)
    }

    /// What stands in the brackets of a procedure type, and the result.
    fn signature(&mut self) -> Result<Signature, Stop>
        ensures { ReadsAs formals_of
            (read (opt (LeftParen ▸ opt parameters · RightParen ▸ result_type)) 0 self.old)
            result self.new }
    {
        if !self.eat(Symbol::LeftParen) {
            return Ok((Items::new(self.alloc), None));
        }
        let formals = self.any_parameters()?;
        self.expect(Symbol::RightParen)?;
        let of = self.result_type()?;
        Ok((formals, of))
    }

    fn procedure_type(&mut self) -> Result<TypeExpr, Stop>
        ensures { ReadsAs (λ p. procedure_type_of p.0.pos (formals_of p.1))
            (read procedure_type 0 self.old) result self.new }
    {
        let pos = self.expect(Symbol::Procedure)?;
        let (formals, of) = self.signature()?;
        Ok(TypeExpr::Procedure(pos, formals, of))
    }

    /// The place of the bracket, and the bounds.
    fn range(&mut self, room: usize) -> Result<(Pos, (Boxed<Expr>, Boxed<Expr>)), Stop>
        ensures { ReadsAs (λ p. (p.0.pos, p.1)) (read range room self.old) result self.new }
    {
        let pos = self.expect(Symbol::LeftBracket)?;
        let low = self.expr(room)?;
        self.expect(Symbol::DotDot)?;
        let high = self.expr(room)?;
        self.expect(Symbol::RightBracket)?;
        let bounds = boxed_pair(self.alloc, low, high)?;
        Ok((pos, bounds))
    }

    /// A type that begins with its name.
    #[tactic(auto, using(def_grammar::proofs::Flat::qual_flat))]
    fn named_simple(&mut self, room: usize) -> Result<Simple, Stop>
        ensures { ReadsAs (λ p. named_simple p.0 p.1) (read (qual · opt range) room self.old) result
            self.new }
    {
        let name = self.qualified_name()?;
        if !self.sees(Symbol::LeftBracket) {
            return Ok(Simple::Named(name));
        }
        let (pos, (low, high)) = self.range(room)?;
        Ok(Simple::Subrange(Some(name), pos, low, high))
    }

    #[tactic(auto, using(def_grammar::proofs::Flat::idents_flat))]
    fn enumeration(&mut self) -> Result<Simple, Stop>
        ensures { ReadsAs (λ p. Simple.Enumeration p.0.pos p.1)
            (read (symbol LeftParen · idents ◂ RightParen) 0 self.old) result self.new }
    {
        let pos = self.expect(Symbol::LeftParen)?;
        let names = self.idents()?;
        self.expect(Symbol::RightParen)?;
        Ok(Simple::Enumeration(pos, names))
    }

    /// A type that can stand as an index.
    #[tactic(auto, using(def_grammar::proofs::Rules::simple_is, def_grammar::proofs::Flat::idents_flat, def_grammar::proofs::Truth::kinds))]
    fn simple(&mut self, room: usize) -> Result<Simple, Stop>
        ensures { Reads (read_rule room simple_rule self.old) result self.new }
    {
        match self.peek() {
            Kind::Name => {
                let found = self.named_simple(room)?;
                Ok(found)
            }
            Kind::Symbol(Symbol::LeftParen) => {
                let found = self.enumeration()?;
                Ok(found)
            }
            _ => {
                let (pos, (low, high)) = self.range(room)?;
                Ok(Simple::Subrange(None, pos, low, high))
            }
        }
    }

    /// A type, with this many levels of nesting left.
    #[cycle(types)]
    #[tactic(auto, using(def_grammar::proofs::Rules::type_is))]
    pub fn type_expr(&mut self, room: usize) -> Result<TypeExpr, Stop>
        ensures { Reads (read_rule room type_rule self.old) result self.new }
    {
        let inner = self.enter_type(room)?;
        if begins_simple(self.peek()) {
            let found = self.simple(inner)?;
            return Ok(TypeExpr::Simple(found));
        }
        let found = self.structure_type(inner)?;
        Ok(found)
    }

    #[cycle(types)]
    #[tactic(auto, using(def_grammar::proofs::Flat::procedure_type_flat))]
    fn structure_type(&mut self, room: usize) -> Result<TypeExpr, Stop>
        ensures { ReadsAs structured_of (read structured_type room self.old) result self.new }
    {
        if self.sees(Symbol::Array) {
            let pos = self.expect(Symbol::Array)?;
            let (index, element) = self.dims(room)?;
            return Ok(TypeExpr::Array(pos, index, Boxed::new(self.alloc, element)?));
        }
        if self.sees(Symbol::Record) {
            let pos = self.expect(Symbol::Record)?;
            let fields = self.fields(room)?;
            self.expect(Symbol::End)?;
            return Ok(TypeExpr::Record(pos, fields));
        }
        let found = self.procedure_type()?;
        Ok(found)
    }

    /// From the index of an array on: the index, and the elements.
    #[cycle(types)]
    #[tactic(auto, using(def_grammar::proofs::Rules::dims_is))]
    fn dims(&mut self, room: usize) -> Result<(Simple, TypeExpr), Stop>
        ensures { Reads (read_rule room dims_rule self.old) result self.new }
    {
        let index = self.simple(room)?;
        if self.eat(Symbol::Comma) {
            let element = self.inner_array(room)?;
            return Ok((index, element));
        }
        self.expect(Symbol::Of)?;
        let element = self.type_expr(room)?;
        Ok((index, element))
    }

    /// An array behind the comma of `ARRAY a, b OF T`.
    #[cycle(types)]
    #[tactic(auto, using(def_grammar::proofs::Rules::inner_dims_is))]
    fn inner_array(&mut self, room: usize) -> Result<TypeExpr, Stop>
        ensures { ReadsAs (λ p. TypeExpr.Array (simple_pos p.0) p.0 p.1)
            (read (nest dims) room self.old) result self.new }
    {
        let inner = self.enter_inner(room)?;
        let (index, element) = self.dims(inner)?;
        let pos = simple_pos(&index);
        Ok(TypeExpr::Array(pos, index, Boxed::new(self.alloc, element)?))
    }

    #[cycle(types)]
    #[tactic(auto, using(def_grammar::proofs::Loops::lists))]
    fn fields(&mut self, room: usize) -> Result<Items<Field>, Stop>
        ensures { ReadsAs (λ p. present (with_first p)) (read fields room self.old) result
            self.new }
    {
        let mut found = Items::new(self.alloc);
        self.maybe_field(room, &mut found)?;
        while self.eat(Symbol::Semicolon) {
            self.maybe_field(room, &mut found)?;
        }
        Ok(found)
    }

    #[cycle(types)]
    fn maybe_field(&mut self, room: usize, found: &mut Items<Field>) -> Result<(), Stop>
        ensures { ReadsOnto option_to_list (read (opt field) room self.old) found.old result
            found.new self.new }
    {
        if !self.sees_name() {
            return Ok(());
        }
        found.push(self.field(room)?)?;
        Ok(())
    }

    #[cycle(types)]
    #[tactic(auto, using(def_grammar::proofs::Rules::field_is, def_grammar::proofs::Flat::idents_flat))]
    fn field(&mut self, room: usize) -> Result<Field, Stop>
        ensures { Reads (read_rule room field_rule self.old) result self.new }
    {
        let names = self.idents()?;
        self.expect(Symbol::Colon)?;
        let of = self.type_expr(room)?;
        Ok(Field { names, of })
    }
}
