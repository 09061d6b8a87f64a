//! Declarations.

ghost use Rattle.std.specs.Prelude.{◌≡◌, [], ◌∷◌};
ghost use Rattle.m2_tree.specs.declared.token.Symbol.TheVariants.{Begin, Const, LeftParen, Procedure, RightParen, Semicolon, «Type», Var};
ghost use Rattle.def_grammar.specs.declared.kind.Kind.TheVariants as the;
ghost use Rattle.def_grammar.specs.Rule.{
  block_rule,
  constant_rule,
  decl_rule,
  def_rule,
  formals_rule,
  section_rule,
  type_decl_rule,
  variables_rule,
};
ghost use Rattle.def_grammar.specs.Grammar.{◌·◌, ◌▸◌, ◌◂◌, many, named, nest, opt};
ghost use Rattle.def_grammar.specs.Ebnf.{
  constant,
  decl,
  formals,
  ident,
  procedure,
  result_type,
  sections,
  stmts,
  type_decl,
  variables,
};
ghost use Rattle.def_grammar.specs.Tables.{in_decl};
ghost use Rattle.def_grammar.specs.Trees.{formals_of, heading_of, if_any, with_first};
ghost use Rattle.def_grammar.specs.Reading.{is_among, read, read_rule, Reads, ReadsAs};

use def_grammar::{Kind, Stop};
use m2_tree::{
    Block, Constant, Decl, Def, Heading, Qualified, Section, Stmt, Symbol, TypeDecl, Variables,
};
use parse_expr::Cursor;
use parse_stmt::stmts;
use tree_parts::{Boxed, Items};

/// The formals of a procedure, and its result.
type Formals = (Items<Section>, Option<Qualified>);

/// Whether a declaration can begin so.
#[tactic(auto, using(def_grammar::proofs::Truth::symbols), unfolding(def_grammar::specs::Kinds::same_kind))]
pub(crate) fn begins_decl(kind: Kind) -> bool
    ensures { result ≡ is_among kind in_decl }
{
    match kind {
        Kind::Symbol(symbol) => matches!(
            symbol,
            Symbol::Const | Symbol::Type | Symbol::Var | Symbol::Procedure
        ),
        Kind::Name | Kind::Number | Kind::Char | Kind::Text | Kind::End => false,
    }
}

/// Whether formals of one type can begin so.
#[tactic(auto, using(def_grammar::proofs::Truth::symbols), unfolding(def_grammar::specs::Kinds::same_kind))]
fn begins_section(kind: Kind) -> bool
    ensures { result ≡ is_among kind (the.Symbol Var ∷ the.Name ∷ []) }
{
    match kind {
        Kind::Name => true,
        Kind::Symbol(symbol) => matches!(symbol, Symbol::Var),
        Kind::Number | Kind::Char | Kind::Text | Kind::End => false,
    }
}

#[tactic(auto, using(def_grammar::proofs::Rules::constant_is))]
fn constant(cursor: &mut Cursor, room: usize) -> Result<Constant, Stop>
    ensures { Reads (read_rule room constant_rule cursor.old) result cursor.new }
{
    let name = cursor.ident()?;
    cursor.expect(Symbol::Equal)?;
    let value = cursor.expr(room)?;
    cursor.expect(Symbol::Semicolon)?;
    Ok(Constant { name, value })
}

fn constants(cursor: &mut Cursor, room: usize) -> Result<Items<Constant>, Stop>
    ensures { ReadsAs (λ xs. xs) (read (many constant) room cursor.old) result cursor.new }
{
    let mut found = Items::new(cursor.alloc);
    while cursor.sees_name() {
        found.push(constant(cursor, room)?)?;
    }
    Ok(found)
}

fn constant_part(cursor: &mut Cursor, room: usize) -> Result<Items<Constant>, Stop>
    ensures { ReadsAs (λ xs. xs) (read (Const ▸ many constant) room cursor.old) result cursor.new }
{
    cursor.expect(Symbol::Const)?;
    let found = constants(cursor, room)?;
    Ok(found)
}

#[tactic(auto, using(def_grammar::proofs::Rules::type_decl_is))]
fn type_decl(cursor: &mut Cursor, room: usize) -> Result<TypeDecl, Stop>
    ensures { Reads (read_rule room type_decl_rule cursor.old) result cursor.new }
{
    let name = cursor.ident()?;
    cursor.expect(Symbol::Equal)?;
    let of = cursor.type_expr(room)?;
    cursor.expect(Symbol::Semicolon)?;
    Ok(TypeDecl { name, of })
}

fn type_decls(cursor: &mut Cursor, room: usize) -> Result<Items<TypeDecl>, Stop>
    ensures { ReadsAs (λ xs. xs) (read (many type_decl) room cursor.old) result cursor.new }
{
    let mut found = Items::new(cursor.alloc);
    while cursor.sees_name() {
        found.push(type_decl(cursor, room)?)?;
    }
    Ok(found)
}

fn type_part(cursor: &mut Cursor, room: usize) -> Result<Items<TypeDecl>, Stop>
    ensures { ReadsAs (λ xs. xs) (read («Type» ▸ many type_decl) room cursor.old) result
        cursor.new }
{
    cursor.expect(Symbol::Type)?;
    let found = type_decls(cursor, room)?;
    Ok(found)
}

#[tactic(auto, using(def_grammar::proofs::Rules::variables_is, def_grammar::proofs::Flat::idents_flat))]
fn variables(cursor: &mut Cursor, room: usize) -> Result<Variables, Stop>
    ensures { Reads (read_rule room variables_rule cursor.old) result cursor.new }
{
    let names = cursor.idents()?;
    cursor.expect(Symbol::Colon)?;
    let of = cursor.type_expr(room)?;
    cursor.expect(Symbol::Semicolon)?;
    Ok(Variables { names, of })
}

fn all_variables(cursor: &mut Cursor, room: usize) -> Result<Items<Variables>, Stop>
    ensures { ReadsAs (λ xs. xs) (read (many variables) room cursor.old) result cursor.new }
{
    let mut found = Items::new(cursor.alloc);
    while cursor.sees_name() {
        found.push(variables(cursor, room)?)?;
    }
    Ok(found)
}

fn variable_part(cursor: &mut Cursor, room: usize) -> Result<Items<Variables>, Stop>
    ensures { ReadsAs (λ xs. xs) (read (Var ▸ many variables) room cursor.old) result cursor.new }
{
    cursor.expect(Symbol::Var)?;
    let found = all_variables(cursor, room)?;
    Ok(found)
}

#[tactic(auto, using(def_grammar::proofs::Rules::section_is))]
fn section(cursor: &mut Cursor) -> Result<Section, Stop>
    ensures { Reads (read_rule 0 section_rule cursor.old) result cursor.new }
{
    let is_var = cursor.has(Symbol::Var);
    let names = cursor.idents()?;
    cursor.expect(Symbol::Colon)?;
    let of = cursor.formal_type()?;
    Ok(Section { is_var, names, of })
}

#[tactic(auto, using(def_grammar::proofs::Loops::lists))]
fn sections(cursor: &mut Cursor) -> Result<Items<Section>, Stop>
    ensures { ReadsAs with_first (read sections 0 cursor.old) result cursor.new }
{
    let mut found = Items::new(cursor.alloc);
    found.push(section(cursor)?)?;
    while let Some(_semicolon) = cursor.take(Symbol::Semicolon) {
        found.push(section(cursor)?)?;
    }
    Ok(found)
}

fn any_sections(cursor: &mut Cursor) -> Result<Items<Section>, Stop>
    ensures { ReadsAs if_any (read (opt sections) 0 cursor.old) result cursor.new }
{
    if !begins_section(cursor.peek()) {
        return Ok(Items::new(cursor.alloc));
    }
    let found = sections(cursor)?;
    Ok(found)
}

/// The formals of a procedure and its result, if there are brackets.
#[tactic(auto, using(def_grammar::proofs::Rules::formals_is))]
fn formals(cursor: &mut Cursor) -> Result<Formals, Stop>
    ensures { Reads (read_rule 0 formals_rule cursor.old) result cursor.new }
{
    if !cursor.eat(Symbol::LeftParen) {
        return Ok((Items::new(cursor.alloc), None));
    }
    let found = any_sections(cursor)?;
    cursor.expect(Symbol::RightParen)?;
    let of = cursor.result_type()?;
    Ok((found, of))
}

/// The heading of a procedure in a definition module.
#[tactic(auto, using(def_grammar::proofs::Flat::formals_flat))]
fn declared_heading(cursor: &mut Cursor) -> Result<Heading, Stop>
    ensures { ReadsAs (λ p. heading_of p.0 p.1)
        (read (Procedure ▸ ident · formals ◂ Semicolon) 0 cursor.old) result cursor.new }
{
    cursor.expect(Symbol::Procedure)?;
    let name = cursor.ident()?;
    let (formals, result) = formals(cursor)?;
    cursor.expect(Symbol::Semicolon)?;
    Ok(Heading {
        name,
        formals,
        result,
    })
}

/// A declaration of a definition module.
#[tactic(auto, using(def_grammar::proofs::Rules::def_is, def_grammar::proofs::Flat::formals_flat, def_grammar::proofs::Truth::kinds))]
pub(crate) fn def(cursor: &mut Cursor, room: usize) -> Result<Def, Stop>
    ensures { Reads (read_rule room def_rule cursor.old) result cursor.new }
{
    match cursor.peek() {
        Kind::Symbol(Symbol::Const) => {
            let found = constant_part(cursor, room)?;
            Ok(Def::Constants(found))
        }
        Kind::Symbol(Symbol::Type) => {
            let found = type_part(cursor, room)?;
            Ok(Def::Types(found))
        }
        Kind::Symbol(Symbol::Var) => {
            let found = variable_part(cursor, room)?;
            Ok(Def::Variables(found))
        }
        _ => {
            let found = declared_heading(cursor)?;
            Ok(Def::Procedure(found))
        }
    }
}

/// The statements behind a BEGIN, if there is one.
fn body(cursor: &mut Cursor, room: usize) -> Result<Option<Items<Stmt>>, Stop>
    ensures { Reads (read (opt (Begin ▸ stmts)) room cursor.old) result cursor.new }
{
    if !cursor.eat(Symbol::Begin) {
        return Ok(None);
    }
    let found = stmts(cursor, room)?;
    Ok(Some(found))
}

/// Declarations and a body up to the END, with this many levels of nesting left.
#[cycle(decl)]
#[tactic(auto, using(def_grammar::proofs::Rules::block_is))]
pub(crate) fn block(cursor: &mut Cursor, room: usize) -> Result<Block, Stop>
    ensures { Reads (read_rule room block_rule cursor.old) result cursor.new }
{
    let decls = decls(cursor, room)?;
    let body = body(cursor, room)?;
    cursor.expect(Symbol::End)?;
    Ok(Block { decls, body })
}

#[cycle(decl)]
fn decls(cursor: &mut Cursor, room: usize) -> Result<Items<Decl>, Stop>
    ensures { ReadsAs (λ xs. xs) (read (many decl) room cursor.old) result cursor.new }
{
    let mut found = Items::new(cursor.alloc);
    while begins_decl(cursor.peek()) {
        found.push(decl(cursor, room)?)?;
    }
    Ok(found)
}

#[cycle(decl)]
#[tactic(auto, using(def_grammar::proofs::Rules::decl_is, def_grammar::proofs::Truth::kinds))]
fn decl(cursor: &mut Cursor, room: usize) -> Result<Decl, Stop>
    ensures { Reads (read_rule room decl_rule cursor.old) result cursor.new }
{
    match cursor.peek() {
        Kind::Symbol(Symbol::Const) => {
            let found = constant_part(cursor, room)?;
            Ok(Decl::Constants(found))
        }
        Kind::Symbol(Symbol::Type) => {
            let found = type_part(cursor, room)?;
            Ok(Decl::Types(found))
        }
        Kind::Symbol(Symbol::Var) => {
            let found = variable_part(cursor, room)?;
            Ok(Decl::Variables(found))
        }
        _ => {
            let found = procedure(cursor, room)?;
            Ok(found)
        }
    }
}

/// A procedure with its block. The name behind the END is the one behind the PROCEDURE.
#[cycle(decl)]
#[tactic(auto, using(def_grammar::proofs::Rules::procedure_is))]
fn procedure(cursor: &mut Cursor, room: usize) -> Result<Decl, Stop>
    ensures { ReadsAs (λ p. Decl.Procedure (heading_of p.0 p.1.0) p.1.1)
        (read (nest (Procedure ▸ named procedure ◂ Semicolon)) room cursor.old) result
        cursor.new }
{
    let inner = cursor.enter(Symbol::Procedure, room)?;
    cursor.expect(Symbol::Procedure)?;
    let name = cursor.ident()?;
    let ((formals, result), block) = contents(cursor, inner)?;
    cursor.close(&name)?;
    cursor.expect(Symbol::Semicolon)?;
    let heading = Heading {
        name,
        formals,
        result,
    };
    Ok(Decl::Procedure(heading, block))
}

/// What stands between the two names of a procedure.
#[cycle(decl)]
#[tactic(auto, using(def_grammar::proofs::Flat::formals_flat))]
fn contents(cursor: &mut Cursor, room: usize) -> Result<(Formals, Boxed<Block>), Stop>
    ensures { Reads (read procedure room cursor.old) result cursor.new }
{
    let formals = formals(cursor)?;
    cursor.expect(Symbol::Semicolon)?;
    let block = block(cursor, room)?;
    Ok((formals, Boxed::new(cursor.alloc, block)?))
}
