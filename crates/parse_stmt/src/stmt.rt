//! Statements.

ghost use Rattle.std.specs.Prelude.{◌≡◌, ◌∷◌, option_to_list, IfOk};
ghost use Rattle.std.proofs.Common.{inl};
ghost use Rattle.m2_tree.specs.declared.token.Symbol.TheVariants.{By, Do, End, To};
ghost use Rattle.def_grammar.specs.Rule.{arm_rule, rest_rule, stmt_rule, stmts_rule};
ghost use Rattle.def_grammar.specs.Grammar.{◌·◌, ◌▸◌, ◌◂◌, nest, opt};
ghost use Rattle.def_grammar.specs.Ebnf.{
  arm,
  arms,
  case_stmt,
  elsif_part,
  else_part,
  expr,
  for_stmt,
  if_stmt,
  loop_stmt,
  other_stmt,
  repeat_stmt,
  return_stmt,
  simple_stmt,
  step,
  stmt,
  stmts,
  while_stmt,
  with_stmt,
};
ghost use Rattle.def_grammar.specs.Tables.{in_stmt};
ghost use Rattle.def_grammar.specs.Trees.{
  assigned_or_called,
  case_of,
  for_of,
  if_of,
  other_of,
  present,
  repeat_of,
  rest_of,
  return_of,
  while_of,
  with_first,
  with_of,
};
ghost use Rattle.def_grammar.specs.Reading.{is_among, read, read_rule, Reads, ReadsAs, ReadsOnto};

use def_grammar::{Kind, Stop};
use m2_tree::{Arm, Expr, Ident, Rest, Stmt, Symbol};
use parse_expr::{Cursor, begins_expr};
use std::alloc::{AllocError, Global};
use tree_parts::{Boxed, Items};

/// Whether a statement can begin so.
#[tactic(auto, using(def_grammar::proofs::Truth::symbols), unfolding(def_grammar::specs::Kinds::same_kind))]
fn begins_stmt(kind: Kind) -> bool
    ensures { result ≡ is_among kind in_stmt }
{
    match kind {
        Kind::Name => true,
        Kind::Symbol(symbol) => matches!(
            symbol,
            Symbol::If
                | Symbol::Case
                | Symbol::While
                | Symbol::Repeat
                | Symbol::Loop
                | Symbol::Exit
                | Symbol::Return
                | Symbol::For
                | Symbol::With
        ),
        Kind::Number | Kind::Char | Kind::Text | Kind::End => false,
    }
}

/// An assignment or a call.
fn simple_stmt(cursor: &mut Cursor, room: usize) -> Result<Stmt, Stop>
    ensures { ReadsAs (λ p. assigned_or_called p.0 p.1) (read simple_stmt room cursor.old) result
        cursor.new }
{
    let to = cursor.designator(room)?;
    if cursor.eat(Symbol::Assign) {
        let value = cursor.expr(room)?;
        return Ok(Stmt::Assign(to, value));
    }
    if cursor.sees(Symbol::LeftParen) {
        let args = cursor.args(room)?;
        return Ok(Stmt::Call(to, Some(args)));
    }
    Ok(Stmt::Call(to, None))
}

#[tactic(auto, using(def_grammar::proofs::Truth::kinds))]
fn return_stmt(cursor: &mut Cursor, room: usize) -> Result<Stmt, Stop>
    ensures { ReadsAs return_of (read return_stmt room cursor.old) result cursor.new }
{
    let pos = cursor.expect(Symbol::Return)?;
    if !begins_expr(cursor.peek()) {
        return Ok(Stmt::Return(pos, None));
    }
    let value = cursor.expr(room)?;
    Ok(Stmt::Return(pos, Some(value)))
}

/// The step of a FOR, if one is written.
fn step(cursor: &mut Cursor, room: usize) -> Result<Option<Expr>, Stop>
    ensures { Reads (read step room cursor.old) result cursor.new }
{
    if !cursor.eat(Symbol::By) {
        return Ok(None);
    }
    let value = cursor.expr(room)?;
    Ok(Some(value))
}

/// A FOR of its parts. The only error is that memory ran out.
fn for_of(
    alloc: Global,
    variable: Ident,
    start: Expr,
    limit: Expr,
    step: Option<Expr>,
    body: Items<Stmt>,
) -> Result<Stmt, AllocError>
    ensures { IfOk result (λ s. s ≡ Stmt.For variable start limit step body) }
{
    let step = match step {
        None => None,
        Some(value) => Some(Boxed::new(alloc, value)?),
    };
    let start = Boxed::new(alloc, start)?;
    let limit = Boxed::new(alloc, limit)?;
    Ok(Stmt::For(variable, start, limit, step, body))
}

/// Statements, with this many levels of nesting left. An empty one leaves no trace.
#[cycle(stmt)]
#[tactic(auto, using(def_grammar::proofs::Rules::stmts_is, def_grammar::proofs::Loops::lists))]
pub fn stmts(cursor: &mut Cursor, room: usize) -> Result<Items<Stmt>, Stop>
    ensures { Reads (read_rule room stmts_rule cursor.old) result cursor.new }
{
    let mut found = Items::new(cursor.alloc);
    maybe_stmt(cursor, room, &mut found)?;
    while cursor.eat(Symbol::Semicolon) {
        maybe_stmt(cursor, room, &mut found)?;
    }
    Ok(found)
}

#[cycle(stmt)]
fn maybe_stmt(cursor: &mut Cursor, room: usize, found: &mut Items<Stmt>) -> Result<(), Stop>
    ensures { ReadsOnto option_to_list (read (opt stmt) room cursor.old) found.old result found.new
        cursor.new }
{
    if !begins_stmt(cursor.peek()) {
        return Ok(());
    }
    found.push(stmt(cursor, room)?)?;
    Ok(())
}

#[cycle(stmt)]
#[tactic(auto, using(def_grammar::proofs::Rules::stmt_is, def_grammar::proofs::Truth::kinds))]
fn stmt(cursor: &mut Cursor, room: usize) -> Result<Stmt, Stop>
    ensures { Reads (read_rule room stmt_rule cursor.old) result cursor.new }
{
    match cursor.peek() {
        Kind::Name => {
            let found = simple_stmt(cursor, room)?;
            Ok(found)
        }
        Kind::Symbol(Symbol::If) => {
            let found = if_stmt(cursor, room)?;
            Ok(found)
        }
        Kind::Symbol(Symbol::Case) => {
            let found = case_stmt(cursor, room)?;
            Ok(found)
        }
        Kind::Symbol(Symbol::While) => {
            let found = while_stmt(cursor, room)?;
            Ok(found)
        }
        _ => {
            let found = other_stmt(cursor, room)?;
            Ok(found)
        }
    }
}

#[cycle(stmt)]
#[tactic(auto, using(def_grammar::proofs::Truth::kinds))]
fn other_stmt(cursor: &mut Cursor, room: usize) -> Result<Stmt, Stop>
    ensures { ReadsAs other_of (read other_stmt room cursor.old) result cursor.new }
{
    match cursor.peek() {
        Kind::Symbol(Symbol::Repeat) => {
            let found = repeat_stmt(cursor, room)?;
            Ok(found)
        }
        Kind::Symbol(Symbol::Loop) => {
            let found = loop_stmt(cursor, room)?;
            Ok(found)
        }
        Kind::Symbol(Symbol::Exit) => {
            let pos = cursor.expect(Symbol::Exit)?;
            Ok(Stmt::Exit(pos))
        }
        Kind::Symbol(Symbol::Return) => {
            let found = return_stmt(cursor, room)?;
            Ok(found)
        }
        Kind::Symbol(Symbol::For) => {
            let found = for_stmt(cursor, room)?;
            Ok(found)
        }
        _ => {
            let found = with_stmt(cursor, room)?;
            Ok(found)
        }
    }
}

#[cycle(stmt)]
#[tactic(auto, using(def_grammar::proofs::Rules::if_stmt_is))]
fn if_stmt(cursor: &mut Cursor, room: usize) -> Result<Stmt, Stop>
    ensures { ReadsAs if_of (read (nest if_stmt) room cursor.old) result cursor.new }
{
    let inner = cursor.enter(Symbol::If, room)?;
    cursor.expect(Symbol::If)?;
    let condition = cursor.expr(inner)?;
    cursor.expect(Symbol::Then)?;
    let body = stmts(cursor, inner)?;
    let rest = rest(cursor, inner)?;
    cursor.expect(Symbol::End)?;
    Ok(Stmt::If(condition, body, Boxed::new(cursor.alloc, rest)?))
}

/// What follows the first part of an IF.
#[cycle(stmt)]
#[tactic(auto, using(def_grammar::proofs::Rules::rest_steps))]
fn rest(cursor: &mut Cursor, room: usize) -> Result<Rest, Stop>
    ensures { Reads (read_rule room rest_rule cursor.old) result cursor.new }
{
    if cursor.sees(Symbol::Elsif) {
        let found = elsif_part(cursor, room)?;
        return Ok(found);
    }
    let other = maybe_else(cursor, room)?;
    Ok(Rest::Else(other))
}

#[cycle(stmt)]
#[tactic(auto, using(def_grammar::proofs::Rules::elsif_part_is))]
fn elsif_part(cursor: &mut Cursor, room: usize) -> Result<Rest, Stop>
    ensures { ReadsAs (λ p. rest_of (inl p)) (read (nest elsif_part) room cursor.old) result
        cursor.new }
{
    let inner = cursor.enter(Symbol::Elsif, room)?;
    cursor.expect(Symbol::Elsif)?;
    let condition = cursor.expr(inner)?;
    cursor.expect(Symbol::Then)?;
    let body = stmts(cursor, inner)?;
    let rest = rest(cursor, inner)?;
    Ok(Rest::Elsif(condition, body, Boxed::new(cursor.alloc, rest)?))
}

#[cycle(stmt)]
fn maybe_else(cursor: &mut Cursor, room: usize) -> Result<Option<Items<Stmt>>, Stop>
    ensures { Reads (read else_part room cursor.old) result cursor.new }
{
    if !cursor.eat(Symbol::Else) {
        return Ok(None);
    }
    let body = stmts(cursor, room)?;
    Ok(Some(body))
}

#[cycle(stmt)]
#[tactic(auto, using(def_grammar::proofs::Rules::case_stmt_is))]
fn case_stmt(cursor: &mut Cursor, room: usize) -> Result<Stmt, Stop>
    ensures { ReadsAs case_of (read (nest case_stmt) room cursor.old) result cursor.new }
{
    let inner = cursor.enter(Symbol::Case, room)?;
    cursor.expect(Symbol::Case)?;
    let selector = cursor.expr(inner)?;
    cursor.expect(Symbol::Of)?;
    let found = arms(cursor, inner)?;
    let other = maybe_else(cursor, inner)?;
    cursor.expect(Symbol::End)?;
    Ok(Stmt::Case(selector, found, other))
}

#[cycle(stmt)]
#[tactic(auto, using(def_grammar::proofs::Loops::lists))]
fn arms(cursor: &mut Cursor, room: usize) -> Result<Items<Arm>, Stop>
    ensures { ReadsAs (λ p. present (with_first p)) (read arms room cursor.old) result cursor.new }
{
    let mut found = Items::new(cursor.alloc);
    maybe_arm(cursor, room, &mut found)?;
    while cursor.eat(Symbol::Bar) {
        maybe_arm(cursor, room, &mut found)?;
    }
    Ok(found)
}

#[cycle(stmt)]
fn maybe_arm(cursor: &mut Cursor, room: usize, found: &mut Items<Arm>) -> Result<(), Stop>
    ensures { ReadsOnto option_to_list (read (opt arm) room cursor.old) found.old result found.new
        cursor.new }
{
    if !begins_expr(cursor.peek()) {
        return Ok(());
    }
    found.push(arm(cursor, room)?)?;
    Ok(())
}

#[cycle(stmt)]
#[tactic(auto, using(def_grammar::proofs::Rules::arm_is))]
fn arm(cursor: &mut Cursor, room: usize) -> Result<Arm, Stop>
    ensures { Reads (read_rule room arm_rule cursor.old) result cursor.new }
{
    let labels = cursor.items(room)?;
    cursor.expect(Symbol::Colon)?;
    let body = stmts(cursor, room)?;
    Ok(Arm { labels, body })
}

#[cycle(stmt)]
#[tactic(auto, using(def_grammar::proofs::Rules::while_stmt_is))]
fn while_stmt(cursor: &mut Cursor, room: usize) -> Result<Stmt, Stop>
    ensures { ReadsAs while_of (read (nest while_stmt) room cursor.old) result cursor.new }
{
    let inner = cursor.enter(Symbol::While, room)?;
    cursor.expect(Symbol::While)?;
    let condition = cursor.expr(inner)?;
    cursor.expect(Symbol::Do)?;
    let body = stmts(cursor, inner)?;
    cursor.expect(Symbol::End)?;
    Ok(Stmt::While(condition, body))
}

#[cycle(stmt)]
#[tactic(auto, using(def_grammar::proofs::Rules::repeat_stmt_is))]
fn repeat_stmt(cursor: &mut Cursor, room: usize) -> Result<Stmt, Stop>
    ensures { ReadsAs repeat_of (read (nest repeat_stmt) room cursor.old) result cursor.new }
{
    let inner = cursor.enter(Symbol::Repeat, room)?;
    cursor.expect(Symbol::Repeat)?;
    let body = stmts(cursor, inner)?;
    cursor.expect(Symbol::Until)?;
    let condition = cursor.expr(inner)?;
    Ok(Stmt::Repeat(body, condition))
}

#[cycle(stmt)]
#[tactic(auto, using(def_grammar::proofs::Rules::loop_stmt_is))]
fn loop_stmt(cursor: &mut Cursor, room: usize) -> Result<Stmt, Stop>
    ensures { ReadsAs Stmt.Loop (read (nest loop_stmt) room cursor.old) result cursor.new }
{
    let inner = cursor.enter(Symbol::Loop, room)?;
    cursor.expect(Symbol::Loop)?;
    let body = stmts(cursor, inner)?;
    cursor.expect(Symbol::End)?;
    Ok(Stmt::Loop(body))
}

#[cycle(stmt)]
#[tactic(auto, using(def_grammar::proofs::Rules::for_stmt_is))]
fn for_stmt(cursor: &mut Cursor, room: usize) -> Result<Stmt, Stop>
    ensures { ReadsAs for_of (read (nest for_stmt) room cursor.old) result cursor.new }
{
    let inner = cursor.enter(Symbol::For, room)?;
    cursor.expect(Symbol::For)?;
    let variable = cursor.ident()?;
    cursor.expect(Symbol::Assign)?;
    let start = cursor.expr(inner)?;
    let (limit, (step, body)) = for_rest(cursor, inner)?;
    Ok(for_of(cursor.alloc, variable, start, limit, step, body)?)
}

/// A FOR from its TO on: the limit, the step, and what is repeated.
#[cycle(stmt)]
fn for_rest(cursor: &mut Cursor, room: usize) -> Result<(Expr, (Option<Expr>, Items<Stmt>)), Stop>
    ensures { Reads (read (To ▸ expr · step · Do ▸ stmts ◂ End) room cursor.old) result cursor.new }
{
    cursor.expect(Symbol::To)?;
    let limit = cursor.expr(room)?;
    let step = step(cursor, room)?;
    cursor.expect(Symbol::Do)?;
    let body = stmts(cursor, room)?;
    cursor.expect(Symbol::End)?;
    Ok((limit, (step, body)))
}

#[cycle(stmt)]
#[tactic(auto, using(def_grammar::proofs::Rules::with_stmt_is))]
fn with_stmt(cursor: &mut Cursor, room: usize) -> Result<Stmt, Stop>
    ensures { ReadsAs with_of (read (nest with_stmt) room cursor.old) result cursor.new }
{
    let inner = cursor.enter(Symbol::With, room)?;
    cursor.expect(Symbol::With)?;
    let record = cursor.designator(inner)?;
    cursor.expect(Symbol::Do)?;
    let body = stmts(cursor, inner)?;
    cursor.expect(Symbol::End)?;
    Ok(Stmt::With(record, body))
}
