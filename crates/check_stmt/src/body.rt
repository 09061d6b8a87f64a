//! What statements of bodies mean.

ghost use Rattle.std.specs.Prelude.{◌≡◌, None, Ok, IfOk, OnOk};
ghost use Rattle.check_scope.specs.Elaborated.{least, ahead};
ghost use Rattle.check_expr.specs.Meanings.{meanings_of, head};
ghost use Rattle.check_stmt_parts.specs.Lists.{standing, if_statement, base_in, case_statement, repeated_while, repeated_until, loop_statement, within, reported_in};
ghost use Rattle.check_stmt_parts.specs.Simple.{meant_if, in_loop, condition, case_selector, record_of, opened_type, into_record, opened_if};
ghost use Rattle.check_stmt_parts.specs.Control.{course_of, repeated_for};
ghost use Rattle.check_stmt.specs.Statements.{stmt, rest, arm, statements, arms};

use check_scope::{Elaborated, Scope, refusal_beside};
use check_stmt_parts::{
    Around, Ranges, arm_of, assignment, base_in, case_selector, case_statement, chosen_else, close,
    condition, course_of, exit_statement, if_statement, in_loop, labels_in, loop_statement, open,
    opened_type, procedure_call, record_of, repeated_for, repeated_until, repeated_while,
    reported_in, return_statement, standing, with_next, within,
};
use m2_rule::Breach;
use m2_tree::{Arm, Designator, Expr, Ident, Rest, Stmt};
use std::alloc::{AllocError, Global};
use tree_parts::{Boxed, Items};
use typed_tree::{TypeNo, TypedArm, TypedExpr, TypedStmt};

/// Elaborates statements, one after another.
#[cycle(body)]
pub fn statements(
    alloc: Global,
    scope: &mut Scope<Breach>,
    around: &Around<Breach>,
    body: &[Stmt],
) -> Result<Elaborated<Items<TypedStmt>>, AllocError>
    ensures stays { OnOk result (scope.new ≡ scope.old) }
    ensures means { IfOk result (λ j. j ≡ statements least scope.old around.now body.now) }
{
    let mut done = Ok(Items::from_vec(Vec::with_capacity(alloc, body.len())?));
    for written in body {
        let elaborated = statement(alloc, scope, around, written)?;
        done = with_next(done, elaborated)?;
    }
    Ok(done)
}

/// Elaborates a statement.
#[cycle(body)]
#[tactic(auto, using(crate::proofs::Variants::variants))]
fn statement(
    alloc: Global,
    scope: &mut Scope<Breach>,
    around: &Around<Breach>,
    written: &Stmt,
) -> Result<Elaborated<TypedStmt>, AllocError>
    ensures stays { OnOk result (scope.new ≡ scope.old) }
    ensures means { IfOk result (λ j. j ≡ stmt least written.now scope.old around.now) }
{
    match written {
        Stmt::Assign(designator, e) => assignment(alloc, scope, designator, e),
        Stmt::Call(designator, args) => procedure_call(alloc, scope, designator, args),
        Stmt::If(e, body, further) => {
            let first = condition_and_body(alloc, scope, around, body.as_slice(), e)?;
            if_rest(alloc, scope, around, further.get(), first)
        }
        Stmt::Case(e, all, otherwise) => match otherwise {
            None => case_alone(alloc, scope, around, all.as_slice(), e),
            Some(body) => {
                let first = case_arms(alloc, scope, around, all.as_slice(), e)?;
                case_else(alloc, scope, around, body.as_slice(), first)
            }
        },
        Stmt::While(e, body) => while_of(alloc, scope, around, body.as_slice(), e),
        Stmt::Repeat(body, e) => repeat_of(alloc, scope, around, body.as_slice(), e),
        Stmt::Loop(body) => loop_of(alloc, scope, around, body.as_slice()),
        Stmt::Exit(at) => Ok(exit_statement(*at, around)),
        Stmt::Return(at, e) => return_statement(alloc, scope, *at, around.gives, e),
        Stmt::For(name, start, limit, by, body) => {
            for_of(
                alloc,
                scope,
                around,
                body.as_slice(),
                name,
                start.get(),
                limit.get(),
                by,
            )
        }
        Stmt::With(whole, body) => with_of(alloc, scope, around, body.as_slice(), whole),
    }
}

/// Elaborates a condition, and the statements that depend on it.
#[cycle(body)]
fn condition_and_body(
    alloc: Global,
    scope: &mut Scope<Breach>,
    around: &Around<Breach>,
    body: &[Stmt],
    e: &Expr,
) -> Result<(Elaborated<TypedExpr>, Elaborated<Items<TypedStmt>>), AllocError>
    ensures stays { OnOk result (scope.new ≡ scope.old) }
    ensures means { IfOk result
        (λ p. p ≡ (
          condition least scope.old (meanings_of least e.now),
          statements least scope.old around.now body.now,
        )) }
{
    let condition = condition(alloc, scope, e)?;
    let body = statements(alloc, scope, around, body)?;
    Ok((condition, body))
}

/// Elaborates what follows the first part of an IF.
#[cycle(body)]
fn if_rest(
    alloc: Global,
    scope: &mut Scope<Breach>,
    around: &Around<Breach>,
    written: &Rest,
    first: (Elaborated<TypedExpr>, Elaborated<Items<TypedStmt>>),
) -> Result<Elaborated<TypedStmt>, AllocError>
    ensures stays { OnOk result (scope.new ≡ scope.old) }
    ensures means { IfOk result (λ j.
        j ≡ if_statement least first.0 first.1 (rest least written.now scope.old around.now)) }
{
    let further = rest(alloc, scope, around, written)?;
    let (condition, body) = first;
    Ok(if_statement(condition, body, further))
}

/// Elaborates the selector and the arms of a CASE.
#[cycle(body)]
fn case_arms(
    alloc: Global,
    scope: &mut Scope<Breach>,
    around: &Around<Breach>,
    all: &[Arm],
    selector: &Expr,
) -> Result<(Elaborated<(TypeNo, TypedExpr)>, Elaborated<Items<TypedArm>>), AllocError>
    ensures stays { OnOk result (scope.new ≡ scope.old) }
    ensures means { let s = case_selector least scope.old (meanings_of least selector.now) in
        IfOk result (λ p. p ≡ (s, arms least scope.old around.now (base_in s) all.now)) }
{
    let first = case_selector(alloc, scope, selector)?;
    let done = arms(alloc, scope, around, all, base_in(&first))?;
    Ok((first, done))
}

/// Elaborates a CASE without an ELSE.
#[cycle(body)]
fn case_alone(
    alloc: Global,
    scope: &mut Scope<Breach>,
    around: &Around<Breach>,
    all: &[Arm],
    selector: &Expr,
) -> Result<Elaborated<TypedStmt>, AllocError>
    ensures stays { OnOk result (scope.new ≡ scope.old) }
    ensures means { let s = case_selector least scope.old (meanings_of least selector.now) in
        IfOk result (λ j.
        j
        ≡ case_statement least s (arms least scope.old around.now (base_in s) all.now) (Ok None)) }
{
    let (selector, done) = case_arms(alloc, scope, around, all, selector)?;
    Ok(case_statement(selector, done, Ok(None)))
}

/// Elaborates the ELSE of a CASE.
#[cycle(body)]
fn case_else(
    alloc: Global,
    scope: &mut Scope<Breach>,
    around: &Around<Breach>,
    body: &[Stmt],
    first: (Elaborated<(TypeNo, TypedExpr)>, Elaborated<Items<TypedArm>>),
) -> Result<Elaborated<TypedStmt>, AllocError>
    ensures stays { OnOk result (scope.new ≡ scope.old) }
    ensures means { IfOk result (λ j. j ≡ case_statement least first.0 first.1
        (standing (statements least scope.old around.now body.now))) }
{
    let body = statements(alloc, scope, around, body)?;
    let (selector, done) = first;
    Ok(case_statement(selector, done, standing(body)))
}

/// Elaborates a WHILE.
#[cycle(body)]
fn while_of(
    alloc: Global,
    scope: &mut Scope<Breach>,
    around: &Around<Breach>,
    body: &[Stmt],
    e: &Expr,
) -> Result<Elaborated<TypedStmt>, AllocError>
    ensures stays { OnOk result (scope.new ≡ scope.old) }
    ensures means { IfOk result (λ j. j ≡ repeated_while least
        (condition least scope.old (meanings_of least e.now))
        (statements least scope.old around.now body.now)) }
{
    let (condition, body) = condition_and_body(alloc, scope, around, body, e)?;
    Ok(repeated_while(condition, body))
}

/// Elaborates a REPEAT.
#[cycle(body)]
fn repeat_of(
    alloc: Global,
    scope: &mut Scope<Breach>,
    around: &Around<Breach>,
    body: &[Stmt],
    e: &Expr,
) -> Result<Elaborated<TypedStmt>, AllocError>
    ensures stays { OnOk result (scope.new ≡ scope.old) }
    ensures means { IfOk result (λ j. j ≡ repeated_until least
        (statements least scope.old around.now body.now)
        (condition least scope.old (meanings_of least e.now))) }
{
    let (condition, body) = condition_and_body(alloc, scope, around, body, e)?;
    Ok(repeated_until(body, condition))
}

/// Elaborates a LOOP.
#[cycle(body)]
fn loop_of(
    alloc: Global,
    scope: &mut Scope<Breach>,
    around: &Around<Breach>,
    body: &[Stmt],
) -> Result<Elaborated<TypedStmt>, AllocError>
    ensures stays { OnOk result (scope.new ≡ scope.old) }
    ensures means { IfOk result
        (λ j. j ≡ loop_statement (statements least scope.old (in_loop around.now) body.now)) }
{
    let inside = in_loop(around);
    let body = statements(alloc, scope, &inside, body)?;
    Ok(loop_statement(body))
}

/// Elaborates a FOR.
#[cycle(body)]
fn for_of(
    alloc: Global,
    scope: &mut Scope<Breach>,
    around: &Around<Breach>,
    body: &[Stmt],
    name: &Ident,
    start: &Expr,
    limit: &Expr,
    by: &Option<Boxed<Expr>>,
) -> Result<Elaborated<TypedStmt>, AllocError>
    ensures stays { OnOk result (scope.new ≡ scope.old) }
    ensures means { IfOk result (λ j.
        j
        ≡ repeated_for least
        (course_of least scope.old name.now (meanings_of least start.now)
        (meanings_of least limit.now) (meant_if least by.now))
        (statements least scope.old around.now body.now)) }
{
    let course = course_of(alloc, scope, name, start, limit, by)?;
    let body = statements(alloc, scope, around, body)?;
    Ok(repeated_for(course, body))
}

/// Elaborates a WITH. Its statements are looked at, also if there is no record.
#[cycle(body)]
fn with_of(
    alloc: Global,
    scope: &mut Scope<Breach>,
    around: &Around<Breach>,
    body: &[Stmt],
    whole: &Designator,
) -> Result<Elaborated<TypedStmt>, AllocError>
    ensures stays { OnOk result (scope.new ≡ scope.old) }
    ensures means { IfOk result (λ j.
        j ≡ ahead least (record_of least scope.old (head least whole.now))
        (reported_in (statements least (opened_if scope.old (opened_type least scope.old whole.now))
        around.now body.now))
        (λ r. within r.1 (statements least (into_record scope.old r.0) around.now body.now))) }
{
    match record_of(alloc, scope, whole)? {
        Err(breach) => {
            let t = opened_type(alloc, scope, whole)?;
            let rest = opened_if_body(alloc, scope, around, body, t)?;
            Ok(refusal_beside(breach, reported_in(rest)))
        }
        Ok((t, place)) => {
            let body = opened_body(alloc, scope, around, body, t)?;
            Ok(within(place, body))
        }
    }
}

/// Elaborates statements in which the fields of a record of this type stand for themselves, if there is one.
#[cycle(body)]
fn opened_if_body(
    alloc: Global,
    scope: &mut Scope<Breach>,
    around: &Around<Breach>,
    body: &[Stmt],
    t: Option<TypeNo>,
) -> Result<Elaborated<Items<TypedStmt>>, AllocError>
    ensures stays { OnOk result (scope.new ≡ scope.old) }
    ensures means { IfOk result
        (λ j. j ≡ statements least (opened_if scope.old t) around.now body.now) }
{
    match t {
        None => statements(alloc, scope, around, body),
        Some(t) => opened_body(alloc, scope, around, body, t),
    }
}

/// Elaborates statements in which the fields of a record of this type stand for themselves.
#[cycle(body)]
#[tactic(auto, using(check_stmt_parts::proofs::Closing::closed_opened))]
fn opened_body(
    alloc: Global,
    scope: &mut Scope<Breach>,
    around: &Around<Breach>,
    body: &[Stmt],
    t: TypeNo,
) -> Result<Elaborated<Items<TypedStmt>>, AllocError>
    ensures stays { OnOk result (scope.new ≡ scope.old) }
    ensures means { IfOk result
        (λ j. j ≡ statements least (into_record scope.old t) around.now body.now) }
{
    open(scope, t)?;
    let elaborated = statements(alloc, scope, around, body)?;
    close(scope);
    Ok(elaborated)
}

/// Elaborates what follows a part of an IF.
#[cycle(body)]
#[tactic(auto, using(crate::proofs::Variants::variants))]
fn rest(
    alloc: Global,
    scope: &mut Scope<Breach>,
    around: &Around<Breach>,
    written: &Rest,
) -> Result<Elaborated<Option<Items<TypedStmt>>>, AllocError>
    ensures stays { OnOk result (scope.new ≡ scope.old) }
    ensures means { IfOk result (λ j. j ≡ rest least written.now scope.old around.now) }
{
    match written {
        Rest::Elsif(e, body, further) => {
            let first = condition_and_body(alloc, scope, around, body.as_slice(), e)?;
            let step = if_rest(alloc, scope, around, further.get(), first)?;
            chosen_else(alloc, step)
        }
        Rest::Else(otherwise) => match otherwise {
            None => Ok(Ok(None)),
            Some(body) => {
                let body = statements(alloc, scope, around, body.as_slice())?;
                Ok(standing(body))
            }
        },
    }
}

/// Elaborates the arms of a CASE whose selector has this base type, if it has a meaning. No two of their labels have a
/// value in common.
#[cycle(body)]
fn arms(
    alloc: Global,
    scope: &mut Scope<Breach>,
    around: &Around<Breach>,
    all: &[Arm],
    base: Option<TypeNo>,
) -> Result<Elaborated<Items<TypedArm>>, AllocError>
    ensures stays { OnOk result (scope.new ≡ scope.old) }
    ensures means { IfOk result (λ j. j ≡ arms least scope.old around.now base all.now) }
{
    let mut ranges = Ranges::new(alloc);
    let mut done = Ok(Items::from_vec(Vec::with_capacity(alloc, all.len())?));
    for written in all {
        let elaborated = arm(alloc, scope, around, written, base, &mut ranges)?;
        done = with_next(done, elaborated)?;
    }
    Ok(done)
}

/// Elaborates an arm of a CASE, and takes in the values of its labels.
#[cycle(body)]
#[tactic(auto, using(crate::proofs::Variants::arm_is))]
fn arm(
    alloc: Global,
    scope: &mut Scope<Breach>,
    around: &Around<Breach>,
    written: &Arm,
    base: Option<TypeNo>,
    ranges: &mut Ranges,
) -> Result<Elaborated<TypedArm>, AllocError>
    ensures stays { OnOk result (scope.new ≡ scope.old) }
    ensures means { IfOk result
        (λ j. (ranges.new, j) ≡ arm least written.now scope.old around.now base ranges.old) }
{
    let labels = labels_in(alloc, scope, base, ranges, written.labels.as_slice())?;
    let body = statements(alloc, scope, around, written.body.as_slice())?;
    Ok(arm_of(labels, body))
}
