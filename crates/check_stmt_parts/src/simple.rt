//! Statements without others inside, and the parts of statements that stand before others.

ghost use Rattle.std.specs.Prelude.{◌≡◌, IfOk, OnOk, map};
ghost use Rattle.std.specs.Option.{is_some};
ghost use Rattle.check_scope.specs.Elaborated.{least};
ghost use Rattle.check_scope.specs.Scopes.{fields_at};
ghost use Rattle.check_expr.specs.Meanings.{meanings_of, head};
ghost use Rattle.check_expr.specs.Effects.{call_statement};
ghost use Rattle.check_stmt_parts.specs.Simple.{meant_if, given_back, return_statement, condition, assignment, or_none, selector_of, case_selector, record_of, into_record, out_of_record};

use check_expr::{call_statement, designation, first_of, place_of, value_of};
use check_scope::{
    Elaborated, OpenedRecord, Scope, both, fields_of, of_sort, report, reported_beside,
};
use check_value::{
    Amount, Computed, Designated, Side, assignment_of, side_of, target_at, type_of_number,
    value_suited,
};
use m2_rule::{Breach, Rule};
use m2_tree::{Designator, Expr, Pos};
use std::alloc::{AllocError, Global};
use tree_parts::Items;
use typed_tree::{BOOLEAN, Place, TypeNo, TypedExpr, TypedStmt, Types};

fn given_back(
    types: &Types,
    t: Elaborated<TypeNo>,
    at: Pos,
    value: Elaborated<Computed>,
) -> Elaborated<TypedStmt>
    ensures { result ≡ given_back least types.now t at value }
{
    match both(t, value) {
        Err(breach) => Err(breach),
        Ok((t, value)) => match value_suited(Rule::NotAssignable, types, t, at, value) {
            Err(breach) => Err(breach),
            Ok(e) => Ok(TypedStmt::Give(t, e)),
        },
    }
}

/// RETURN at a place. A value in a body that gives none, and none in a function, are 46. A value that is not assignment
/// compatible with the type of the result is 41, and a constant out of range is 52.
pub fn return_statement(
    alloc: Global,
    scope: &Scope<Breach>,
    at: Pos,
    gives: Option<Elaborated<TypeNo>>,
    value: &Option<Expr>,
) -> Result<Elaborated<TypedStmt>, AllocError>
    ensures { IfOk result
        (λ j. j ≡ return_statement least scope.now at gives (meant_if least value.now)) }
{
    match gives {
        None => match value {
            None => Ok(Ok(TypedStmt::Return)),
            Some(e) => match value_of(alloc, scope, e)? {
                Err(breach) => Ok(reported_beside(at, Rule::WrongReturn, Err(breach))),
                Ok(value) => {
                    drop(value);
                    Ok(report(at, Rule::WrongReturn))
                }
            },
        },
        Some(t) => match value {
            None => Ok(report(at, Rule::WrongReturn)),
            Some(e) => {
                let value = value_of(alloc, scope, e)?;
                Ok(given_back(&scope.types, t, place_of(e), value))
            }
        },
    }
}

/// A condition: 40 if it is no BOOLEAN.
pub fn condition(
    alloc: Global,
    scope: &Scope<Breach>,
    e: &Expr,
) -> Result<Elaborated<TypedExpr>, AllocError>
    ensures { IfOk result (λ j. j ≡ condition least scope.now (meanings_of least e.now)) }
{
    match value_of(alloc, scope, e)? {
        Err(breach) => Ok(Err(breach)),
        Ok(value) => Ok(value_suited(Rule::WrongType, &scope.types, BOOLEAN, place_of(e), value)),
    }
}

/// An assignment. What is no variable is 40, what is not assignment compatible is 41, and a constant out of range is 52.
pub fn assignment(
    alloc: Global,
    scope: &Scope<Breach>,
    designator: &Designator,
    e: &Expr,
) -> Result<Elaborated<TypedStmt>, AllocError>
    ensures { IfOk result (λ j.
        j ≡ assignment least scope.now (head least designator.now) (meanings_of least e.now)) }
{
    let target = target_at(first_of(designator), designation(alloc, scope, designator)?);
    let value = value_of(alloc, scope, e)?;
    Ok(assignment_of(&scope.types, target, place_of(e), value))
}

/// A call as a statement. If there are no brackets there are no arguments.
pub fn procedure_call(
    alloc: Global,
    scope: &Scope<Breach>,
    designator: &Designator,
    args: &Option<Items<Expr>>,
) -> Result<Elaborated<TypedStmt>, AllocError>
    ensures { IfOk result (λ j. j ≡ call_statement least scope.now (head least designator.now)
        (map (meanings_of least) (or_none args.now))) }
{
    match args {
        None => call_statement(alloc, scope, designator, &[]),
        Some(args) => call_statement(alloc, scope, designator, args.as_slice()),
    }
}

fn selector_of(at: Pos, side: Option<Side>) -> Elaborated<(TypeNo, TypedExpr)>
    ensures { result ≡ selector_of least at side }
{
    match side {
        None => report(at, Rule::WrongType),
        Some(Side::Scalar(a)) => match a {
            Amount::Known(a) => {
                let t = type_of_number(a);
                Ok((t, TypedExpr::Constant(t, a.number)))
            }
            Amount::Run(base, e) => Ok((base, e)),
        },
        Some(Side::Set(_)) => report(at, Rule::WrongType),
        Some(Side::Routine(_, _)) => report(at, Rule::WrongType),
        Some(Side::Procedure(_)) => report(at, Rule::WrongType),
    }
}

/// The selector of a CASE with its base type: 40 if it is no scalar.
pub fn case_selector(
    alloc: Global,
    scope: &Scope<Breach>,
    e: &Expr,
) -> Result<Elaborated<(TypeNo, TypedExpr)>, AllocError>
    ensures { IfOk result (λ j. j ≡ case_selector least scope.now (meanings_of least e.now)) }
{
    match value_of(alloc, scope, e)? {
        Err(breach) => Ok(Err(breach)),
        Ok(value) => Ok(selector_of(place_of(e), side_of(value))),
    }
}

/// Whether a type is a record type.
pub fn is_record(types: &Types, t: TypeNo) -> bool
    ensures { result ≡ is_some (fields_at types.now t) }
{
    match fields_of(types, t) {
        None => false,
        Some(_) => true,
    }
}

/// The record of a WITH with its type: 40 if it is no variable of a record type.
pub fn record_of(
    alloc: Global,
    scope: &Scope<Breach>,
    designator: &Designator,
) -> Result<Elaborated<(TypeNo, Place)>, AllocError>
    ensures { IfOk result (λ j. j ≡ record_of least scope.now (head least designator.now)) }
{
    let at = first_of(designator);
    match of_sort(at, Rule::WrongType, designation(alloc, scope, designator)?) {
        Err(breach) => Ok(Err(breach)),
        Ok(designated) => match designated {
            Designated::Variable(t, place) => {
                if !is_record(&scope.types, t) {
                    return Ok(report(at, Rule::WrongType));
                }
                Ok(Ok((t, place)))
            }
            Designated::Value(value) => {
                drop(value);
                Ok(report(at, Rule::WrongType))
            }
            Designated::Open(_, _)
            | Designated::Type(_)
            | Designated::Procedure(_)
            | Designated::Nested(_)
            | Designated::Standard(_)
            | Designated::Module(_) => Ok(report(at, Rule::WrongType)),
        },
    }
}

/// Puts the fields of a record of this type before all other names.
pub fn open(scope: &mut Scope<Breach>, t: TypeNo) -> Result<(), AllocError>
    ensures { OnOk result (scope.new ≡ into_record scope.old t) }
{
    let number = scope.withs.len();
    scope.withs.push(OpenedRecord { number, of: t })
}

/// Takes back what was opened last.
#[tactic(auto, using(crate::proofs::Closing::front_push))]
pub fn close(scope: &mut Scope<Breach>)
    ensures { scope.new ≡ out_of_record scope.old }
{
    let _last = scope.withs.pop();
}
