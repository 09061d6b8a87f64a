//! Calls as statements.

ghost use Rattle.std.specs.Prelude.{◌≡◌, IfOk, map};
ghost use Rattle.check_scope.specs.Elaborated.{least, ◌▷◌};
ghost use Rattle.check_value.specs.Effects.{amount, change_by, set_element, membership_of};
ghost use Rattle.check_expr.specs.Meanings.{meanings_of, head, value_of, wrong_count};
ghost use Rattle.check_expr.specs.Effects.{routine_done, change_target_in, change_statement, set_in, member_by, put_by, standard_done, call_statement};

use crate::body::{actuals, breaches_in_all, designation, stands_for, value_of};
use crate::pieces::{first_of, formals_of, place_of};
use check_scope::{Elaborated, Scope, of_heading, of_sort, refusal_beside, reported_beside};
use check_value::{
    Called, Callee, amount, call_by, callee_of, change_by, change_target, membership_of, proper_of,
    put, set_element, set_variable, signature_of,
};
use m2_rule::{Breach, Rule};
use m2_tree::{Designator, Expr, Pos};
use std::alloc::{AllocError, Global};
use typed_tree::{CARDINAL, Change, Membership, Place, Standard, TypeNo, TypedExpr, TypedStmt};

/// A call of a procedure with this heading.
#[tactic(auto, using(crate::proofs::Variants::actuals_is, crate::proofs::Variants::count_is))]
fn routine_done(
    alloc: Global,
    scope: &Scope<Breach>,
    at: Pos,
    heading: TypeNo,
    callee: Callee,
    args: &[Expr],
) -> Result<Elaborated<TypedStmt>, AllocError>
    ensures { IfOk result (λ j.
        j ≡ routine_done least scope.now at heading callee (map (meanings_of least) args.now)) }
{
    let signature = signature_of(&scope.types, heading);
    match proper_of(at, signature, args.len()) {
        Err(breach) => {
            let rest = breaches_in_all(alloc, scope, args)?;
            Ok(refusal_beside(breach, rest))
        }
        Ok(()) => match actuals(alloc, scope, formals_of(signature), args)? {
            Err(breach) => Ok(Err(breach)),
            Ok(arguments) => Ok(Ok(TypedStmt::Call(call_by(callee, arguments)))),
        },
    }
}

/// A wrong number of arguments, beside what is broken in them.
fn wrong_count(
    alloc: Global,
    scope: &Scope<Breach>,
    at: Pos,
    args: &[Expr],
) -> Result<Elaborated<TypedStmt>, AllocError>
    ensures { IfOk result (λ j.
        j ≡ wrong_count least scope.now at (map (meanings_of least) args.now)) }
{
    let rest = breaches_in_all(alloc, scope, args)?;
    Ok(reported_beside(at, Rule::ArgumentCount, rest))
}

/// The variable of INC or DEC.
fn change_target_at(
    alloc: Global,
    scope: &Scope<Breach>,
    arg: &Expr,
) -> Result<Elaborated<(TypeNo, Place)>, AllocError>
    ensures { IfOk result
        (λ j. j ≡ change_target_in least scope.now (meanings_of least arg.now)) }
{
    let at = place_of(arg);
    match of_sort(at, Rule::NoVariable, stands_for(alloc, scope, arg)?) {
        Err(breach) => Ok(Err(breach)),
        Ok(designated) => Ok(change_target(&scope.types, at, designated)),
    }
}

/// INC and DEC by an amount.
fn changed_by_amount(
    alloc: Global,
    scope: &Scope<Breach>,
    change: Change,
    variable: &Expr,
    by: &Expr,
) -> Result<Elaborated<TypedStmt>, AllocError>
    ensures { IfOk result (λ j.
        j
        ≡ change_by least change (change_target_in least scope.now (meanings_of least variable.now))
        (value_of least scope.now (meanings_of least by.now)
        ▷ amount least (meanings_of least by.now).fixed.at)) }
{
    let place = change_target_at(alloc, scope, variable)?;
    let step = match value_of(alloc, scope, by)? {
        Err(breach) => Err(breach),
        Ok(value) => amount(place_of(by), value),
    };
    Ok(change_by(change, place, step))
}

/// INC and DEC.
fn change_statement(
    alloc: Global,
    scope: &Scope<Breach>,
    at: Pos,
    change: Change,
    args: &[Expr],
) -> Result<Elaborated<TypedStmt>, AllocError>
    ensures { IfOk result
        (λ j. j ≡ change_statement least scope.now at change (map (meanings_of least) args.now)) }
{
    match args {
        [] => wrong_count(alloc, scope, at, args),
        [variable] => {
            let variable = change_target_at(alloc, scope, variable)?;
            Ok(change_by(change, variable, Ok(TypedExpr::Constant(CARDINAL, 1))))
        }
        [variable, by] => changed_by_amount(alloc, scope, change, variable, by),
        [_, _, _, ..] => wrong_count(alloc, scope, at, args),
    }
}

/// The set of INCL or EXCL.
fn set_at(alloc: Global, scope: &Scope<Breach>, arg: &Expr) -> Result<Elaborated<Place>, AllocError>
    ensures { IfOk result
        (λ j. j ≡ set_in least scope.now (meanings_of least arg.now)) }
{
    let at = place_of(arg);
    match of_sort(at, Rule::NoVariable, stands_for(alloc, scope, arg)?) {
        Err(breach) => Ok(Err(breach)),
        Ok(designated) => Ok(set_variable(&scope.types, at, designated)),
    }
}

/// INCL and EXCL of an element.
fn member_of(
    alloc: Global,
    scope: &Scope<Breach>,
    membership: Membership,
    set: &Expr,
    arg: &Expr,
) -> Result<Elaborated<TypedStmt>, AllocError>
    ensures { IfOk result (λ j.
        j
        ≡ membership_of least membership (set_in least scope.now (meanings_of least set.now))
        (value_of least scope.now (meanings_of least arg.now)
        ▷ set_element least (meanings_of least arg.now).fixed.at)) }
{
    let place = set_at(alloc, scope, set)?;
    let element = match value_of(alloc, scope, arg)? {
        Err(breach) => Err(breach),
        Ok(value) => set_element(place_of(arg), value),
    };
    Ok(membership_of(membership, place, element))
}

/// INCL and EXCL.
fn member_by(
    alloc: Global,
    scope: &Scope<Breach>,
    at: Pos,
    membership: Membership,
    args: &[Expr],
) -> Result<Elaborated<TypedStmt>, AllocError>
    ensures { IfOk result
        (λ j. j ≡ member_by least scope.now at membership (map (meanings_of least) args.now)) }
{
    match args {
        [] => wrong_count(alloc, scope, at, args),
        [_] => wrong_count(alloc, scope, at, args),
        [set, arg] => member_of(alloc, scope, membership, set, arg),
        [_, _, _, ..] => wrong_count(alloc, scope, at, args),
    }
}

/// `Console.Put`.
fn put_by(
    alloc: Global,
    scope: &Scope<Breach>,
    at: Pos,
    args: &[Expr],
) -> Result<Elaborated<TypedStmt>, AllocError>
    ensures { IfOk result (λ j. j ≡ put_by least scope.now at (map (meanings_of least) args.now)) }
{
    match args {
        [] => wrong_count(alloc, scope, at, args),
        [arg] => match value_of(alloc, scope, arg)? {
            Err(breach) => Ok(Err(breach)),
            Ok(value) => Ok(put(&scope.types, place_of(arg), value)),
        },
        [_, _, ..] => wrong_count(alloc, scope, at, args),
    }
}

/// A call of a standard procedure. A function is no statement.
fn standard_done(
    alloc: Global,
    scope: &Scope<Breach>,
    at: Pos,
    args: &[Expr],
    standard: Standard,
) -> Result<Elaborated<TypedStmt>, AllocError>
    ensures { IfOk result
        (λ j. j ≡ standard_done least scope.now at (map (meanings_of least) args.now) standard) }
{
    match standard {
        Standard::Inc => change_statement(alloc, scope, at, Change::Increase, args),
        Standard::Dec => change_statement(alloc, scope, at, Change::Decrease, args),
        Standard::Incl => member_by(alloc, scope, at, Membership::Include, args),
        Standard::Excl => member_by(alloc, scope, at, Membership::Exclude, args),
        Standard::Halt => match args {
            [] => Ok(Ok(TypedStmt::Halt)),
            [_, ..] => wrong_count(alloc, scope, at, args),
        },
        Standard::Put => put_by(alloc, scope, at, args),
        Standard::Abs
        | Standard::Cap
        | Standard::Chr
        | Standard::High
        | Standard::Max
        | Standard::Min
        | Standard::Odd
        | Standard::Ord
        | Standard::Val => {
            let rest = breaches_in_all(alloc, scope, args)?;
            Ok(reported_beside(at, Rule::WrongType, rest))
        }
    }
}

/// A call of a designator as a statement. What is no procedure, and a function, are 40 at the designator, a wrong number
/// of arguments is 42 there; each argument is elaborated for itself.
pub fn call_statement(
    alloc: Global,
    scope: &Scope<Breach>,
    designator: &Designator,
    args: &[Expr],
) -> Result<Elaborated<TypedStmt>, AllocError>
    ensures { IfOk result (λ j.
        j
        ≡ call_statement least scope.now (head least designator.now)
        (map (meanings_of least) args.now)) }
{
    let at = first_of(designator);
    let called = match of_heading(designation(alloc, scope, designator)?) {
        Err(breach) => Err(breach),
        Ok(designated) => callee_of(&scope.types, at, designated),
    };
    match called {
        Err(breach) => {
            let rest = breaches_in_all(alloc, scope, args)?;
            Ok(refusal_beside(breach, rest))
        }
        Ok(Called::Routine(heading, callee)) => {
            routine_done(alloc, scope, at, heading, callee, args)
        }
        Ok(Called::Standard(standard)) => standard_done(alloc, scope, at, args, standard),
    }
}
