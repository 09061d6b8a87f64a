//! The control variable of a FOR, and from where to where it goes.

ghost use Rattle.std.specs.Prelude.{◌≡◌, IfOk, Some};
ghost use Rattle.check_scope.specs.Elaborated.{least};
ghost use Rattle.check_value.specs.declared.side.Side.TheVariants as side;
ghost use Rattle.check_expr.specs.Meanings.{meanings_of, value_of};
ghost use Rattle.check_stmt_parts.specs.Simple.{meant_if};
ghost use Rattle.check_stmt_parts.specs.Control.{control_variable, is_own, control_by, control_of, start_at, limit_by, limit_at, step_by, step_of, type_of, base_of, course_of, repeated_for};

use check_const::{fits, whole_number};
use check_expr::{constant_of, place_of, value_of};
use check_scope::{Elaborated, Scope, both, looked_up, of_sort, report};
use check_value::{
    Amount, Class, Computed, Side, bases_suit, class_of, side_of, slot_of, sort_suits, value_suited,
};
use m2_rule::{Breach, Rule};
use m2_tree::{Expr, Ident, Pos};
use std::alloc::{AllocError, Global};
use tree_parts::{Boxed, Items};
use typed_tree::{
    LocalKind, Meaning, Place, Root, TypeNo, TypedExpr, TypedStmt, Types, Value, root_place,
};

/// The control variable of a FOR.
#[derive(Drop)]
pub struct Control {
    pub of: TypeNo,
    /// What its type computes in.
    pub base: TypeNo,
    pub place: Place,
}

/// What stands before the DO of a FOR.
#[derive(Drop)]
pub struct Course {
    pub control: Control,
    pub start: TypedExpr,
    pub limit: TypedExpr,
    /// The step.
    pub by: i64,
}

fn control_variable(types: &Types, at: Pos, t: TypeNo, place: Place) -> Elaborated<Control>
    ensures { result ≡ control_variable least types.now at t place }
{
    match class_of(types, t) {
        Class::Scalar(scalar) => Ok(Control {
            of: t,
            base: scalar.base,
            place,
        }),
        Class::Set => report(at, Rule::WrongControl),
        Class::Procedure => report(at, Rule::WrongControl),
        Class::Whole => report(at, Rule::WrongControl),
    }
}

fn is_own(kind: LocalKind) -> bool
    ensures { result ≡ is_own kind }
{
    match kind {
        LocalKind::Variable => true,
        LocalKind::Value | LocalKind::Alias | LocalKind::Open => false,
    }
}

fn control_by(
    alloc: Global,
    scope: &Scope<Breach>,
    at: Pos,
    meaning: Meaning,
) -> Elaborated<Control>
    ensures { result ≡ control_by least scope.now at meaning }
{
    match meaning {
        Meaning::Variable(variable) => {
            if variable.home != scope.types.home {
                return report(at, Rule::WrongControl);
            }
            let place = root_place(alloc, Root::Global(variable));
            control_variable(&scope.types, at, variable.of, place)
        }
        Meaning::Local(variable) => {
            if !(is_own(variable.kind) && variable.level == scope.level) {
                return report(at, Rule::WrongControl);
            }
            let slot = slot_of(scope.level, variable);
            let place = root_place(alloc, Root::Local(slot));
            control_variable(&scope.types, at, variable.of, place)
        }
        Meaning::Ahead => report(at, Rule::Ahead),
        Meaning::Constant(_) => report(at, Rule::WrongControl),
        Meaning::Type(_, _) => report(at, Rule::WrongControl),
        Meaning::Field(_) => report(at, Rule::WrongControl),
        Meaning::Procedure(_) => report(at, Rule::WrongControl),
        Meaning::LocalProcedure(_) => report(at, Rule::WrongControl),
        Meaning::Standard(_) => report(at, Rule::WrongControl),
        Meaning::Module(_) => report(at, Rule::WrongControl),
    }
}

fn control_of(
    alloc: Global,
    scope: &Scope<Breach>,
    name: &Ident,
) -> Result<Elaborated<Control>, AllocError>
    ensures { IfOk result (λ j. j ≡ control_of least scope.now name.now) }
{
    match of_sort(name.pos, Rule::WrongControl, looked_up(scope, name)?) {
        Err(breach) => Ok(Err(breach)),
        Ok(meaning) => Ok(control_by(alloc, scope, name.pos, meaning)),
    }
}

fn limit_amount(base: TypeNo, at: Pos, a: Amount) -> Elaborated<TypedExpr>
    ensures { result ≡ limit_by least base at (Some (side.Scalar a)) }
{
    match a {
        Amount::Known(a) => {
            if !sort_suits(base, a.sort) {
                return report(at, Rule::NotAssignable);
            }
            match a.sort {
                None => {
                    if !fits(Some(base), a.number) {
                        return report(at, Rule::OutOfRange);
                    }
                    Ok(TypedExpr::Constant(base, a.number))
                }
                Some(t) => Ok(TypedExpr::Constant(t, a.number)),
            }
        }
        Amount::Run(other, e) => {
            if !bases_suit(base, other) {
                return report(at, Rule::NotAssignable);
            }
            Ok(e)
        }
    }
}

fn limit_by(base: TypeNo, at: Pos, limit: Option<Side>) -> Elaborated<TypedExpr>
    ensures { result ≡ limit_by least base at limit }
{
    match limit {
        None => report(at, Rule::NotAssignable),
        Some(Side::Scalar(a)) => limit_amount(base, at, a),
        Some(Side::Set(_)) => report(at, Rule::NotAssignable),
        Some(Side::Routine(_, _)) => report(at, Rule::NotAssignable),
        Some(Side::Procedure(_)) => report(at, Rule::NotAssignable),
    }
}

fn step_by(at: Pos, value: &Value) -> Elaborated<i64>
    ensures { result ≡ step_by least at value.now }
{
    match whole_number(value) {
        None => report(at, Rule::WrongType),
        Some(a) => {
            if a.number == 0 {
                return report(at, Rule::ZeroStep);
            }
            Ok(a.number)
        }
    }
}

/// The step: a constant, or else 1.
fn step_of(
    alloc: Global,
    scope: &Scope<Breach>,
    by: &Option<Boxed<Expr>>,
) -> Result<Elaborated<i64>, AllocError>
    ensures { IfOk result (λ j. j ≡ step_of least scope.now (meant_if least by.now)) }
{
    match by {
        None => Ok(Ok(1)),
        Some(by) => {
            let by = by.get();
            match constant_of(alloc, scope, by)? {
                Err(breach) => Ok(Err(breach)),
                Ok(value) => Ok(step_by(place_of(by), &value)),
            }
        }
    }
}

/// The start of a FOR.
fn start_of(
    alloc: Global,
    scope: &Scope<Breach>,
    control: &Elaborated<Control>,
    e: &Expr,
) -> Result<Elaborated<TypedExpr>, AllocError>
    ensures { IfOk result (λ j.
        j
        ≡ start_at least scope.now.types (meanings_of least e.now).fixed.at (type_of control.now)
        (value_of least scope.now (meanings_of least e.now))) }
{
    let value = value_of(alloc, scope, e)?;
    let t = match control {
        Err(breach) => Err(*breach),
        Ok(control) => Ok(control.of),
    };
    match both(t, value) {
        Err(breach) => Ok(Err(breach)),
        Ok((t, value)) => Ok(value_suited(
            Rule::NotAssignable,
            &scope.types,
            t,
            place_of(e),
            value,
        )),
    }
}

/// The limit of a FOR.
fn limit_of(
    alloc: Global,
    scope: &Scope<Breach>,
    control: &Elaborated<Control>,
    e: &Expr,
) -> Result<Elaborated<TypedExpr>, AllocError>
    ensures { IfOk result (λ j. j ≡ limit_at least (meanings_of least e.now).fixed.at
        (base_of control.now) (value_of least scope.now (meanings_of least e.now))) }
{
    let value = value_of(alloc, scope, e)?;
    let base = match control {
        Err(breach) => Err(*breach),
        Ok(control) => Ok(control.base),
    };
    match both(base, value) {
        Err(breach) => Ok(Err(breach)),
        Ok((base, value)) => Ok(limit_by(base, place_of(e), side_of(value))),
    }
}

/// What stands before the DO of a FOR. The control variable is a scalar variable of the module, or of the procedure
/// itself: else 47. The start is assignment compatible with it, and the limit has a type that goes with its own: else
/// 41. The step is a constant whole number, else 34 or 40, and not zero: else 48. A number out of range is 52.
pub fn course_of(
    alloc: Global,
    scope: &Scope<Breach>,
    name: &Ident,
    start: &Expr,
    limit: &Expr,
    by: &Option<Boxed<Expr>>,
) -> Result<Elaborated<Course>, AllocError>
    ensures { IfOk result (λ j. j ≡ course_of least scope.now name.now (meanings_of least start.now)
        (meanings_of least limit.now) (meant_if least by.now)) }
{
    let control = control_of(alloc, scope, name)?;
    let start = start_of(alloc, scope, &control, start)?;
    let limit = limit_of(alloc, scope, &control, limit)?;
    let by = step_of(alloc, scope, by)?;
    match both(both(control, start), both(limit, by)) {
        Err(breach) => Ok(Err(breach)),
        Ok(((control, start), (limit, by))) => Ok(Ok(Course {
            control,
            start,
            limit,
            by,
        })),
    }
}

/// FOR.
pub fn repeated_for(
    course: Elaborated<Course>,
    body: Elaborated<Items<TypedStmt>>,
) -> Elaborated<TypedStmt>
    ensures { result ≡ repeated_for least course body }
{
    match both(course, body) {
        Err(breach) => Err(breach),
        Ok((course, body)) => {
            let Course {
                control,
                start,
                limit,
                by,
            } = course;
            let Control { of, base: _, place } = control;
            Ok(TypedStmt::For(place, of, start, limit, by, body))
        }
    }
}
