//! Labels of CASE.

ghost use Rattle.std.specs.Prelude.{◌≡◌, IfOk, Some, Ok};
ghost use Rattle.check_scope.specs.Elaborated.{least, ◌▷◌};
ghost use Rattle.check_expr.specs.Meanings.{meanings_of};
ghost use Rattle.check_const.specs.Common.{common};
ghost use Rattle.check_value.specs.Classes.{class_at};
ghost use Rattle.check_stmt_parts.specs.Labels.{no_constant, suits_selector, suits_without, without_number, constant_bound, value_bound, bound_by, bound_of, suits_if, bound_suits, bounds_of, ordered_both, bounds_ordered, label_range, label_between, base_of, module_of, point_of, enter_label, item_label, with_item, labels_in};

use crate::lists::with_next;
use crate::{Point, Ranges};
use check_const::{Operand, Ordinal, are_ordered, fits_base, is_of_base, operand_of};
use check_expr::{place_of, stands_for};
use check_scope::{Elaborated, Meaningless, Scope, beside, both, report};
use check_value::{Class, Computed, Designated, class_of};
use m2_rule::{Breach, Rule};
use m2_tree::{Expr, Item, Pos};
use std::alloc::{AllocError, Global};
use tree_parts::Items;
use typed_tree::{Home, INTEGER, Label, TypeNo, Types, are_same, is_numeric};

/// A bound that is no constant: 49 at the label, and 40 at the bound if its type is another than the selector's.
fn no_constant(alike: bool, label: Pos, at: Pos) -> Elaborated<Option<Ordinal>>
    ensures { result ≡ no_constant least alike label at }
{
    let of_type = if alike {
        Ok(())
    } else {
        report(at, Rule::WrongType)
    };
    let unknown: Elaborated<Option<Ordinal>> = report(label, Rule::WrongLabel);
    match both(of_type, unknown) {
        Err(breach) => Err(breach),
        Ok(((), a)) => Ok(a),
    }
}

fn suits_selector(base: Option<TypeNo>, other: TypeNo) -> bool
    ensures { result ≡ suits_selector base other }
{
    match base {
        None => true,
        Some(base) => are_same(other, base),
    }
}

/// Whether what has no base type may be a label, as far as types go.
fn suits_without(base: Option<TypeNo>) -> bool
    ensures { result ≡ suits_without base }
{
    base.is_none()
}

/// A constant that has no number, as a set or a string. If the selector has no meaning, none is asked for.
fn without_number(base: Option<TypeNo>, at: Pos) -> Elaborated<Option<Ordinal>>
    ensures { result ≡ without_number least base at }
{
    match base {
        None => Ok(None),
        Some(_) => report(at, Rule::WrongType),
    }
}

fn constant_bound(
    base: Option<TypeNo>,
    at: Pos,
    operand: Option<Operand>,
) -> Elaborated<Option<Ordinal>>
    ensures { result ≡ constant_bound least base at operand }
{
    match operand {
        None => without_number(base, at),
        Some(Operand::Set(_)) => without_number(base, at),
        Some(Operand::Scalar(a)) => Ok(Some(a)),
    }
}

fn value_bound(
    base: Option<TypeNo>,
    label: Pos,
    at: Pos,
    value: Computed,
) -> Elaborated<Option<Ordinal>>
    ensures { result ≡ value_bound least base label at value }
{
    match value {
        Computed::Constant(value) => constant_bound(base, at, operand_of(&value)),
        Computed::Scalar(_, other, _) => no_constant(suits_selector(base, other), label, at),
        Computed::Set(_) => no_constant(suits_without(base), label, at),
        Computed::Routine(_, _) => no_constant(suits_without(base), label, at),
        Computed::Procedure(_) => no_constant(suits_without(base), label, at),
        Computed::Whole(_, _) => no_constant(suits_without(base), label, at),
        Computed::Untaken => no_constant(suits_without(base), label, at),
    }
}

fn bound_by(
    types: &Types,
    base: Option<TypeNo>,
    label: Pos,
    at: Pos,
    designated: Designated,
) -> Elaborated<Option<Ordinal>>
    ensures { result ≡ bound_by least types.now base label at designated }
{
    match designated {
        Designated::Value(value) => value_bound(base, label, at, value),
        Designated::Variable(t, _) => match class_of(types, t) {
            Class::Scalar(scalar) => no_constant(suits_selector(base, scalar.base), label, at),
            Class::Set | Class::Procedure | Class::Whole => no_constant(
                suits_without(base),
                label,
                at,
            ),
        },
        Designated::Open(_, _) => no_constant(suits_without(base), label, at),
        Designated::Type(_) => no_constant(false, label, at),
        Designated::Procedure(_) => no_constant(suits_without(base), label, at),
        Designated::Nested(_) => report(at, Rule::NoProcedureValue),
        Designated::Standard(_) => report(at, Rule::NoProcedureValue),
        Designated::Module(_) => no_constant(false, label, at),
    }
}

/// A bound of a label at a place. A procedure is no constant, and one in a procedure no value, whatever its heading.
fn bound_of(
    alloc: Global,
    scope: &Scope<Breach>,
    base: Option<TypeNo>,
    label: Pos,
    e: &Expr,
) -> Result<Elaborated<Option<Ordinal>>, AllocError>
    ensures { IfOk result (λ j. j ≡ bound_of least scope.now base label (meanings_of least e.now)) }
{
    let at = place_of(e);
    match stands_for(alloc, scope, e)? {
        Ok(designated) => Ok(bound_by(&scope.types, base, label, at, designated)),
        Err(Meaningless::Broken(breach)) => Ok(Err(breach)),
        Err(Meaningless::Headless(true, _)) => Ok(report(at, Rule::NoProcedureValue)),
        Err(Meaningless::Headless(false, _)) => Ok(no_constant(suits_without(base), label, at)),
    }
}

/// The rule that a number is one of the base type.
fn suits_if(base: Option<TypeNo>, at: Pos, number: Option<Ordinal>) -> Elaborated<()>
    ensures { result ≡ suits_if least base at number }
{
    match number {
        None => Ok(()),
        Some(a) => match base {
            None => Ok(()),
            Some(base) => {
                if !is_of_base(base, a.sort) {
                    return report(at, Rule::WrongType);
                }
                fits_base(at, base, a)
            }
        },
    }
}

fn bound_suits(base: Option<TypeNo>, at: Pos, bound: Elaborated<Option<Ordinal>>) -> Elaborated<()>
    ensures { result ≡ bound_suits least base at bound }
{
    match bound {
        Err(breach) => Err(breach),
        Ok(number) => suits_if(base, at, number),
    }
}

/// The numbers of both bounds of a label, if both have one.
fn bounds_of(low: Option<Ordinal>, high: Option<Ordinal>) -> Option<(Ordinal, Ordinal)>
    ensures { result ≡ bounds_of low high }
{
    match low {
        None => None,
        Some(a) => match high {
            None => None,
            Some(b) => Some((a, b)),
        },
    }
}

/// The rule that the numbers of bounds that go together are in order.
fn ordered_both(at: Pos, low: Option<Ordinal>, high: Option<Ordinal>) -> Elaborated<()>
    ensures { result ≡ ordered_both least at low high }
{
    match low {
        None => Ok(()),
        Some(a) => match high {
            None => Ok(()),
            Some(b) => are_ordered(at, Ok(a), Ok(b)),
        },
    }
}

fn bounds_ordered(
    at: Pos,
    low: Elaborated<Option<Ordinal>>,
    high: Elaborated<Option<Ordinal>>,
) -> Elaborated<()>
    ensures { result ≡ bounds_ordered least at low high }
{
    match both(low, high) {
        Err(breach) => Err(breach),
        Ok((first, last)) => ordered_both(at, first, last),
    }
}

/// The bounds of a label of a range of values.
fn label_range(
    base: Option<TypeNo>,
    at: Pos,
    low: Elaborated<Option<Ordinal>>,
    high_at: Pos,
    high: Elaborated<Option<Ordinal>>,
) -> Elaborated<Option<(Ordinal, Ordinal)>>
    ensures { result ≡ label_range least base at low high_at high }
{
    let suit = beside(bound_suits(base, at, low), bound_suits(base, high_at, high));
    let fine = beside(suit, bounds_ordered(at, low, high));
    match both(both(low, high), fine) {
        Err(breach) => Err(breach),
        Ok(((first, last), ())) => Ok(bounds_of(first, last)),
    }
}

/// The bounds of a label that goes from one expression to another.
#[tactic(auto, using(crate::proofs::Spans::range_is))]
fn range_from(
    alloc: Global,
    scope: &Scope<Breach>,
    base: Option<TypeNo>,
    low: &Expr,
    high: &Expr,
) -> Result<Elaborated<Option<(Ordinal, Ordinal)>>, AllocError>
    ensures { IfOk result (λ j. j ≡ label_between least scope.now base (meanings_of least low.now)
        (Some (meanings_of least high.now))) }
{
    let at = place_of(low);
    let high_at = place_of(high);
    let first = bound_of(alloc, scope, base, at, low)?;
    let last = bound_of(alloc, scope, base, at, high)?;
    Ok(label_range(base, at, first, high_at, last))
}

/// The bounds of an item of a list of labels.
fn label_of(
    alloc: Global,
    scope: &Scope<Breach>,
    base: Option<TypeNo>,
    item: &Item,
) -> Result<Elaborated<Option<(Ordinal, Ordinal)>>, AllocError>
    ensures { IfOk result (λ j. j ≡ item_label least scope.now base item.now) }
{
    match &item.high {
        None => {
            let at = place_of(&item.low);
            let bound = bound_of(alloc, scope, base, at, &item.low)?;
            match both(bound, bound_suits(base, at, bound)) {
                Err(breach) => Ok(Err(breach)),
                Ok((number, ())) => Ok(Ok(bounds_of(number, number))),
            }
        }
        Some(high) => range_from(alloc, scope, base, &item.low, high),
    }
}

/// The base type of a bound. It is INTEGER for all whole numbers, so that these are held against each other.
fn base_of(sort: Option<TypeNo>) -> TypeNo
    ensures { result ≡ base_of sort }
{
    match sort {
        None => INTEGER,
        Some(t) => { if is_numeric(t) { INTEGER } else { t } }
    }
}

fn module_of(home: Home) -> Option<u32>
    ensures { result ≡ module_of home }
{
    match home {
        Home::Predeclared => None,
        Home::Module(module) => Some(module),
    }
}

fn point_of(bound: Ordinal) -> Point
    ensures { result ≡ point_of bound }
{
    let base = base_of(bound.sort);
    Point {
        home: module_of(base.home),
        place: base.number,
        number: bound.number,
    }
}

/// Takes the values of a label in, and answers whether no label in front has one of them. Labels of two bases have no
/// value in common, and a label whose bounds are of two bases has none.
fn enter_label(ranges: &mut Ranges, low: Ordinal, high: Ordinal) -> Result<bool, AllocError>
    ensures { IfOk result (λ is_new. (ranges.new, is_new) ≡ enter_label (low, high) ranges.old) }
{
    if !are_same(base_of(low.sort), base_of(high.sort)) {
        return Ok(true);
    }
    ranges.take(point_of(low), point_of(high))
}

/// Takes the label of an item in: 49 if another has a value of it.
fn with_item(
    alloc: Global,
    scope: &Scope<Breach>,
    base: Option<TypeNo>,
    ranges: &mut Ranges,
    done: Elaborated<Items<Label>>,
    item: &Item,
) -> Result<Elaborated<Items<Label>>, AllocError>
    ensures { IfOk result
        (λ j. (ranges.new, j) ≡ with_item least scope.now base (ranges.old, done) item.now) }
{
    let at = place_of(&item.low);
    match label_of(alloc, scope, base, item)? {
        Err(breach) => with_next(done, Err(breach)),
        Ok(None) => Ok(done),
        Ok(Some((low, high))) => {
            let next = if enter_label(ranges, low, high)? {
                Ok(Label {
                    low: low.number,
                    high: high.number,
                })
            } else {
                report(at, Rule::WrongLabel)
            };
            with_next(done, next)
        }
    }
}

/// The labels of an arm, with the values of the labels of the arms before it. A bound is a constant: else 49 at the label.
/// A standard procedure, and one in a procedure, is 53. If the selector has a meaning, a bound has its base type: else 40,
/// and 52 if it is out of range. A range whose bounds are not in order is
/// 35, and a label with a value of another of its base type is 49; whole numbers are of one base here.
pub fn labels_in(
    alloc: Global,
    scope: &Scope<Breach>,
    base: Option<TypeNo>,
    ranges: &mut Ranges,
    items: &[Item],
) -> Result<Elaborated<Items<Label>>, AllocError>
    ensures { IfOk result
        (λ j. (ranges.new, j) ≡ labels_in least scope.now base ranges.old items.now) }
{
    let mut labels = Ok(Items::new(alloc));
    for item in items {
        labels = with_item(alloc, scope, base, ranges, labels, item)?;
    }
    Ok(labels)
}
