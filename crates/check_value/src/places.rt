//! What places take.

ghost use Rattle.std.specs.Prelude.{◌≡◌, length, IfOk};
ghost use Rattle.check_scope.specs.Elaborated.{least};
ghost use Rattle.check_value.specs.Suits.{bases_suit, sort_suits, scalar_suited, procedure_suited, value_suited, text_fits, whole_suited, value_for_place};

use crate::agree::headings_agree;
use crate::class::{Class, array_of, class_of};
use crate::computed::Computed;
use crate::side::{Amount, Side, side_of};
use check_scope::{Elaborated, report};
use m2_rule::Rule;
use m2_tree::{Pos, Quoted};
use tree_parts::Shared;
use typed_tree::{
    CHAR, Place, Scalar, TypeNo, TypedExpr, Types, Value, are_same, is_numeric, scalar_of,
};

/// A value as a place takes it.
#[derive(Drop)]
pub enum Accepted {
    /// A value of a scalar type, of BITSET or of a procedure type.
    Value(TypedExpr),
    /// An array or a record.
    Whole(Place),
    /// A string for an array of CHAR.
    Text(Shared<Quoted>),
}

/// Whether two bases are one, or INTEGER and CARDINAL.
pub fn bases_suit(asked: TypeNo, base: TypeNo) -> bool
    ensures { result ≡ bases_suit asked base }
{
    are_same(asked, base) || (is_numeric(asked) && is_numeric(base))
}

/// Whether a constant suits this base: a number without a type suits INTEGER and CARDINAL.
pub fn sort_suits(asked: TypeNo, sort: Option<TypeNo>) -> bool
    ensures { result ≡ sort_suits asked sort }
{
    match sort {
        None => is_numeric(asked),
        Some(base) => bases_suit(asked, base),
    }
}

fn scalar_suited(
    broken: Rule,
    t: TypeNo,
    scalar: Scalar,
    at: Pos,
    x: Option<Side>,
) -> Elaborated<TypedExpr>
    ensures { result ≡ scalar_suited least broken t scalar at x }
{
    match x {
        Some(Side::Scalar(Amount::Known(a))) => {
            if !sort_suits(scalar.base, a.sort) {
                return report(at, broken);
            }
            if !(scalar.low <= a.number && a.number <= scalar.high) {
                return report(at, Rule::OutOfRange);
            }
            Ok(TypedExpr::Constant(t, a.number))
        }
        Some(Side::Scalar(Amount::Run(base, e))) => {
            if !bases_suit(scalar.base, base) {
                return report(at, broken);
            }
            Ok(e)
        }
        _ => report(at, broken),
    }
}

fn procedure_suited(
    broken: Rule,
    types: &Types,
    t: TypeNo,
    at: Pos,
    x: Option<Side>,
) -> Elaborated<TypedExpr>
    ensures { result ≡ procedure_suited least broken types.now t at x }
{
    match x {
        Some(Side::Routine(u, e)) => {
            if !are_same(u, t) {
                return report(at, broken);
            }
            Ok(e)
        }
        Some(Side::Procedure(procedure)) => {
            if !headings_agree(types, t, procedure.heading) {
                return report(at, broken);
            }
            Ok(TypedExpr::Procedure(procedure))
        }
        _ => report(at, broken),
    }
}

/// A value for a place of this type, which is no array and no record. One that is not assignment compatible breaks the
/// rule of this number, and a constant out of range is 52, both at the value.
pub fn value_suited(
    broken: Rule,
    types: &Types,
    t: TypeNo,
    at: Pos,
    x: Computed,
) -> Elaborated<TypedExpr>
    ensures { result ≡ value_suited least broken types.now t at x }
{
    match class_of(types, t) {
        Class::Scalar(scalar) => scalar_suited(broken, t, scalar, at, side_of(x)),
        Class::Set => match side_of(x) {
            Some(Side::Set(e)) => Ok(e),
            _ => report(at, broken),
        },
        Class::Procedure => procedure_suited(broken, types, t, at, side_of(x)),
        Class::Whole => report(at, broken),
    }
}

/// Whether a type is an array of CHAR with at least `length` elements.
pub fn text_fits(types: &Types, t: TypeNo, length: usize) -> bool
    ensures { result ≡ text_fits types.now t length }
{
    let Some((index, element)) = array_of(types, t) else {
        return false;
    };
    let Some(index) = scalar_of(types, index) else {
        return false;
    };
    let distance = index.high.abs_diff(index.low);
    are_same(element, CHAR) && !(distance < (length as u64).saturating_sub(1))
}

fn whole_suited(
    broken: Rule,
    types: &Types,
    t: TypeNo,
    at: Pos,
    x: Computed,
) -> Elaborated<Accepted>
    ensures { result ≡ whole_suited least broken types.now t at x }
{
    match x {
        Computed::Constant(Value::Text(text)) => {
            if !text_fits(types, t, text.get().as_bytes().len()) {
                return report(at, broken);
            }
            Ok(Accepted::Text(text))
        }
        Computed::Whole(u, place) => {
            if !are_same(u, t) {
                return report(at, broken);
            }
            Ok(Accepted::Whole(place))
        }
        _ => report(at, broken),
    }
}

/// A value for a place of this type. One that is not assignment compatible breaks the rule of this number, and a constant
/// out of range is 52, both at the value.
pub fn value_for_place(
    broken: Rule,
    types: &Types,
    t: TypeNo,
    at: Pos,
    x: Computed,
) -> Elaborated<Accepted>
    ensures { result ≡ value_for_place least broken types.now t at x }
{
    match class_of(types, t) {
        Class::Whole => whole_suited(broken, types, t, at, x),
        Class::Scalar(_) | Class::Set | Class::Procedure => {
            match value_suited(broken, types, t, at, x) {
                Err(breach) => Err(breach),
                Ok(e) => Ok(Accepted::Value(e)),
            }
        }
    }
}
