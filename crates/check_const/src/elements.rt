//! Elements of sets.

ghost use Rattle.std.specs.Prelude.{◌≡◌};
ghost use Rattle.check_scope.specs.Elaborated.{least};
ghost use Rattle.check_const.specs.Sets.{set_element, is_element, single, in_set, related_bounds, span_of};

use crate::bounds::bounds_in_order;
use crate::operand::Ordinal;
use crate::operate::common;
use crate::sets::with_span;
use crate::standard::whole_number;
use check_scope::{Elaborated, beside, both, report};
use m2_rule::Rule;
use m2_tree::Pos;
use typed_tree::Value;

/// The number of an element, which is an INTEGER, a CARDINAL or a number without a type.
pub fn set_element(at: Pos, value: &Value) -> Elaborated<Ordinal>
    ensures { result ≡ set_element least at value.now }
{
    match whole_number(value) {
        None => report(at, Rule::WrongType),
        Some(a) => Ok(a),
    }
}

fn is_element(at: Pos, a: Ordinal) -> Elaborated<()>
    ensures { result ≡ is_element least at a }
{
    if !(0 <= a.number && a.number <= 31) {
        return report(at, Rule::OutOfRange);
    }
    Ok(())
}

/// The set of one element.
pub fn single(at: Pos, value: &Value) -> Elaborated<u32>
    ensures { result ≡ single least at value.now }
{
    match set_element(at, value) {
        Err(breach) => Err(breach),
        Ok(a) => match is_element(at, a) {
            Err(breach) => Err(breach),
            Ok(()) => Ok(with_span(0, a.number, a.number)),
        },
    }
}

fn in_set(at: Pos, a: Elaborated<Ordinal>) -> Elaborated<()>
    ensures { result ≡ in_set least at a }
{
    match a {
        Err(breach) => Err(breach),
        Ok(a) => is_element(at, a),
    }
}

fn related_bounds(
    at: Pos,
    high_at: Pos,
    low: Elaborated<Ordinal>,
    high: Elaborated<Ordinal>,
) -> Elaborated<()>
    ensures { result ≡ related_bounds least at high_at low high }
{
    match both(low, high) {
        Err(breach) => Err(breach),
        Ok((a, b)) => match common(a.sort, b.sort) {
            None => report(high_at, Rule::WrongType),
            Some(_) => bounds_in_order(at, a.number, b.number),
        },
    }
}

/// The set of a range of elements.
pub fn span_of(
    at: Pos,
    low: Elaborated<Ordinal>,
    high_at: Pos,
    high: Elaborated<Ordinal>,
) -> Elaborated<u32>
    ensures { result ≡ span_of least at low high_at high }
{
    let within = beside(in_set(at, low), in_set(high_at, high));
    let fine = beside(within, related_bounds(at, high_at, low, high));
    match both(both(low, high), fine) {
        Err(breach) => Err(breach),
        Ok(((a, b), ())) => Ok(with_span(0, a.number, b.number)),
    }
}
