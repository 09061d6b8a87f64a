//! Subranges.

ghost use Rattle.std.specs.Prelude.{◌≡◌};
ghost use Rattle.check_scope.specs.Elaborated.{least, ◌▷◌};
ghost use Rattle.check_type_expr.specs.Subranges.{bound_of, between, subrange_between, bound_in, are_bounds, under};

use check_const::{
    Ordinal, are_ordered, bounds_in_order, common, fits_base, is_of_base, operand_of, ordinal_in,
};
use check_scope::{Elaborated, beside, both, report};
use m2_rule::Rule;
use m2_tree::Pos;
use typed_tree::{CARDINAL, INTEGER, Scalar, TypeNo, Value};

/// A bound, which is a scalar.
pub fn bound_of(at: Pos, value: Elaborated<Value>) -> Elaborated<Ordinal>
    ensures { result ≡ bound_of least at value }
{
    match value {
        Err(breach) => Err(breach),
        Ok(value) => ordinal_in(at, operand_of(&value)),
    }
}

fn between(
    at: Pos,
    a: Ordinal,
    high_at: Pos,
    b: Ordinal,
    sort: Option<Option<TypeNo>>,
) -> Elaborated<Scalar>
    ensures { result ≡ between least at a high_at b sort }
{
    match sort {
        None => report(high_at, Rule::WrongType),
        Some(sort) => {
            let base = match sort {
                None => if a.number < 0 { INTEGER } else { CARDINAL },
                Some(t) => t,
            };
            let fit = beside(fits_base(at, base, a), fits_base(high_at, base, b));
            match beside(bounds_in_order(at, a.number, b.number), fit) {
                Err(breach) => Err(breach),
                Ok(()) => Ok(Scalar {
                    base,
                    low: a.number,
                    high: b.number,
                }),
            }
        }
    }
}

/// The subrange between two bounds, with no type named.
pub fn subrange_between(
    at: Pos,
    low: Elaborated<Ordinal>,
    high_at: Pos,
    high: Elaborated<Ordinal>,
) -> Elaborated<Scalar>
    ensures { result ≡ subrange_between least at low high_at high }
{
    match both(low, high) {
        Err(breach) => Err(breach),
        Ok((a, b)) => between(at, a, high_at, b, common(a.sort, b.sort)),
    }
}

fn bound_in(of: Elaborated<Scalar>, at: Pos, a: Elaborated<Ordinal>) -> Elaborated<()>
    ensures { result ≡ bound_in least of at a }
{
    match both(of, a) {
        Err(breach) => Err(breach),
        Ok((of, a)) => {
            if !is_of_base(of.base, a.sort) {
                return report(at, Rule::WrongType);
            }
            if !(of.low <= a.number && a.number <= of.high) {
                return report(at, Rule::OutOfRange);
            }
            Ok(())
        }
    }
}

fn are_bounds(
    of: Elaborated<Scalar>,
    at: Pos,
    low: Elaborated<Ordinal>,
    high_at: Pos,
    high: Elaborated<Ordinal>,
) -> Elaborated<()>
    ensures { result ≡ are_bounds least of at low high_at high }
{
    let within = beside(bound_in(of, at, low), bound_in(of, high_at, high));
    beside(within, are_ordered(at, low, high))
}

/// The subrange between two bounds, under a named type.
pub fn under(
    of: Elaborated<Scalar>,
    at: Pos,
    low: Elaborated<Ordinal>,
    high_at: Pos,
    high: Elaborated<Ordinal>,
) -> Elaborated<Scalar>
    ensures { result ≡ under least of at low high_at high }
{
    let fine = are_bounds(of, at, low, high_at, high);
    match both(both(of, both(low, high)), fine) {
        Err(breach) => Err(breach),
        Ok(((of, (a, b)), ())) => Ok(Scalar {
            base: of.base,
            low: a.number,
            high: b.number,
        }),
    }
}
