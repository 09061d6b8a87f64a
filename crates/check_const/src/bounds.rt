//! Bounds of ranges: of subranges, of labels and of elements of sets.

ghost use Rattle.std.specs.Prelude.{◌≡◌};
ghost use Rattle.check_scope.specs.Elaborated.{least, ◌▷◌};
ghost use Rattle.check_const.specs.Bounds.{ordinal_in, is_of_base, fits_base, bounds_in_order, are_ordered};

use crate::number::fits;
use crate::operand::{Operand, Ordinal};
use crate::operate::common;
use check_scope::{Elaborated, both, report};
use m2_rule::Rule;
use m2_tree::Pos;
use typed_tree::{TypeNo, are_same, is_numeric};

/// A bound at a place: 40 if it is no scalar.
pub fn ordinal_in(at: Pos, operand: Option<Operand>) -> Elaborated<Ordinal>
    ensures { result ≡ ordinal_in least at operand }
{
    match operand {
        None => report(at, Rule::WrongType),
        Some(Operand::Set(_)) => report(at, Rule::WrongType),
        Some(Operand::Scalar(a)) => Ok(a),
    }
}

/// Whether a bound of this type goes with this base type. A number without a type goes with INTEGER and CARDINAL.
pub fn is_of_base(base: TypeNo, sort: Option<TypeNo>) -> bool
    ensures { result ≡ is_of_base base sort }
{
    match sort {
        None => is_numeric(base),
        Some(t) => are_same(t, base),
    }
}

/// A bound at a place, which takes the base if it is a number without a type: 52 if it does not fit.
pub fn fits_base(at: Pos, base: TypeNo, a: Ordinal) -> Elaborated<()>
    ensures { result ≡ fits_base least at base a.sort a.number }
{
    match a.sort {
        Some(_) => Ok(()),
        None => {
            if !fits(Some(base), a.number) {
                return report(at, Rule::OutOfRange);
            }
            Ok(())
        }
    }
}

/// The bounds of a range at a place, in order: 59 if it is empty.
pub fn bounds_in_order(at: Pos, low: i64, high: i64) -> Elaborated<()>
    ensures { result ≡ bounds_in_order least at low high }
{
    if high < low {
        return report(at, Rule::EmptyRange);
    }
    Ok(())
}

/// The order of two bounds that go together. Bounds that do not are reported elsewhere.
pub fn are_ordered(at: Pos, low: Elaborated<Ordinal>, high: Elaborated<Ordinal>) -> Elaborated<()>
    ensures { result ≡ are_ordered least at low high }
{
    match both(low, high) {
        Err(breach) => Err(breach),
        Ok((a, b)) => match common(a.sort, b.sort) {
            None => Ok(()),
            Some(_) => bounds_in_order(at, a.number, b.number),
        },
    }
}
