//! Rules that are broken at places.

ghost use Rattle.std.specs.Prelude.{◌≡◌};
ghost use Rattle.m2_rule.specs.Breaches.{breach, is_before, is_less, lesser};

use crate::rule::Rule;
use m2_tree::Pos;

/// A rule that is broken, and where.
#[derive(Clone, Copy, Debug, PartialEq, Eq)]
pub struct Breach {
    /// The place that is refused.
    pub pos: Pos,
    /// The number of the rule.
    pub number: u32,
    /// Whether it is reported only if nothing else is.
    pub is_last: bool,
}

impl Breach {
    /// A rule that is broken at this place.
    pub fn at(pos: Pos, broken: Rule) -> Breach
        ensures { result ≡ breach pos broken }
    {
        Breach {
            pos,
            number: broken.number(),
            is_last: broken.is_last(),
        }
    }
}

/// Whether the first stands before the second: by place, and then by number.
fn is_before(first: Breach, second: Breach) -> bool
    ensures { result ≡ is_before first second }
{
    let (at, other) = (first.pos, second.pos);
    at.line < other.line
        || (at.line == other.line
            && (at.col < other.col || (at.col == other.col && first.number < second.number)))
}

/// Whether the first is less than the second. One that is reported only if nothing else is comes last, whatever its place;
/// else the place decides, and then the number.
pub fn is_less(first: Breach, second: Breach) -> bool
    ensures { result ≡ is_less first second }
{
    if first.is_last {
        second.is_last && is_before(first, second)
    } else {
        second.is_last || is_before(first, second)
    }
}

/// The lesser of two.
pub fn lesser(first: Breach, second: Breach) -> Breach
    ensures { result ≡ lesser first second }
{
    if is_less(second, first) {
        second
    } else {
        first
    }
}
