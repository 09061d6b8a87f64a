//! Ranges of points that have no point in common.

ghost use Rattle.std.specs.Prelude.{◌≡◌, [], true, IfOk};
ghost use Rattle.check_stmt_parts.specs.Ranges.{are_apart, is_at_most, is_below, is_met, enter_range};

use std::alloc::{AllocError, Global};
use std::collections::BTreeMap;
use std::marker::Model;

/// A value of a label. Those of one base type stand together, in the order of their numbers.
#[derive(Clone, Copy, PartialEq, Eq, PartialOrd, Ord)]
pub struct Point {
    /// The module that makes the base type, if it is not predeclared.
    pub home: Option<u32>,
    /// The number of the base type there.
    pub place: usize,
    pub number: i64,
}

/// Ranges that have no point in common.
#[derive(Drop)]
pub struct Ranges {
    ends: BTreeMap<Point, Point>,
    ghost apart: { are_apart ends.entries ≡ true },
}

/// Its value is the list of the bounds of each range, in order.
impl Model for Ranges {
    ghost use Rattle.std.specs.Prelude.{List};
    ghost use Rattle.check_stmt_parts.specs.Ranges.{Range};

    ghost Value = { List Range };

    ghost view = { λ r. r.ends.entries };
}

/// Whether a range that ends there has `low` or a point behind it.
fn is_at_most(low: Point, end: Point) -> bool
    ensures { result ≡ is_at_most low end }
{
    low <= end
}

fn is_empty(low: Point, high: Point) -> bool
    ensures { result ≡ is_below high low }
{
    high < low
}

impl Ranges {
    /// No range.
    pub fn new(alloc: Global) -> Ranges
        ensures { result ≡ [] }
    {
        Ranges {
            ends: BTreeMap::new(alloc),
        }
    }

    /// Whether some range has a point from `low` to `high`.
    pub fn is_met(&self, low: Point, high: Point) -> bool
        ensures { result ≡ is_met low high self.now }
    {
        match self.ends.range(..=high).next_back() {
            None => false,
            Some((_, end)) => is_at_most(low, *end),
        }
    }

    /// Takes a range in, unless another has a point of it, and answers whether it was taken in. A range without
    /// points, whose last is in front of its first, adds nothing.
    pub fn take(&mut self, low: Point, high: Point) -> Result<bool, AllocError>
        ensures { IfOk result (λ is_new. (self.new, is_new) ≡ enter_range low high self.old) }
    {
        if self.is_met(low, high) {
            return Ok(false);
        }
        if is_empty(low, high) {
            return Ok(true);
        }
        self.ends.insert(low, high)?;
        Ok(true)
    }
}
