//! How many scalar cells types have.

ghost use Rattle.std.specs.Prelude.{◌≡◌};
ghost use Rattle.check_scope.specs.Elaborated.{least};
ghost use Rattle.check_type_expr.specs.Cells.{count_up, count_at, plus, array_cells, is_index};

use check_scope::{Elaborated, report};
use m2_rule::Rule;
use m2_tree::Pos;
use typed_tree::{TypeNo, Types, is_numeric, scalar_of};

/// The most scalar cells that a type may have.
pub const MAX_CELLS: u32 = 131_072;

/// How many values a scalar type has, counted up to one more than the most cells.
pub fn count_at(types: &Types, t: TypeNo) -> u32
    ensures { result ≡ count_at types.now t }
{
    match scalar_of(types, t) {
        None => 0,
        Some(s) => {
            if s.high < s.low {
                return 0;
            }
            let distance = s.high.abs_diff(s.low);
            if distance > u64::from(MAX_CELLS) {
                MAX_CELLS + 1
            } else {
                distance as u32 + 1
            }
        }
    }
}

/// Two numbers of cells together, counted up to one more than the most.
pub fn plus(a: u32, b: u32) -> u32
    ensures { result ≡ plus a b }
{
    let sum = u64::from(a) + u64::from(b);
    if sum > u64::from(MAX_CELLS) {
        MAX_CELLS + 1
    } else {
        sum as u32
    }
}

/// The cells of an array of `count` elements.
pub fn array_cells(at: Pos, count: u32, cells: u32) -> Elaborated<u32>
    ensures { result ≡ array_cells least at count cells }
{
    match u64::from(count).checked_mul(u64::from(cells)) {
        None => report(at, Rule::LargeType),
        Some(all) => {
            if all > u64::from(MAX_CELLS) {
                return report(at, Rule::LargeType);
            }
            Ok(all as u32)
        }
    }
}

/// Whether a type can stand as an index: a scalar, but not INTEGER or CARDINAL as a whole.
pub fn is_index(types: &Types, t: TypeNo) -> bool
    ensures { result ≡ is_index types.now t }
{
    match scalar_of(types, t) {
        None => false,
        Some(_) => !is_numeric(t),
    }
}
