//! Numbers that are cut to 32 bits.

ghost use Rattle.std.specs.Prelude.{◌≡◌, ◌+◌, suc};
ghost use Rattle.emit_buffer.specs.Cut.{cut};

use crate::exact::{Exact, exact_as, nothing};
use std::marker::Model;

/// The greatest number of 32 bits.
const GREATEST: u32 = 4_294_967_295;

/// A number, cut to 32 bits. Contracts see the whole number, and so no sum fails.
#[derive(Drop)]
pub struct Amount {
    kept: u32,
    exact: Exact,
}

impl Model for Amount {
    ghost use Rattle.std.specs.Prelude.{◌≡◌, ℕ};
    ghost use Rattle.emit_buffer.specs.Cut.{cut};

    ghost Value = { ℕ };

    ghost view = { λ n. n.exact.value };

    ghost invariant = { λ n. n.kept ≡ cut n.exact.value };
}

/// A number, cut to 32 bits.
#[inline(always)]
pub fn cut(n: usize) -> u32
    ensures { result ≡ cut n }
{
    n.min(GREATEST as usize) as u32
}

/// The sum, cut to 32 bits.
#[inline(always)]
pub fn cut_sum(first: u32, second: u32) -> u32
    ensures { result ≡ cut (first + second) }
{
    first.saturating_add(second)
}

impl Default for Amount {
    fn default() -> Amount {
        Amount::of(0)
    }
}

impl Amount {
    /// This number.
    #[inline(always)]
    pub fn of(n: usize) -> Amount
        ensures { result ≡ n }
    {
        Amount {
            kept: cut(n),
            exact: exact_as(&nothing(), &nothing(), &n),
        }
    }

    /// The number, cut to 32 bits.
    #[inline(always)]
    pub fn kept(&self) -> u32
        ensures { result ≡ cut self.now }
    {
        self.kept
    }

    /// The sum.
    #[inline(always)]
    pub fn plus(&self, more: &Amount) -> Amount
        ensures { result ≡ self.now + more.now }
    {
        Amount {
            kept: cut_sum(self.kept, more.kept),
            exact: exact_as(&self.exact, &more.exact, &0),
        }
    }

    /// The next number.
    #[inline(always)]
    pub fn next(&self) -> Amount
        ensures { result ≡ suc self.now }
    {
        Amount {
            kept: cut_sum(self.kept, 1),
            exact: exact_as(&self.exact, &self.exact, &0),
        }
    }

    /// The same number once more.
    #[inline(always)]
    pub fn again(&self) -> Amount
        ensures { result ≡ self.now }
    {
        Amount {
            kept: self.kept,
            exact: exact_as(&self.exact, &self.exact, &0),
        }
    }
}
