//! Numbers that proofs alone know.

ghost use Rattle.std.specs.Prelude.{◌≡◌, ℕ};
ghost use Rattle.std.specs.Borrow.{ftrue};

use std::marker::Model;

/// A number that proofs alone know. It takes no bytes, and nothing that runs depends on it. On its own it says nothing:
/// what ties it to memory is the invariant of `Amount`.
#[derive(Drop)]
pub struct Exact {
    pub ghost value: { ℕ },
}

impl Model for Exact {
    ghost also_owns = { λ _. ftrue };
}

/// The number 0.
#[inline(always)]
pub fn nothing() -> Exact
    ensures { result.value ≡ 0 }
{
    Exact {}
}

/// Any number, which the caller picks from the arguments. It does nothing.
#[inline(always)]
pub fn exact_as(_first: &Exact, _second: &Exact, _number: &usize) -> Exact
    ghost number: { ℕ }
    ensures { result.value ≡ number }
{
    Exact {}
}
