//! What proofs alone know.

ghost use Rattle.std.specs.Prelude.{◌≡◌, List, []};
ghost use Rattle.std.specs.Borrow.{ftrue};
ghost use Rattle.wasm_tree.specs.declared.store.Value.{Value};

use std::marker::Model;
use wasm_tree::Value;

/// Values that proofs alone know. It takes no bytes, and nothing that runs depends on it. On its own it says nothing: what
/// ties the values to memory is a fact of the struct that holds it, as of `Operands`.
#[derive(Drop)]
pub struct Known {
    /// The values, the last on top.
    pub ghost values: { List Value },
}

impl Model for Known {
    ghost also_owns = { λ _. ftrue };
}

/// No values.
pub fn nothing() -> Known
    ensures { result.values ≡ [] }
{
    Known {}
}

/// Any values, which the caller picks from the arguments. It does nothing.
#[inline(always)]
pub fn known_as(
    _first: &Known,
    _second: &Known,
    _value: &Value,
    _place: &usize,
    _count: &usize,
) -> Known
    ghost all: { List Value }
    ensures { result.values ≡ all }
{
    Known {}
}
