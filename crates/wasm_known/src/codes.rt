//! Whether a function is one whose code is known.

ghost use Rattle.std.specs.Prelude.{◌≡◌, ℕ, IsTrue};
ghost use Rattle.wasm_tree.specs.Code.{tree};
ghost use Rattle.wasm_link.specs.Placed.{typed_function};
ghost use Rattle.wasm_helpers.specs.Codes.{check_code, check_typed, copy_code, copy_typed, div_code, div_typed, fill_code, fill_typed, mod_code, mod_typed, one_wide};

use wasm_helpers::{check_ops, copy_ops, div_ops, fill_ops, mod_ops};
use wasm_link::{TypedFunction, has_types};
use wasm_tree::{Locals, Op, ValueType};

const NARROW: ValueType = ValueType::I32;

const WIDE: ValueType = ValueType::I64;

#[tactic(auto, unfolding(wasm_tree::specs::Code::tree, wasm_tree::specs::Code::tree_within))]
fn is_check_code(ops: &[Op]) -> bool
    ensures { IsTrue result → tree ops.now ≡ check_code }
{
    let code = check_ops();
    ops == code.as_slice()
}

fn is_fill_code(ops: &[Op]) -> bool
    ensures { IsTrue result → tree ops.now ≡ fill_code }
{
    let code = fill_ops();
    ops == code.as_slice()
}

fn is_copy_code(ops: &[Op]) -> bool
    ensures { IsTrue result → tree ops.now ≡ copy_code }
{
    let code = copy_ops();
    ops == code.as_slice()
}

fn is_div_code(ops: &[Op]) -> bool
    ensures { IsTrue result → tree ops.now ≡ div_code }
{
    let code = div_ops();
    ops == code.as_slice()
}

fn is_mod_code(ops: &[Op]) -> bool
    ensures { IsTrue result → tree ops.now ≡ mod_code }
{
    let code = mod_ops();
    ops == code.as_slice()
}

/// Whether there is one local, of 64 bits.
fn is_one_wide(groups: &[Locals]) -> bool
    ensures { IsTrue result → groups.now ≡ one_wide }
{
    match groups {
        [group] => group.count == 1 && matches!(group.value_type, ValueType::I64),
        _ => false,
    }
}

/// Whether this function is check.
pub fn is_check(function: TypedFunction<'_>) -> bool
    ensures { IsTrue result → (index : ℕ) × (typed_function function.entry ≡ check_typed index) }
{
    let body = &function.function.body;
    has_types(function.func_type, &[WIDE, WIDE, WIDE, WIDE], &[WIDE])
        && body.locals.is_empty()
        && is_check_code(body.code.ops())
}

/// Whether this function is fill.
pub fn is_fill(function: TypedFunction<'_>) -> bool
    ensures { IsTrue result → (index : ℕ) × (typed_function function.entry ≡ fill_typed index) }
{
    let body = &function.function.body;
    has_types(function.func_type, &[NARROW, NARROW], &[])
        && body.locals.is_empty()
        && is_fill_code(body.code.ops())
}

/// Whether this function is copy.
pub fn is_copy(function: TypedFunction<'_>) -> bool
    ensures { IsTrue result → (index : ℕ) × (typed_function function.entry ≡ copy_typed index) }
{
    let body = &function.function.body;
    has_types(function.func_type, &[NARROW, NARROW, NARROW], &[])
        && body.locals.is_empty()
        && is_copy_code(body.code.ops())
}

/// Whether this function is div.
pub fn is_div(function: TypedFunction<'_>) -> bool
    ensures { IsTrue result → (index : ℕ) × (typed_function function.entry ≡ div_typed index) }
{
    let body = &function.function.body;
    has_types(function.func_type, &[WIDE, WIDE], &[WIDE])
        && body.locals.is_empty()
        && is_div_code(body.code.ops())
}

/// Whether this function is mod.
pub fn is_mod(function: TypedFunction<'_>) -> bool
    ensures { IsTrue result → (index : ℕ) × (typed_function function.entry ≡ mod_typed index) }
{
    let body = &function.function.body;
    has_types(function.func_type, &[WIDE, WIDE], &[WIDE])
        && is_one_wide(body.locals.as_slice())
        && is_mod_code(body.code.ops())
}
