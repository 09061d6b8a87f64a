//! What the code of one function may name (Core 1.0, section 3.3).

ghost use Rattle.std.specs.Prelude.{◌≡◌, ◌↔◌, List, ◌++◌, ◌∷◌, [], IsTrue, All, slice_get};
ghost use Rattle.std.specs.Option.{option_map, option_and_then};
ghost use Rattle.wasm_tree.specs.declared.kinds.ValueType.{ValueType};
ghost use Rattle.wasm_tree.specs.declared.kinds.ValueType.TheVariants.{I32};
ghost use Rattle.wasm_valid.specs.CodeScope.{scope_of};
ghost use Rattle.wasm_tree.specs.declared.code.Op.{Op};
ghost use Rattle.wasm_tree.specs.Code.{label_of};
ghost use Rattle.wasm_tree.specs.Validity.{result_types, numeric_params, numeric_result};
ghost use Rattle.wasm_valid.specs.Framed.{frame_context, labels_of, locals_of};
ghost use Rattle.wasm_valid.specs.Opened.{open_instruction};
ghost use Rattle.wasm_valid.specs.Typing.{change, change_of, call_change, called_slot, Exchanges, Leaves};

use crate::code_scope::Scope;
use crate::grouped::{Groups, in_groups};
use crate::operands::Effect;
use tree_parts::{Items, at};
use wasm_tree::{Numeric, Op, ValueType, label_of};

/// What the code of one function may name, but for the labels of its blocks.
#[derive(Clone, Copy)]
pub struct Frame<'a> {
    pub scope: Scope<'a>,
    pub params: &'a [ValueType],
    /// The declared locals, which stand behind the parameters.
    pub locals: Groups<'a>,
    /// What the function gives.
    pub returns: Option<ValueType>,
}

#[tactic(auto, using(crate::proofs::Located::local_front, crate::proofs::Located::local_behind))]
fn local(frame: &Frame<'_>, index: u32) -> Option<ValueType>
    ensures { result ≡ slice_get (locals_of frame.now) index }
{
    let index = index as usize;
    let count = frame.params.len();
    if index < count {
        Some(frame.params[index])
    } else {
        in_groups(frame.locals, index - count)
    }
}

/// What a branch to this label takes.
fn label(blocks: &[Option<ValueType>], index: u32) -> Option<Option<ValueType>>
    ensures { option_map result_types result ≡ slice_get (labels_of blocks.now) index }
{
    let index = index as usize;
    let depth = blocks.len();
    if index < depth {
        Some(blocks[depth - 1 - index])
    } else {
        None
    }
}

fn is_same_result(left: Option<ValueType>, right: Option<ValueType>) -> bool
    ensures { IsTrue result ↔ (result_types left ≡ result_types right) }
{
    match left {
        None => right.is_none(),
        Some(t) => match right {
            None => false,
            Some(u) => t == u,
        },
    }
}

/// Whether branches to the two labels take the same.
fn is_same_label(blocks: &[Option<ValueType>], left: u32, right: u32) -> bool
    ensures { IsTrue result
        ↔ (slice_get (labels_of blocks.now) left ≡ slice_get (labels_of blocks.now) right) }
{
    match label(blocks, left) {
        None => label(blocks, right).is_none(),
        Some(t) => match label(blocks, right) {
            None => false,
            Some(u) => is_same_result(t, u),
        },
    }
}

/// Whether all of these branches take what one to the last label does.
pub fn are_same_labels(blocks: &[Option<ValueType>], branches: &[Op], last: u32) -> bool
    ensures { IsTrue result
        ↔ All (λ o.
        slice_get (labels_of blocks.now) (label_of o)
        ≡ slice_get (labels_of blocks.now) last) branches.now }
{
    branches
        .iter()
        .all(|o| is_same_label(blocks, label_of(*o), last))
}

fn numeric_effect(numeric: Numeric) -> Effect<'static>
    ensures { change_of result ≡ Exchanges (numeric_params numeric) (numeric_result numeric ∷ []) }
{
    let narrow = Some(ValueType::I32);
    let wide = Some(ValueType::I64);
    match numeric {
        Numeric::I32Eqz => Effect::Takes(None, narrow, narrow),
        Numeric::I32Relation(_) => Effect::Takes(narrow, narrow, narrow),
        Numeric::I64Eqz => Effect::Takes(None, wide, narrow),
        Numeric::I64Relation(_) => Effect::Takes(wide, wide, narrow),
        Numeric::I32Add => Effect::Takes(narrow, narrow, narrow),
        Numeric::I64Operation(_) => Effect::Takes(wide, wide, wide),
        Numeric::I32WrapI64 => Effect::Takes(None, wide, narrow),
        Numeric::I64ExtendI32S => Effect::Takes(None, narrow, wide),
        Numeric::I64ExtendI32U => Effect::Takes(None, narrow, wide),
    }
}

/// The effect of `br`.
fn branch(blocks: &[Option<ValueType>], index: u32) -> Option<Effect<'static>>
    ensures { option_map change_of result
        ≡ option_map (λ taken. Leaves taken) (slice_get (labels_of blocks.now) index) }
{
    match label(blocks, index) {
        None => None,
        Some(taken) => Some(Effect::Leaves(None, taken)),
    }
}

/// The effect of `br_if`.
fn branch_if(blocks: &[Option<ValueType>], index: u32) -> Option<Effect<'static>>
    ensures { option_map change_of result
        ≡ option_map (λ (taken : List ValueType). Exchanges (taken ++ I32 ∷ []) taken)
        (slice_get (labels_of blocks.now) index) }
{
    match label(blocks, index) {
        None => None,
        Some(taken) => Some(Effect::Takes(taken, Some(ValueType::I32), taken)),
    }
}

/// The effect of `br_table` with this last label.
fn branch_table(blocks: &[Option<ValueType>], index: u32) -> Option<Effect<'static>>
    ensures { option_map change_of result
        ≡ option_map (λ (taken : List ValueType). Leaves (taken ++ I32 ∷ []))
        (slice_get (labels_of blocks.now) index) }
{
    match label(blocks, index) {
        None => None,
        Some(taken) => Some(Effect::Leaves(taken, Some(ValueType::I32))),
    }
}

/// The effect of `call`.
fn call<'a>(scope: &Scope<'a>, function: u32) -> Option<Effect<'a>>
    ensures { option_map change_of result
        ≡ option_and_then (λ i. option_map call_change (slice_get (scope_of scope.now).types i))
        (slice_get (scope_of scope.now).functions function) }
{
    match at(scope.functions, function as usize) {
        None => None,
        Some(type_index) => match at(scope.types, *type_index as usize) {
            None => None,
            Some(t) => Some(Effect::Calls(t)),
        },
    }
}

/// The effect of `call_indirect`.
fn call_slot<'a>(scope: &Scope<'a>, type_index: u32) -> Option<Effect<'a>>
    ensures { option_map change_of result ≡ option_and_then
        (λ _. option_map called_slot (slice_get (scope_of scope.now).types type_index))
        (slice_get (scope_of scope.now).tables 0) }
{
    match at(scope.tables, 0) {
        None => None,
        Some(_) => match at(scope.types, type_index as usize) {
            None => None,
            Some(t) => Some(Effect::CallsSlot(t)),
        },
    }
}

fn global(scope: &Scope<'_>, index: u32) -> Option<ValueType>
    ensures { result ≡ slice_get (scope_of scope.now).globals index }
{
    match at(scope.globals, index as usize) {
        None => None,
        Some(t) => Some(*t),
    }
}

fn gives(value_type: Option<ValueType>) -> Option<Effect<'static>>
    ensures { option_map change_of result ≡ option_map (λ t. Exchanges [] (t ∷ [])) value_type }
{
    match value_type {
        None => None,
        Some(t) => Some(Effect::Takes(None, None, Some(t))),
    }
}

fn takes(value_type: Option<ValueType>) -> Option<Effect<'static>>
    ensures { option_map change_of result ≡ option_map (λ t. Exchanges (t ∷ []) []) value_type }
{
    match value_type {
        None => None,
        Some(t) => Some(Effect::Takes(None, Some(t), None)),
    }
}

fn keeps(value_type: Option<ValueType>) -> Option<Effect<'static>>
    ensures { option_map change_of result
        ≡ option_map (λ t. Exchanges (t ∷ []) (t ∷ [])) value_type }
{
    match value_type {
        None => None,
        Some(t) => Some(Effect::Takes(None, Some(t), Some(t))),
    }
}

/// The effect, if there is a memory.
fn with_memory<'a>(scope: &Scope<'_>, effect: Effect<'a>) -> Option<Effect<'a>>
    ensures { option_map change_of result
        ≡ option_map (λ _. change_of effect.entry) (slice_get (scope_of scope.now).memories 0) }
{
    match at(scope.memories, 0) {
        None => None,
        Some(_) => Some(effect),
    }
}

/// What the instruction does to the operands, whatever code stands inside it. Nothing if it names what is not there.
#[inline(always)]
pub fn effect_of<'a>(
    frame: &Frame<'a>,
    blocks: &Items<Option<ValueType>>,
    op: &Op,
) -> Option<Effect<'a>>
    ensures { (rest : List Op)
        → option_map change_of result
        ≡ change (frame_context frame.now blocks.now) (open_instruction op.now rest) }
{
    let narrow = Some(ValueType::I32);
    let wide = Some(ValueType::I64);
    match op {
        Op::Unreachable => Some(Effect::Leaves(None, None)),
        Op::Block(given, _) => Some(Effect::Takes(None, None, *given)),
        Op::Loop(given, _) => Some(Effect::Takes(None, None, *given)),
        Op::If(given, _) => Some(Effect::Takes(None, narrow, *given)),
        Op::IfElse(given, _, _) => Some(Effect::Takes(None, narrow, *given)),
        Op::Br(l) => branch(blocks.as_slice(), *l),
        Op::BrIf(l) => branch_if(blocks.as_slice(), *l),
        Op::BrTable(_, last) => branch_table(blocks.as_slice(), *last),
        Op::Return => Some(Effect::Leaves(None, frame.returns)),
        Op::Call(function) => call(&frame.scope, *function),
        Op::CallIndirect(type_index) => call_slot(&frame.scope, *type_index),
        Op::Drop => Some(Effect::Drops),
        Op::LocalGet(x) => gives(local(frame, *x)),
        Op::LocalSet(x) => takes(local(frame, *x)),
        Op::LocalTee(x) => keeps(local(frame, *x)),
        Op::GlobalGet(g) => gives(global(&frame.scope, *g)),
        Op::Load(_) => with_memory(&frame.scope, Effect::Takes(None, narrow, wide)),
        Op::Store(_) => with_memory(&frame.scope, Effect::Takes(narrow, wide, None)),
        Op::I32Const(_) => Some(Effect::Takes(None, None, narrow)),
        Op::I64Const(_) => Some(Effect::Takes(None, None, wide)),
        Op::Numeric(numeric) => Some(numeric_effect(*numeric)),
    }
}
