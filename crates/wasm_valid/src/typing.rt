//! Which operands code takes and gives (Core 1.0, section 3.3).

ghost use Rattle.std.specs.Prelude.{◌≢◌, Err, ◌≡◌, ◌++◌, ◌∷◌, [], List, map, true, All, IfOk, IsTrue, OnOk, MatchOption, ◌↔◌, false, slice_get};
ghost use Rattle.wasm_tree.specs.declared.code.Op.{Op};
ghost use Rattle.wasm_tree.specs.Code.{tree, behind, label_of};
ghost use Rattle.wasm_tree.specs.Validity.{Context, Leads, is_constant, IsConstant, IsConstantOf, result_types, within};
ghost use Rattle.wasm_valid.specs.CodeScope.{scope_of};
ghost use Rattle.wasm_valid.specs.Framed.{frame_context, labels_of};
ghost use Rattle.wasm_valid.specs.Opened.{open_instruction};
ghost use Rattle.wasm_valid.specs.Typing.{Decides, Steps, Stands, MayRule, CodeFits, change};

use crate::code_scope::Scope;
use crate::frame::{Frame, are_same_labels, effect_of};
use crate::grouped::Groups;
use crate::operands::{Operands, Spares, affect, may_be, no_operands, types_of};
use std::alloc::Global;
use tree_parts::Items;
use wasm_tree::{Op, ValueType, WFault, behind, first_of, split_ops};

/// The first of a list, and those behind it.
#[inline(always)]
fn front_of(ops: &[Op]) -> Option<(&Op, &[Op])>
    ensures { MatchOption result (ops.now ≡ []) (λ x. ops.now ≡ x.0.now ∷ x.1.now) }
{
    match ops {
        [] => None,
        [op, rest @ ..] => Some((op, rest)),
    }
}

/// What the instruction does to the operands, whatever code stands inside it.
#[inline(always)]
fn step(
    frame: &Frame<'_>,
    blocks: &Items<Option<ValueType>>,
    op: &Op,
    operands: &mut Operands,
) -> Result<(), WFault>
    ensures { (rest : List Op)
        → Steps result
        (MayRule (change (frame_context frame.now blocks.now) (open_instruction op.now rest)))
        operands.old operands.new }
{
    match effect_of(frame, blocks, op) {
        Some(effect) => affect(operands, effect),
        None => Err(WFault::Invalid),
    }
}

fn check_labels(blocks: &[Option<ValueType>], branches: &[Op], last: u32) -> Result<(), WFault>
    ensures same { Decides result
        (All (λ l. slice_get (labels_of blocks.now) l ≡ slice_get (labels_of blocks.now) last)
        (map label_of branches.now)) }
    ensures memory { result ≢ Err WFault.NoMemory }
{
    if are_same_labels(blocks, branches, last) {
        Ok(())
    } else {
        Err(WFault::Invalid)
    }
}

/// Whether the operands may be these alone.
#[inline(always)]
fn check_last(operands: &mut Operands, wanted: Option<ValueType>) -> Result<(), WFault>
    ensures fits { Decides result (Stands operands.old (result_types wanted)) }
    ensures memory { result ≢ Err WFault.NoMemory }
{
    if may_be(operands, types_of(&wanted)) {
        Ok(())
    } else {
        Err(WFault::Invalid)
    }
}

/// Whether others stand inside the instruction, or labels.
#[inline(always)]
fn holds_others(op: &Op) -> bool
    ensures { (rest : List Op)
        → result ≡ false
        → (behind op.now rest ≡ rest)
        × ((c : Context) → CodeFits c (open_instruction op.now rest)) }
{
    match op {
        Op::Block(_, _) | Op::Loop(_, _) | Op::If(_, _) | Op::IfElse(_, _, _) | Op::BrTable(_, _) =>
            true,
        Op::Unreachable
        | Op::Br(_)
        | Op::BrIf(_)
        | Op::Return
        | Op::Call(_)
        | Op::CallIndirect(_)
        | Op::Drop
        | Op::LocalGet(_)
        | Op::LocalSet(_)
        | Op::LocalTee(_)
        | Op::GlobalGet(_)
        | Op::Load(_)
        | Op::Store(_)
        | Op::I32Const(_)
        | Op::I64Const(_)
        | Op::Numeric(_) => false,
    }
}

/// Checks what stands inside an instruction, at the front of the rest, and answers what stands behind it.
#[cycle(code)]
#[inline(always)]
fn check_front<'a>(
    spares: &mut Spares,
    frame: &Frame<'_>,
    blocks: &mut Items<Option<ValueType>>,
    op: &Op,
    rest: &'a [Op],
) -> Result<&'a [Op], WFault>
    ensures fits { Decides result
        (CodeFits (frame_context frame.now blocks.old) (open_instruction op.now rest.now)) }
    ensures blocks { OnOk result (blocks.new ≡ blocks.old) }
    ensures behind { IfOk result (λ x. x.now ≡ behind op.now rest.now) }
{
    if holds_others(op) {
        check_inside(spares, frame, blocks, op, rest)?;
        return Ok(behind(*op, rest));
    }
    Ok(rest)
}

/// Whether the code inside an instruction fits, which stands at the front of the rest.
#[cycle(code)]
#[inline(never)]
fn check_inside(
    spares: &mut Spares,
    frame: &Frame<'_>,
    blocks: &mut Items<Option<ValueType>>,
    op: &Op,
    rest: &[Op],
) -> Result<(), WFault>
    ensures fits { Decides result
        (CodeFits (frame_context frame.now blocks.old) (open_instruction op.now rest.now)) }
    ensures blocks { OnOk result (blocks.new ≡ blocks.old) }
{
    match *op {
        Op::Block(t, n) => check_block(spares, frame, blocks, split_ops(rest, n).0, t, t),
        Op::Loop(t, n) => check_block(spares, frame, blocks, split_ops(rest, n).0, None, t),
        Op::If(t, n) => {
            check_block(spares, frame, blocks, split_ops(rest, n).0, t, t)?;
            check_block(spares, frame, blocks, &[], t, t)
        }
        Op::IfElse(t, n, m) => {
            let (first, others) = split_ops(rest, n);
            check_block(spares, frame, blocks, first, t, t)?;
            check_block(spares, frame, blocks, split_ops(others, m).0, t, t)
        }
        Op::BrTable(n, last) => check_labels(blocks.as_slice(), split_ops(rest, n).0, last),
        Op::Unreachable
        | Op::Br(_)
        | Op::BrIf(_)
        | Op::Return
        | Op::Call(_)
        | Op::CallIndirect(_)
        | Op::Drop
        | Op::LocalGet(_)
        | Op::LocalSet(_)
        | Op::LocalTee(_)
        | Op::GlobalGet(_)
        | Op::Load(_)
        | Op::Store(_)
        | Op::I32Const(_)
        | Op::I64Const(_)
        | Op::Numeric(_) => Ok(()),
    }
}

/// Whether the code of a block fits, to which a branch takes `taken`.
#[cycle(code)]
fn check_block(
    spares: &mut Spares,
    frame: &Frame<'_>,
    blocks: &mut Items<Option<ValueType>>,
    code: &[Op],
    taken: Option<ValueType>,
    given: Option<ValueType>,
) -> Result<(), WFault>
    ensures fits { Decides result
        (Leads (within (result_types taken) (frame_context frame.now blocks.old))
        (tree code.now) [] (result_types given)) }
    ensures blocks { OnOk result (blocks.new ≡ blocks.old) }
{
    blocks.push(taken)?;
    check_code(spares, frame, blocks, code, given)?;
    blocks.pop();
    Ok(())
}

/// Whether the code goes from no operands to what it is to give. `Invalid` if it does not.
#[cycle(code)]
pub fn check_code(
    spares: &mut Spares,
    frame: &Frame<'_>,
    blocks: &mut Items<Option<ValueType>>,
    code: &[Op],
    given: Option<ValueType>,
) -> Result<(), WFault>
    ensures fits { Decides result
        (Leads (frame_context frame.now blocks.old) (tree code.now) [] (result_types given)) }
    ensures blocks { OnOk result (blocks.new ≡ blocks.old) }
{
    let mut operands = no_operands(spares);
    let mut rest = code;
    'ops: while let Some((op, others)) = front_of(rest) {
        let next = check_front(spares, frame, blocks, op, others)?;
        step(frame, blocks, op, &mut operands)?;
        rest = next;
    }
    let decided = check_last(&mut operands, given);
    spares.keep(operands);
    decided
}

fn is_constant(op: Op) -> bool
    ensures { IsTrue result ↔ (is_constant (open_instruction op []) ≡ true) }
{
    match op {
        Op::GlobalGet(_) | Op::I32Const(_) | Op::I64Const(_) => true,
        Op::Unreachable
        | Op::Block(_, _)
        | Op::Loop(_, _)
        | Op::If(_, _)
        | Op::IfElse(_, _, _)
        | Op::Br(_)
        | Op::BrIf(_)
        | Op::BrTable(_, _)
        | Op::Return
        | Op::Call(_)
        | Op::CallIndirect(_)
        | Op::Drop
        | Op::LocalGet(_)
        | Op::LocalSet(_)
        | Op::LocalTee(_)
        | Op::Load(_)
        | Op::Store(_)
        | Op::Numeric(_) => false,
    }
}

fn are_constant_ops(code: &[Op]) -> bool
    ensures { IsTrue result ↔ All (λ o. is_constant (open_instruction o []) ≡ true) code.now }
{
    code.iter().all(|o| is_constant(*o))
}

fn are_constant(code: &[Op]) -> bool
    ensures { IsTrue result ↔ All IsConstant (tree code.now) }
{
    are_constant_ops(code)
}

/// Whether the code is a constant expression of this type (Core 1.0, section 3.3.7). `Invalid` if it is not, `NoMemory`
/// if memory is refused.
pub fn check_constant(
    alloc: Global,
    scope: Scope<'_>,
    code: &[Op],
    value_type: ValueType,
) -> Result<(), WFault>
    ensures { Decides result (IsConstantOf (scope_of scope.entry) value_type (tree code.now)) }
{
    if !are_constant(code) {
        return Err(WFault::Invalid);
    }
    let frame = Frame {
        scope,
        params: &[],
        locals: Groups {
            groups: &[],
            ends: &[],
        },
        returns: None,
    };
    let mut spares = Spares::new(alloc);
    let mut blocks = Items::new(alloc);
    check_code(&mut spares, &frame, &mut blocks, code, Some(value_type))
}
