//! Which code has an encoding: blocks nest so deep at the most, and tables of labels are not too long.

ghost use Rattle.std.specs.Prelude.{◌≡◌, map};
ghost use Rattle.std.specs.List.{list_all};
ghost use Rattle.wasm_tree.specs.Code.{tree, head, label_of};
ghost use Rattle.wasm_code.specs.Number.{unsigned, signed64};
ghost use Rattle.wasm_code.specs.Parts.{vector};
ghost use Rattle.wasm_code.specs.Instructions.{code, code_within, instr_fits};
ghost use Rattle.wasm_code.specs.Inside.{fits_inside};

use wasm_tree::{Op, behind, first_of, label_of, split_ops};

/// How deep blocks may nest.
pub const MAX_LEVELS: u16 = 4096;

/// A table has fewer labels.
const MAX_LABELS: usize = 4294967296;

/// Each number of 32 bits has an encoding.
fn is_index(number: u32) -> bool
    ensures { result ≡ unsigned.fits number }
{
    number <= u32::MAX
}

/// Each number of 64 bits has an encoding.
fn is_constant(number: u64) -> bool
    ensures { result ≡ signed64.fits number }
{
    number <= u64::MAX
}

fn are_indices(labels: &[Op]) -> bool
    ensures { result ≡ list_all (λ l. unsigned.fits (label_of l)) labels.now }
{
    labels.iter().all(|label| is_index(label_of(*label)))
}

/// Whether a table of labels has an encoding.
#[tactic(auto, using(crate::proofs::Fitting::labels_fit))]
fn are_labels(labels: &[Op]) -> bool
    ensures { result ≡ (vector unsigned).fits (map label_of labels.now) }
{
    labels.len() < MAX_LABELS && are_indices(labels)
}

/// Whether the instruction that this operation begins nests no deeper.
#[cycle(fits)]
fn op_fits(op: Op, rest: &[Op], levels: u16) -> bool
    ensures { result ≡ instr_fits (head tree op rest.now) levels }
{
    match op {
        Op::Block(_, count) | Op::Loop(_, count) | Op::If(_, count) => {
            fits_inside(split_ops(rest, count).0, levels)
        }
        Op::IfElse(_, count, second) => {
            let (ops, more) = split_ops(rest, count);
            fits_inside(ops, levels) && fits_inside(split_ops(more, second).0, levels)
        }
        Op::BrTable(count, last) => are_labels(split_ops(rest, count).0) && is_index(last),
        Op::Br(index)
        | Op::BrIf(index)
        | Op::Call(index)
        | Op::CallIndirect(index)
        | Op::LocalGet(index)
        | Op::LocalSet(index)
        | Op::LocalTee(index)
        | Op::GlobalGet(index) => is_index(index),
        Op::I32Const(number) => is_index(number),
        Op::I64Const(number) => is_constant(number),
        Op::Unreachable | Op::Return | Op::Drop | Op::Load(_) | Op::Store(_) | Op::Numeric(_) =>
            true,
    }
}

/// Whether code fits into a block for which this many levels are left.
#[cycle(fits)]
fn fits_inside(ops: &[Op], levels: u16) -> bool
    ensures { result ≡ fits_inside levels (tree ops.now) }
{
    levels > 0 && ops_fit(ops, levels - 1)
}

/// Whether instructions, one after another, nest no deeper.
#[cycle(fits)]
fn ops_fit(ops: &[Op], levels: u16) -> bool
    ensures { result ≡ (code_within levels).fits (tree ops.now) }
{
    let mut left = ops;
    while let Some((op, rest)) = first_of(left) {
        if !op_fits(op, rest, levels) {
            return false;
        }
        left = behind(op, rest);
    }
    true
}

/// Whether code has an encoding.
#[tactic(auto, unfolding(crate::specs::Instructions::code))]
pub fn code_fits(ops: &[Op]) -> bool
    ensures { result ≡ code.fits (tree ops.now) }
{
    ops_fit(ops, MAX_LEVELS)
}
