//! Code in one list: behind an instruction that holds others stand those, and it says how many they are. So code is read
//! and walked from front to back, and asks for memory once.

ghost use Rattle.std.specs.Prelude.{◌≡◌, ◌∷◌, [], MatchOption, take, drop};
ghost use Rattle.wasm_tree.specs.Code.{tree, behind, label_of};

use crate::instr::{Load, Numeric, StoreWidth};
use crate::kinds::ValueType;
use std::marker::Model;

/// An instruction in a list, without those inside it (`Instr` has what each one does). A number beyond the end of the list
/// counts up to the end.
#[derive(Clone, Copy, PartialEq, Eq)]
pub enum Op {
    Unreachable,
    /// The next ones, this many, stand inside.
    Block(Option<ValueType>, u32),
    /// The next ones, this many, stand inside.
    Loop(Option<ValueType>, u32),
    /// The next ones, this many, are its only side.
    If(Option<ValueType>, u32),
    /// The next ones, this many, are its first side, and this many behind these the second.
    IfElse(Option<ValueType>, u32, u32),
    Br(u32),
    BrIf(u32),
    /// The next ones, this many, are `Br`s to the labels in the table. The last number is the default.
    BrTable(u32, u32),
    Return,
    Call(u32),
    CallIndirect(u32),
    Drop,
    LocalGet(u32),
    LocalSet(u32),
    LocalTee(u32),
    GlobalGet(u32),
    Load(Load),
    Store(StoreWidth),
    I32Const(u32),
    I64Const(u64),
    Numeric(Numeric),
}

/// Instructions. Contracts see the trees that the list stands for.
#[derive(Drop)]
pub struct Code {
    ops: Vec<Op>,
}

impl Model for Code {
    ghost use Rattle.std.specs.Prelude.{List};
    ghost use Rattle.std.specs.Coded.{codes};
    ghost use Rattle.wasm_tree.specs.declared.instr.Instr.{Instr};
    ghost use Rattle.wasm_tree.specs.contracts.instr.Instr as e;
    ghost use Rattle.wasm_tree.specs.Code.{tree};

    ghost Value = { List Instr };

    ghost coded = { Prim.hlevel (codes, e.the_row.coded) };

    ghost view = { λ c. tree c.ops.items };
}

impl Code {
    /// The code that this list stands for.
    pub fn new(ops: Vec<Op>) -> Code
        ensures { result ≡ tree ops.items }
    {
        Code { ops }
    }

    /// The list.
    pub fn ops(&self) -> &[Op]
        ensures { tree result.now ≡ self.now }
    {
        self.ops.as_slice()
    }
}

/// The first ones of a list, this many or all, and those behind them.
#[inline(always)]
pub fn split_ops(ops: &[Op], count: u32) -> (&[Op], &[Op])
    ensures front { result.0.now ≡ take count ops.now }
    ensures back { result.1.now ≡ drop count ops.now }
{
    ops.split_at((count as usize).min(ops.len()))
}

/// The first of a list, and those behind it.
#[inline(always)]
pub fn first_of(ops: &[Op]) -> Option<(Op, &[Op])>
    ensures { MatchOption result (ops.now ≡ []) (λ x. ops.now ≡ x.0 ∷ x.1.now) }
{
    match ops {
        [] => None,
        [op, rest @ ..] => Some((*op, rest)),
    }
}

/// What stands behind an instruction and the code inside it, if `rest` stands behind its operation.
#[inline(always)]
pub fn behind(op: Op, rest: &[Op]) -> &[Op]
    ensures { result.now ≡ behind op rest.now }
{
    match op {
        Op::Block(_, count) | Op::Loop(_, count) | Op::If(_, count) | Op::BrTable(count, _) => {
            split_ops(rest, count).1
        }
        Op::IfElse(_, count, second) => split_ops(split_ops(rest, count).1, second).1,
        _ => rest,
    }
}

/// The label that a branch names; 0 of any other operation.
#[inline(always)]
pub fn label_of(op: Op) -> u32
    ensures { result ≡ label_of op }
{
    match op {
        Op::Br(label) => label,
        _ => 0,
    }
}
