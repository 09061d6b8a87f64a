//! Blocks and branches (Core 1.0, section 4.4.5).

ghost use Rattle.std.specs.Prelude.{◌≡◌, ◌≤◌, ◌+◌, ◌-◌, IfOk, Some, List, map, take, drop, length, slice_index_or};
ghost use Rattle.wasm_tree.specs.Code as code;
ghost use Rattle.wasm_tree.specs.Code.{tree};
ghost use Rattle.wasm_tree.specs.Machine.{inside, branch_to, branch_by, begin_instruction, end_block, split_last};
ghost use Rattle.wasm_tree.specs.declared.module.WModule.{WModule};
ghost use Rattle.wasm_tree.specs.declared.instr.Instr.TheVariants.{BrIf, BrTable};
ghost use Rattle.wasm_sound.specs.Ready.{CanBranch, CanBranchIf, CanBranchTable, IsReadyToEnd};
ghost use Rattle.wasm_machine.specs.Going.{activation, label_of, store_of, callers_of, progress, innermost};

use crate::call::leave;
use crate::frame::{Label, Machine, Reduced};
use std::alloc::AllocError;
use wasm_tree::{Op, label_of, split_ops};

/// A block begins: a branch to it keeps this many operands and goes on there.
#[inline(always)]
pub fn inside<'a>(
    machine: &mut Machine<'a>,
    arity: usize,
    again: &'a [Op],
    body: &'a [Op],
) -> Result<Reduced, AllocError>
    ensures { IfOk result (λ r.
        progress r machine.new
        ≡ inside (store_of machine.old) (activation machine.old.now)
        (callers_of machine.old) arity (tree again.now) (tree body.now)) }
{
    let label = Label {
        arity,
        height: machine.now.stack.len(),
        again,
        rest: machine.now.rest,
    };
    machine.now.labels.push(label)?;
    machine.now.rest = body;
    Ok(Reduced::On)
}

/// A block begins that holds this many of the instructions ahead: a branch to it keeps this many operands and goes on
/// behind it.
#[inline(always)]
pub fn block<'a>(
    machine: &mut Machine<'a>,
    arity: usize,
    ahead: &'a [Op],
    count: u32,
) -> Result<Reduced, AllocError>
    ensures { IfOk result (λ r.
        progress r machine.new ≡ inside (store_of machine.old)
        (record (activation machine.old.now) { rest = tree (drop count ahead.now) })
        (callers_of machine.old) arity (tree (drop count ahead.now))
        (tree (take count ahead.now))) }
{
    let (body, behind) = split_ops(ahead, count);
    machine.now.rest = behind;
    inside(machine, arity, behind, body)
}

/// The same of a loop, at the front of `code` and just before these instructions: a branch to it begins it again.
#[inline(always)]
pub fn again<'a>(
    machine: &mut Machine<'a>,
    code: &'a [Op],
    ahead: &'a [Op],
    count: u32,
) -> Result<Reduced, AllocError>
    ensures { IfOk result (λ r.
        progress r machine.new ≡ inside (store_of machine.old)
        (record (activation machine.old.now) { rest = tree (drop count ahead.now) })
        (callers_of machine.old) 0 (tree code.now) (tree (take count ahead.now))) }
{
    let (body, behind) = split_ops(ahead, count);
    machine.now.rest = behind;
    inside(machine, 0, code, body)
}

/// Takes off the labels up to the one of this number, counted from the innermost one, and that one too.
fn pop_labels<'a>(labels: &mut Vec<Label<'a>>, label: usize) -> Option<Label<'a>>
    requires { label ≤ length labels.old.items }
    ensures { innermost labels.new.items result ≡ split_last
        (take (length (map label_of labels.old.items) - label)
        (map label_of labels.old.items)) }
{
    labels.truncate(labels.len() - label);
    labels.pop()
}

/// A branch to a label that was taken off the others.
#[inline(always)]
fn go_to<'a>(machine: &mut Machine<'a>, label: Label<'a>) -> Reduced
    requires { label.height + label.arity ≤ length machine.old.now.stack.known.values }
    ensures { progress result machine.new
        ≡ branch_to (store_of machine.old) (activation machine.old.now) (callers_of machine.old)
        (Some (map label_of machine.old.now.labels.items, label_of label.entry)) }
{
    machine.now.stack.keep(label.height, label.arity);
    machine.now.rest = label.again;
    Reduced::On
}

/// A branch to the label of this number, counted from the innermost one.
#[inline(always)]
pub fn branch(machine: &mut Machine<'_>, label: u32) -> Result<Reduced, AllocError>
    requires { ∥ CanBranch (activation machine.old.now).labels machine.old.now.arity
        machine.old.now.stack.known.values label ∥₁ }
    ensures { IfOk result (λ r.
        progress r machine.new ≡ branch_by (store_of machine.old) (activation machine.old.now)
        (callers_of machine.old) label) }
{
    match pop_labels(&mut machine.now.labels, label as usize) {
        None => leave(machine),
        Some(label) => Ok(go_to(machine, label)),
    }
}

/// A branch if the topmost operand is not 0.
#[tactic(auto, using(crate::proofs::Opened::out_br_if))]
#[inline(always)]
pub fn branch_if(machine: &mut Machine<'_>, label: u32) -> Result<Reduced, AllocError>
    requires { ∥ CanBranchIf (activation machine.old.now).labels machine.old.now.arity
        machine.old.now.stack.known.values label ∥₁ }
    ensures { IfOk result (λ r.
        (modules : List WModule)
        → progress r machine.new
        ≡ begin_instruction modules (store_of machine.old) (activation machine.old.now)
        (callers_of machine.old) (BrIf label)) }
{
    if machine.now.stack.pop_i32() == 0 {
        return Ok(Reduced::On);
    }
    branch(machine, label)
}

/// The label of this number among branches, or the default.
#[inline(always)]
fn choice(branches: &[Op], number: u32, default: u32) -> u32
    ensures { result ≡ slice_index_or (map code.label_of branches.now) number default }
{
    let number = number as usize;
    if number < branches.len() {
        label_of(branches[number])
    } else {
        default
    }
}

/// A branch to the label that the topmost operand numbers, or to the default.
#[inline(always)]
pub fn branch_table(
    machine: &mut Machine<'_>,
    branches: &[Op],
    default: u32,
) -> Result<Reduced, AllocError>
    requires { ∥ CanBranchTable (activation machine.old.now).labels machine.old.now.arity
        machine.old.now.stack.known.values (map code.label_of branches.now) default ∥₁ }
    ensures { IfOk result (λ r.
        (modules : List WModule)
        → progress r machine.new
        ≡ begin_instruction modules (store_of machine.old) (activation machine.old.now)
        (callers_of machine.old) (BrTable (map code.label_of branches.now) default)) }
{
    let number = machine.now.stack.pop_i32();
    branch(machine, choice(branches, number, default))
}

/// The same, if this many of the instructions ahead are the branches.
#[inline(always)]
pub fn table<'a>(
    machine: &mut Machine<'a>,
    ahead: &'a [Op],
    count: u32,
    default: u32,
) -> Result<Reduced, AllocError>
    requires { ∥ CanBranchTable (activation machine.old.now).labels machine.old.now.arity
        machine.old.now.stack.known.values (map code.label_of (take count ahead.now)) default ∥₁ }
    ensures { IfOk result (λ r.
        (modules : List WModule)
        → progress r machine.new ≡ begin_instruction modules (store_of machine.old)
        (record (activation machine.old.now) { rest = tree (drop count ahead.now) })
        (callers_of machine.old)
        (BrTable (map code.label_of (take count ahead.now)) default)) }
{
    let (branches, behind) = split_ops(ahead, count);
    machine.now.rest = behind;
    branch_table(machine, branches, default)
}

/// The end of a block, or of the function if there is none.
#[inline(always)]
pub fn end(machine: &mut Machine<'_>) -> Result<Reduced, AllocError>
    requires { ∥ IsReadyToEnd (activation machine.old.now)
        (split_last (activation machine.old.now).labels) ∥₁ }
    ensures { IfOk result (λ r.
        progress r machine.new
        ≡ end_block (store_of machine.old) (activation machine.old.now) (callers_of machine.old)
        (split_last (map label_of machine.old.now.labels.items))) }
{
    match pop_labels(&mut machine.now.labels, 0) {
        None => leave(machine),
        Some(label) => {
            machine.now.rest = label.rest;
            Ok(Reduced::On)
        }
    }
}
