//! Reductions of the machine (Core 1.0, section 4.4).

ghost use Rattle.std.specs.Prelude.{◌≡◌, ◌∷◌, IfOk, Some, None, List, Option, take, drop};
ghost use Rattle.wasm_tree.specs.Code.{tree, head, behind};
ghost use Rattle.wasm_tree.specs.Machine.{begin_instruction, begun_layer, side, results_of, inside, top_i32, or_trap, push_value, reduce};
ghost use Rattle.wasm_tree.specs.declared.store.Value.TheVariants.{I32, I64};
ghost use Rattle.wasm_sound.specs.Ready.{IsReady, IsI32};
ghost use Rattle.wasm_tree.specs.declared.instr.Instr.{out-Instr};
ghost use Rattle.wasm_tree.specs.declared.instr.Instr.TheOpen as layer;
ghost use Rattle.wasm_machine.specs.Well.{IsWell};
ghost use Rattle.wasm_machine.specs.Going.{activation, store_of, callers_of, going, progress};

use crate::branch::{again, block, branch, branch_if, end, inside, table};
use crate::calculate::calculate;
use crate::call::{call_index, call_indirect, leave};
use crate::frame::{Machine, Reduced};
use crate::memory::{load, store};
use crate::variables::{drop_operand, global_get, local_get, local_set, local_tee};
use std::alloc::{AllocError, Global};
use wasm_tree::{Op, ValueType, split_ops};
use wasm_valid::ValidModule;

fn results_of(given: Option<ValueType>) -> usize
    ensures { result ≡ results_of given }
{
    match given {
        None => 0,
        Some(_) => 1,
    }
}

/// The side of an `if` that is taken.
#[inline(always)]
fn side<'a>(condition: u32, body: &'a [Op], otherwise: &'a [Op]) -> &'a [Op]
    ensures { tree result.now ≡ side condition (tree body.now) (Some (tree otherwise.now)) }
{
    if condition != 0 { body } else { otherwise }
}

/// An `if` with these sides begins, and goes on with what is behind it.
#[inline(always)]
fn choose<'a>(
    machine: &mut Machine<'a>,
    given: Option<ValueType>,
    body: &'a [Op],
    otherwise: &'a [Op],
    behind: &'a [Op],
) -> Result<Reduced, AllocError>
    requires { ∥ IsI32 machine.old.now.stack.known.values ∥₁ }
    ensures { IfOk result (λ r.
        progress r machine.new ≡ or_trap (top_i32 machine.old.now.stack.known.values) (λ p.
        inside (store_of machine.old)
        (record (activation machine.old.now)
        { stack = p.0; rest = tree behind.now }) (callers_of machine.old)
        (results_of given) (tree behind.now)
        (side p.1 (tree body.now) (Some (tree otherwise.now))))) }
{
    let condition = machine.now.stack.pop_i32();
    machine.now.rest = behind;
    inside(
        machine,
        results_of(given),
        behind,
        side(condition, body, otherwise),
    )
}

/// An `if` begins that has one side, this many of the instructions ahead.
#[tactic(auto, using(wasm_tree::proofs::Flat::tree_none))]
#[inline(always)]
fn choose_one<'a>(
    machine: &mut Machine<'a>,
    given: Option<ValueType>,
    ahead: &'a [Op],
    count: u32,
) -> Result<Reduced, AllocError>
    requires { ∥ IsI32 machine.old.now.stack.known.values ∥₁ }
    ensures { IfOk result (λ r.
        progress r machine.new ≡ or_trap (top_i32 machine.old.now.stack.known.values) (λ p.
        inside (store_of machine.old)
        (record (activation machine.old.now)
        { stack = p.0; rest = tree (drop count ahead.now) })
        (callers_of machine.old) (results_of given) (tree (drop count ahead.now))
        (side p.1 (tree (take count ahead.now)) None))) }
{
    let (body, behind) = split_ops(ahead, count);
    choose(machine, given, body, &[], behind)
}

/// An `if` begins that has two sides: this many of the instructions ahead, and this many behind these.
#[inline(always)]
fn choose_two<'a>(
    machine: &mut Machine<'a>,
    given: Option<ValueType>,
    ahead: &'a [Op],
    count: u32,
    others: u32,
) -> Result<Reduced, AllocError>
    requires { ∥ IsI32 machine.old.now.stack.known.values ∥₁ }
    ensures { IfOk result (λ r.
        progress r machine.new ≡ or_trap (top_i32 machine.old.now.stack.known.values) (λ p.
        inside (store_of machine.old)
        (record (activation machine.old.now)
        { stack = p.0; rest = tree (drop others (drop count ahead.now)) })
        (callers_of machine.old) (results_of given)
        (tree (drop others (drop count ahead.now)))
        (side p.1 (tree (take count ahead.now))
        (Some (tree (take others (drop count ahead.now))))))) }
{
    let (body, rest) = split_ops(ahead, count);
    let (otherwise, behind) = split_ops(rest, others);
    choose(machine, given, body, otherwise, behind)
}

/// Pushes a number of 32 bits.
#[inline(always)]
fn push_i32(machine: &mut Machine<'_>, number: u32) -> Result<Reduced, AllocError>
    ensures { IfOk result (λ r.
        progress r machine.new
        ≡ push_value (store_of machine.old) (activation machine.old.now)
        (callers_of machine.old) (I32 number)) }
{
    machine.now.stack.push_i32(number)?;
    Ok(Reduced::On)
}

/// Pushes a number of 64 bits.
#[inline(always)]
fn push_i64(machine: &mut Machine<'_>, number: u64) -> Result<Reduced, AllocError>
    ensures { IfOk result (λ r.
        progress r machine.new
        ≡ push_value (store_of machine.old) (activation machine.old.now)
        (callers_of machine.old) (I64 number)) }
{
    machine.now.stack.push_i64(number)?;
    Ok(Reduced::On)
}

/// Puts what stands ahead into the machine, and then does this. Each arm of the match does it, and not the code before:
/// so nothing is written between two matches on an instruction, and the compiler need not read it again.
macro_rules! ahead {
    ($machine:ident, $rest:ident, $reduced:expr) => {{
        $machine.now.rest = $rest;
        $reduced
    }};
}

/// The instruction at the front of the code begins; `rest` is the code without it.
#[tactic(auto, using(crate::proofs::Opened::out_unreachable, crate::proofs::Opened::out_block, crate::proofs::Opened::out_loop, crate::proofs::Opened::out_if_one, crate::proofs::Opened::out_if_two, crate::proofs::Opened::out_br, crate::proofs::Opened::out_br_if, crate::proofs::Opened::out_return, crate::proofs::Opened::out_call, crate::proofs::Opened::out_call_indirect, crate::proofs::Opened::out_store, crate::proofs::Opened::out_i32_const, crate::proofs::Opened::out_i64_const, crate::proofs::Opened::out_numeric))]
#[inline(always)]
fn begin<'a>(
    alloc: Global,
    modules: &'a [ValidModule],
    machine: &mut Machine<'a>,
    op: &'a Op,
    rest: &'a [Op],
    code: &'a [Op],
) -> Result<Reduced, AllocError>
    requires front { tree code.now ≡ head tree op.now rest.now ∷ tree (behind op.now rest.now) }
    requires ready { ∥ IsReady modules.now (store_of machine.old)
        (record (activation machine.old.now) { rest = tree (behind op.now rest.now) })
        (out-Instr (head tree op.now rest.now)) ∥₁ }
    ensures { IfOk result (λ r.
        progress r machine.new ≡ begin_instruction modules.now (store_of machine.old)
        (record (activation machine.old.now) { rest = tree (behind op.now rest.now) })
        (callers_of machine.old) (head tree op.now rest.now)) }
{
    match op {
        Op::Unreachable => Ok(Reduced::Trapped),
        Op::Block(given, count) => block(machine, results_of(*given), rest, *count),
        Op::Loop(_, count) => again(machine, code, rest, *count),
        Op::If(given, count) => choose_one(machine, *given, rest, *count),
        Op::IfElse(given, count, others) => choose_two(machine, *given, rest, *count, *others),
        Op::Br(label) => ahead!(machine, rest, branch(machine, *label)),
        Op::BrIf(label) => ahead!(machine, rest, branch_if(machine, *label)),
        Op::BrTable(count, default) => table(machine, rest, *count, *default),
        Op::Return => ahead!(machine, rest, leave(machine)),
        Op::Call(function) => ahead!(
            machine,
            rest,
            call_index(alloc, modules, machine, *function)
        ),
        Op::CallIndirect(type_index) => ahead!(
            machine,
            rest,
            call_indirect(alloc, modules, machine, *type_index)
        ),
        Op::Drop => ahead!(machine, rest, Ok(drop_operand(machine))),
        Op::LocalGet(local) => ahead!(machine, rest, local_get(machine, *local)),
        Op::LocalSet(local) => ahead!(machine, rest, Ok(local_set(machine, *local))),
        Op::LocalTee(local) => ahead!(machine, rest, Ok(local_tee(machine, *local))),
        Op::GlobalGet(global) => ahead!(machine, rest, global_get(machine, *global)),
        Op::Load(kind) => ahead!(machine, rest, Ok(load(machine, *kind))),
        Op::Store(width) => ahead!(machine, rest, Ok(store(machine, *width))),
        Op::I32Const(number) => ahead!(machine, rest, push_i32(machine, *number)),
        Op::I64Const(number) => ahead!(machine, rest, push_i64(machine, *number)),
        Op::Numeric(numeric) => ahead!(machine, rest, Ok(calculate(machine, *numeric))),
    }
}

/// One reduction.
#[inline(always)]
pub fn reduce<'a>(
    alloc: Global,
    modules: &'a [ValidModule],
    machine: &mut Machine<'a>,
) -> Result<Reduced, AllocError>
    requires { ∥ IsWell modules.now (going machine.old) ∥₁ }
    ensures { IfOk result (λ r. progress r machine.new ≡ reduce modules.now (going machine.old)) }
{
    let code = machine.now.rest;
    match code {
        [] => end(machine),
        [op, rest @ ..] => begin(alloc, modules, machine, op, rest, code),
    }
}
