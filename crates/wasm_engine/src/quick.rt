//! Several reductions at once: calls of functions that are known by their code.

ghost use Rattle.std.specs.Prelude.{◌≡◌, ◌≤◌, ◌<◌, [], ◌∷◌, ◌++◌, IfOk, OnOk, IfSome, IsTrue};
ghost use Rattle.wasm_tree.specs.declared.store.Value.TheVariants.{I32};
ghost use Rattle.wasm_tree.specs.Code.{tree};
ghost use Rattle.wasm_tree.specs.Machine.{run};
ghost use Rattle.wasm_tree.specs.declared.instr.Instr.TheVariants.{Call, I64Const};
ghost use Rattle.wasm_sound.specs.Ready.{AreI64};
ghost use Rattle.wasm_known.specs.Known.{bounds_before};
ghost use Rattle.wasm_known.specs.Table.{Means, IsRight, known_in};
ghost use Rattle.wasm_known.specs.declared.table.KnownFunction.TheVariants as kind;
ghost use Rattle.wasm_machine.specs.Well.{IsWell};
ghost use Rattle.wasm_machine.specs.Going.{store_of, going, progress};
ghost use Rattle.wasm_engine.specs.Quick.{Calculated, Calls, Checked, Goes, HasArguments, HasFour, Holds, IsBetween, IsDivision, IsQuotient, IsRemainder, Replaced, reductions};

use crate::bytes::{clear_bytes, copy_bytes};
use crate::combined::combine_at_once;
use std::alloc::{AllocError, Global};
use tree_parts::Items;
use wasm_known::{KnownFunction, known_at};
use wasm_machine::{Machine, Reduced, callee_at, reduce};
use wasm_operands::{Operands, compares_64, operation_result, truth};
use wasm_tree::{Callee, Op, Operation, Relation, first_of};
use wasm_valid::ValidModule;

/// How many reductions a call of check makes if the number is between its bounds.
const CHECK: u64 = 14;

/// The same with three constants in front of the call.
const BOUNDED: u64 = 17;

/// How many reductions a call of div makes if the divisor is between its bounds.
const DIVIDE: u64 = 31;

/// The same of mod.
const MODULO: u64 = 32;

/// How many reductions a call of fill makes for each byte, and besides.
const FILL_BYTE: u64 = 16;

const FILL: u64 = 7;

/// The same of copy.
const COPY_BYTE: u64 = 21;

const COPY: u64 = 7;

const LEAST_DIVISOR: u64 = 1;

const GREATEST_DIVISOR: u64 = 4_294_967_295;

/// What code begins with, as far as several reductions may be made at once.
#[derive(Clone, Copy)]
enum Front {
    Narrow,
    Constant,
    Call,
    Other,
}

/// The bounds of a number, what the run ends with if it is not between them, and the function that tests it.
#[derive(Clone, Copy)]
struct Bounds {
    low: u64,
    high: u64,
    fault: u64,
    check: u32,
}

#[inline(always)]
fn begins_with(code: &[Op]) -> Front {
    match code {
        [Op::I32Const(_), ..] => Front::Narrow,
        [Op::I64Const(_), ..] => Front::Constant,
        [Op::Call(_), ..] => Front::Call,
        _ => Front::Other,
    }
}

/// The function that is called next, and what stands behind the call.
#[inline(always)]
fn next_call(code: &[Op]) -> Option<(u32, &[Op])>
    ensures { IfSome result (λ p. tree code.now ≡ Call p.0 ∷ tree p.1.now) }
{
    let (op, rest) = first_of(code)?;
    match op {
        Op::Call(function) => Some((function, rest)),
        _ => None,
    }
}

/// The number that is pushed next, and what stands behind it.
#[inline(always)]
fn next_constant(code: &[Op]) -> Option<(u64, &[Op])>
    ensures { IfSome result (λ p. tree code.now ≡ I64Const p.0 ∷ tree p.1.now) }
{
    let (op, rest) = first_of(code)?;
    match op {
        Op::I64Const(number) => Some((number, rest)),
        _ => None,
    }
}

/// The bounds that are pushed next, with the call that tests them, and what stands behind it.
#[inline(always)]
fn next_bounds(code: &[Op]) -> Option<(Bounds, &[Op])>
    ensures { IfSome result (λ p.
        tree code.now ≡ bounds_before p.0.low p.0.high p.0.fault p.0.check (tree p.1.now)) }
{
    let (low, code) = next_constant(code)?;
    let (high, code) = next_constant(code)?;
    let (fault, code) = next_constant(code)?;
    let (check, rest) = next_call(code)?;
    Some((
        Bounds {
            low,
            high,
            fault,
            check,
        },
        rest,
    ))
}

#[inline(always)]
fn is_between(number: u64, low: u64, high: u64) -> bool
    ensures { IsTrue result → IsBetween number low high }
{
    !compares_64(Relation::LtS, number, low) && !compares_64(Relation::GtS, number, high)
}

/// Whether the table says that this function is check.
#[inline(always)]
fn is_check(table: &[Items<KnownFunction>], instance: usize, index: u32) -> bool
    ensures { IsTrue result → known_in table.now instance index ≡ kind.Check }
{
    matches!(known_at(table, instance, index), KnownFunction::Check)
}

/// Takes the operands of check and leaves the number, if it is between its bounds.
fn check(stack: &mut Operands) -> Result<bool, AllocError>
    requires { ∥ HasFour stack.old.known.values ∥₁ }
    ensures { IfOk result (λ done. Checked done stack.old.known.values stack.new.known.values) }
{
    let fault = stack.pop_i64();
    let high = stack.pop_i64();
    let low = stack.pop_i64();
    let number = stack.top_i64();
    if is_between(number, low, high) {
        return Ok(true);
    }
    stack.push_i64(low)?;
    stack.push_i64(high)?;
    stack.push_i64(fault)?;
    Ok(false)
}

/// The quotient rounded down, if the divisor is between its bounds and division is defined.
fn quotient(x: u64, y: u64) -> Option<u64>
    ensures { IfSome result (IsQuotient x y) }
{
    if !is_between(y, LEAST_DIVISOR, GREATEST_DIVISOR) {
        return None;
    }
    let quotient = operation_result(Operation::DivS, x, y)?;
    let remainder = operation_result(Operation::RemS, x, y)?;
    let is_negative = compares_64(Relation::LtS, remainder, 0);
    Some(quotient.wrapping_sub(u64::from(truth(is_negative))))
}

/// The remainder from 0 up, if the divisor is between its bounds and division is defined.
fn remainder(x: u64, y: u64) -> Option<u64>
    ensures { IfSome result (IsRemainder x y) }
{
    if !is_between(y, LEAST_DIVISOR, GREATEST_DIVISOR) {
        return None;
    }
    let remainder = operation_result(Operation::RemS, x, y)?;
    let is_negative = compares_64(Relation::LtS, remainder, 0);
    Some(remainder.wrapping_add(u64::from(truth(is_negative)).wrapping_mul(y)))
}

/// What div or mod makes of two numbers, if the divisor is between its bounds and division is defined.
fn division(function: KnownFunction, x: u64, y: u64) -> Option<u64>
    ensures { IfSome result (IsDivision function x y) }
{
    match function {
        KnownFunction::Divide => quotient(x, y),
        KnownFunction::Modulo => remainder(x, y),
        KnownFunction::Other | KnownFunction::Check | KnownFunction::Fill | KnownFunction::Copy =>
            None,
    }
}

/// Puts what div or mod makes of the two numbers on top in their place.
fn divide(stack: &mut Operands, function: KnownFunction) -> Result<bool, AllocError>
    requires { ∥ AreI64 stack.old.known.values ∥₁ }
    ensures { IfOk result (λ done.
        Replaced (IsDivision function) done stack.old.known.values stack.new.known.values) }
{
    let y = stack.pop_i64();
    let x = stack.top_i64();
    match division(function, x, y) {
        Some(number) => {
            stack.set_i64(number);
            Ok(true)
        }
        None => {
            stack.push_i64(y)?;
            Ok(false)
        }
    }
}

/// Puts what check, div or mod makes of the topmost operands in their place.
fn calculate(stack: &mut Operands, function: KnownFunction) -> Result<bool, AllocError>
    requires { ∥ HasArguments function stack.old.known.values ∥₁ }
    ensures { IfOk result (λ done.
        Calculated function done stack.old.known.values stack.new.known.values) }
{
    match function {
        KnownFunction::Check => check(stack),
        KnownFunction::Divide | KnownFunction::Modulo => divide(stack, function),
        KnownFunction::Other | KnownFunction::Fill | KnownFunction::Copy => Ok(false),
    }
}

/// How many reductions a call of check, div or mod makes if it ends.
fn reductions_of(function: KnownFunction) -> u64
    ensures { result ≡ reductions function }
{
    match function {
        KnownFunction::Check => CHECK,
        KnownFunction::Divide => DIVIDE,
        KnownFunction::Modulo => MODULO,
        KnownFunction::Other | KnownFunction::Fill | KnownFunction::Copy => 0,
    }
}

/// Pushes three constants and executes the call of check behind them, if the number on top is between its bounds. It
/// makes this many reductions, or none.
fn bounds_at_once<'a>(
    modules: &'a [ValidModule],
    table: &[Items<KnownFunction>],
    machine: &mut Machine<'a>,
    most: u64,
) -> u64
    requires { ∥ Holds modules.now table.now (going machine.old) ∥₁ }
    ensures within { result ≤ most }
    ensures goes { Goes modules.now result (going machine.old) (going machine.new) }
{
    let Some((bounds, rest)) = next_bounds(machine.now.rest) else {
        return 0;
    };
    if most < BOUNDED {
        return 0;
    }
    if !is_check(table, machine.now.instance, bounds.check) {
        return 0;
    }
    let number = machine.now.stack.top_i64();
    if !is_between(number, bounds.low, bounds.high) {
        return 0;
    }
    machine.now.rest = rest;
    BOUNDED
}

/// Executes the call of check, div or mod that is next, if it ends.
fn calculate_at_once<'a>(
    modules: &'a [ValidModule],
    machine: &mut Machine<'a>,
    function: KnownFunction,
    index: u32,
    rest: &'a [Op],
    most: u64,
) -> Result<u64, AllocError>
    requires { Calls modules.now machine.old function index (tree rest.now) }
    ensures within { IfOk result (λ n. n ≤ most) }
    ensures goes { IfOk result (λ n. Goes modules.now n (going machine.old) (going machine.new)) }
{
    let reductions = reductions_of(function);
    if most < reductions {
        return Ok(0);
    }
    let done = calculate(&mut machine.now.stack, function)?;
    if done {
        machine.now.rest = rest;
        return Ok(reductions);
    }
    Ok(0)
}

/// Puts two numbers of 32 bits back on top.
fn give_back(stack: &mut Operands, first: u32, second: u32) -> Result<(), AllocError>
    ensures { OnOk result
        (stack.new.known.values ≡ stack.old.known.values ++ I32 first ∷ [] ++ I32 second ∷ []) }
{
    stack.push_i32(first)?;
    stack.push_i32(second)?;
    Ok(())
}

/// Executes the call of fill that is next, if the bytes are in memory.
fn fill_at_once<'a>(
    modules: &'a [ValidModule],
    machine: &mut Machine<'a>,
    index: u32,
    rest: &'a [Op],
    most: u64,
) -> Result<u64, AllocError>
    requires { Calls modules.now machine.old kind.Fill index (tree rest.now) }
    ensures within { IfOk result (λ n. n ≤ most) }
    ensures goes { IfOk result (λ n. Goes modules.now n (going machine.old) (going machine.new)) }
{
    let Callee::Own { module, .. } = callee_at(&machine.store, machine.now.instance, index) else {
        return Ok(0);
    };
    let count = machine.now.stack.pop_i32();
    let to = machine.now.stack.pop_i32();
    let reductions = u64::from(count) * FILL_BYTE + FILL;
    if most < reductions {
        give_back(&mut machine.now.stack, to, count)?;
        return Ok(0);
    }
    let done = clear_bytes(&machine.store, &mut machine.memories, module, to, count);
    if done {
        machine.now.rest = rest;
        return Ok(reductions);
    }
    give_back(&mut machine.now.stack, to, count)?;
    Ok(0)
}

/// Puts three numbers of 32 bits back on top.
fn give_back_three(
    stack: &mut Operands,
    first: u32,
    second: u32,
    third: u32,
) -> Result<(), AllocError>
    ensures { OnOk result
        (stack.new.known.values
        ≡ stack.old.known.values ++ I32 first ∷ [] ++ I32 second ∷ [] ++ I32 third ∷ []) }
{
    give_back(stack, first, second)?;
    stack.push_i32(third)?;
    Ok(())
}

/// Executes the call of copy that is next, if the bytes are in memory and have room there.
fn copy_at_once<'a>(
    modules: &'a [ValidModule],
    machine: &mut Machine<'a>,
    index: u32,
    rest: &'a [Op],
    most: u64,
) -> Result<u64, AllocError>
    requires { Calls modules.now machine.old kind.Copy index (tree rest.now) }
    ensures within { IfOk result (λ n. n ≤ most) }
    ensures goes { IfOk result (λ n. Goes modules.now n (going machine.old) (going machine.new)) }
{
    let Callee::Own { module, .. } = callee_at(&machine.store, machine.now.instance, index) else {
        return Ok(0);
    };
    let count = machine.now.stack.pop_i32();
    let from = machine.now.stack.pop_i32();
    let to = machine.now.stack.pop_i32();
    let reductions = u64::from(count) * COPY_BYTE + COPY;
    if most < reductions {
        give_back_three(&mut machine.now.stack, to, from, count)?;
        return Ok(0);
    }
    let done = copy_bytes(
        &machine.store,
        &mut machine.memories,
        module,
        to,
        from,
        count,
    );
    if done {
        machine.now.rest = rest;
        return Ok(reductions);
    }
    give_back_three(&mut machine.now.stack, to, from, count)?;
    Ok(0)
}

/// Executes the call that is next, if it is of a known function and ends without a trap.
fn call_at_once<'a>(
    modules: &'a [ValidModule],
    table: &[Items<KnownFunction>],
    machine: &mut Machine<'a>,
    most: u64,
) -> Result<u64, AllocError>
    requires { ∥ Holds modules.now table.now (going machine.old) ∥₁ }
    ensures within { IfOk result (λ n. n ≤ most) }
    ensures goes { IfOk result (λ n. Goes modules.now n (going machine.old) (going machine.new)) }
{
    let Some((index, rest)) = next_call(machine.now.rest) else {
        return Ok(0);
    };
    let function = known_at(table, machine.now.instance, index);
    match function {
        KnownFunction::Other => Ok(0),
        KnownFunction::Fill => fill_at_once(modules, machine, index, rest, most),
        KnownFunction::Copy => copy_at_once(modules, machine, index, rest, most),
        KnownFunction::Check | KnownFunction::Divide | KnownFunction::Modulo => {
            calculate_at_once(modules, machine, function, index, rest, most)
        }
    }
}

/// Pushes a constant of 64 bits and executes what takes it, if this is made at once. The answer is how many reductions it
/// made, or 0.
#[inline(always)]
fn constant_at_once<'a>(
    modules: &'a [ValidModule],
    table: &[Items<KnownFunction>],
    machine: &mut Machine<'a>,
    most: u64,
) -> u64
    requires { ∥ Holds modules.now table.now (going machine.old) ∥₁ }
    ensures within { result ≤ most }
    ensures goes { Goes modules.now result (going machine.old) (going machine.new) }
{
    match machine.now.rest {
        [_, Op::I64Const(_), ..] => bounds_at_once(modules, table, machine, most),
        _ => combine_at_once(modules, table, machine, most),
    }
}

/// Makes several reductions at once, if what is next is known: this many, or none.
#[inline(always)]
fn at_once<'a>(
    modules: &'a [ValidModule],
    table: &[Items<KnownFunction>],
    machine: &mut Machine<'a>,
    most: u64,
) -> Result<u64, AllocError>
    requires { ∥ Holds modules.now table.now (going machine.old) ∥₁ }
    ensures within { IfOk result (λ n. n ≤ most) }
    ensures goes { IfOk result (λ n. Goes modules.now n (going machine.old) (going machine.new)) }
{
    match begins_with(machine.now.rest) {
        Front::Narrow => Ok(combine_at_once(modules, table, machine, most)),
        Front::Constant => Ok(constant_at_once(modules, table, machine, most)),
        Front::Call => call_at_once(modules, table, machine, most),
        Front::Other => Ok(0),
    }
}

#[inline(always)]
fn once<'a>(
    alloc: Global,
    modules: &'a [ValidModule],
    machine: &mut Machine<'a>,
) -> Result<(u64, Reduced), AllocError>
    requires { ∥ IsWell modules.now (going machine.old) ∥₁ }
    ensures { IfOk result (λ p.
        (p.0 ≡ 1) × (progress p.1 machine.new ≡ run modules.now 1 (going machine.old))) }
{
    let reduced = reduce(alloc, modules, machine)?;
    Ok((1, reduced))
}

/// One or more reductions, up to this many.
#[inline(always)]
pub fn several<'a>(
    alloc: Global,
    modules: &'a [ValidModule],
    table: &[Items<KnownFunction>],
    machine: &mut Machine<'a>,
    most: u64,
) -> Result<(u64, Reduced), AllocError>
    requires most { 0 < most }
    requires sound { ∥ Holds modules.now table.now (going machine.old) ∥₁ }
    ensures within { IfOk result (λ p. (0 < p.0) × (p.0 ≤ most)) }
    ensures made { IfOk result (λ p.
        progress p.1 machine.new ≡ run modules.now p.0 (going machine.old)) }
{
    let made = at_once(modules, table, machine, most)?;
    if made > 0 {
        return Ok((made, Reduced::On));
    }
    once(alloc, modules, machine)
}
