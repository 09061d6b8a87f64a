//! A number that is pushed and the numeric instruction that takes it, at once.

ghost use Rattle.std.specs.Prelude.{◌≡◌, ◌≤◌, ◌∷◌, [], ◌++◌, IfSome, true};
ghost use Rattle.wasm_tree.specs.Code.{tree};
ghost use Rattle.wasm_tree.specs.declared.store.Value.TheVariants.{I32, I64};
ghost use Rattle.wasm_tree.specs.declared.instr.Instr.TheVariants as instr;
ghost use Rattle.wasm_sound.specs.Ready.{AreNumbers, IsI32, IsI64};
ghost use Rattle.wasm_machine.specs.Going.{going};
ghost use Rattle.wasm_engine.specs.Quick.{Combined, Goes, Holds, pushing};

use tree_parts::Items;
use wasm_known::KnownFunction;
use wasm_machine::Machine;
use wasm_operands::{Operands, compares_64, operation_result, truth};
use wasm_tree::{Numeric, Op, Operation, Relation, Value, first_of};
use wasm_valid::ValidModule;

/// How many reductions the two are.
const BOTH: u64 = 2;

/// The number that is pushed next, and what stands behind it.
#[inline(always)]
fn next_number(code: &[Op]) -> Option<(Value, &[Op])>
    ensures { IfSome result (λ p. tree code.now ≡ pushing p.0 ∷ tree p.1.now) }
{
    let (op, rest) = first_of(code)?;
    match op {
        Op::I32Const(number) => Some((Value::I32(number), rest)),
        Op::I64Const(number) => Some((Value::I64(number), rest)),
        _ => None,
    }
}

/// The numeric instruction that is next, and what stands behind it.
#[inline(always)]
fn next_numeric(code: &[Op]) -> Option<(Numeric, &[Op])>
    ensures { IfSome result (λ p. tree code.now ≡ instr.Numeric p.0 ∷ tree p.1.now) }
{
    let (op, rest) = first_of(code)?;
    match op {
        Op::Numeric(numeric) => Some((numeric, rest)),
        _ => None,
    }
}

/// Adds a number of 32 bits to the one on top.
#[inline(always)]
fn add(stack: &mut Operands, number: u32)
    requires { ∥ IsI32 stack.old.known.values ∥₁ }
    ensures { Combined true Numeric.I32Add (I32 number) stack.old.known.values
        stack.new.known.values }
{
    let n = stack.top_i32();
    stack.set_i32(n.wrapping_add(number));
}

/// Puts what is made of the number on top and this one in its place. False if that is not defined.
#[inline(always)]
fn operate(stack: &mut Operands, operation: Operation, number: u64) -> bool
    requires { ∥ IsI64 stack.old.known.values ∥₁ }
    ensures { Combined result (Numeric.I64Operation operation) (I64 number) stack.old.known.values
        stack.new.known.values }
{
    let n = stack.top_i64();
    match operation_result(operation, n, number) {
        None => false,
        Some(made) => {
            stack.set_i64(made);
            true
        }
    }
}

/// Puts in the place of the number on top whether it and this one compare so.
#[inline(always)]
fn compare(stack: &mut Operands, relation: Relation, number: u64)
    requires { ∥ IsI64 stack.old.known.values ∥₁ }
    ensures { Combined true (Numeric.I64Relation relation) (I64 number) stack.old.known.values
        stack.new.known.values }
{
    let n = stack.top_i64();
    stack.set_i32(truth(compares_64(relation, n, number)));
}

/// Puts what this instruction makes of the number on top and this one of 32 bits in its place. False if it leaves all.
#[inline(always)]
fn combine_32(stack: &mut Operands, numeric: Numeric, number: u32) -> bool
    requires { ∥ AreNumbers numeric (stack.old.known.values ++ I32 number ∷ []) ∥₁ }
    ensures { Combined result numeric (I32 number) stack.old.known.values stack.new.known.values }
{
    match numeric {
        Numeric::I32Add => {
            add(stack, number);
            true
        }
        _ => false,
    }
}

/// The same with a number of 64 bits.
#[inline(always)]
fn combine_64(stack: &mut Operands, numeric: Numeric, number: u64) -> bool
    requires { ∥ AreNumbers numeric (stack.old.known.values ++ I64 number ∷ []) ∥₁ }
    ensures { Combined result numeric (I64 number) stack.old.known.values stack.new.known.values }
{
    match numeric {
        Numeric::I64Operation(operation) => operate(stack, operation, number),
        Numeric::I64Relation(relation) => {
            compare(stack, relation, number);
            true
        }
        _ => false,
    }
}

/// The same with either.
#[inline(always)]
fn combine(stack: &mut Operands, numeric: Numeric, number: Value) -> bool
    requires { ∥ AreNumbers numeric (stack.old.known.values ++ number ∷ []) ∥₁ }
    ensures { Combined result numeric number stack.old.known.values stack.new.known.values }
{
    match number {
        Value::I32(number) => combine_32(stack, numeric, number),
        Value::I64(number) => combine_64(stack, numeric, number),
    }
}

/// Pushes the number that is next and executes the numeric instruction behind it, if both are ones that are made at once.
/// It makes both reductions, or none.
#[inline(always)]
pub fn combine_at_once<'a>(
    modules: &'a [ValidModule],
    table: &[Items<KnownFunction>],
    machine: &mut Machine<'a>,
    most: u64,
) -> u64
    requires { ∥ Holds modules.now table.now (going machine.old) ∥₁ }
    ensures within { result ≤ most }
    ensures goes { Goes modules.now result (going machine.old) (going machine.new) }
{
    let Some((number, code)) = next_number(machine.now.rest) else {
        return 0;
    };
    let Some((numeric, rest)) = next_numeric(code) else {
        return 0;
    };
    if most < BOTH {
        return 0;
    }
    if !combine(&mut machine.now.stack, numeric, number) {
        return 0;
    }
    machine.now.rest = rest;
    BOTH
}
