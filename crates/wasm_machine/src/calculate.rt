//! Instructions that take numbers off the operand stack and push one (Core 1.0, section 4.4.1).

ghost use Rattle.std.specs.Prelude.{◌≡◌, ◌<◌, ◌-◌, Some, None, List, take, length};
ghost use Rattle.wasm_tree.specs.Machine.{calculation, begin_instruction, top_i32, top_i64};
ghost use Rattle.wasm_tree.specs.declared.module.WModule.{WModule};
ghost use Rattle.wasm_tree.specs.declared.instr.Instr.TheVariants as instr;
ghost use Rattle.wasm_sound.specs.Ready.{IsI32, IsI64, AreI32, AreI64, AreNumbers};
ghost use Rattle.wasm_machine.specs.Run.{if_kept};
ghost use Rattle.wasm_machine.specs.There.{replace_operands};
ghost use Rattle.wasm_machine.specs.Going.{activation, store_of, callers_of, progress};

use crate::frame::{Machine, Reduced};
use wasm_operands::{Operands, compares_32, compares_64, extend_number, operation_result, truth};
use wasm_tree::{Numeric, Operation, Relation};

/// Two numbers of 32 bits, of which the topmost one is taken off.
#[inline(always)]
fn two_32(stack: &mut Operands) -> (u32, u32)
    requires { ∥ AreI32 stack.old.known.values ∥₁ }
    ensures top { top_i32 stack.old.known.values ≡ Some (stack.new.known.values, result.1) }
    ensures next { top_i32 stack.new.known.values
        ≡ Some (take (length stack.new.known.values - 1) stack.new.known.values, result.0) }
    ensures some { 0 < length stack.new.known.values }
{
    let m = stack.pop_i32();
    (stack.top_i32(), m)
}

/// Two numbers of 64 bits, of which the topmost one is taken off.
#[inline(always)]
fn two_64(stack: &mut Operands) -> (u64, u64)
    requires { ∥ AreI64 stack.old.known.values ∥₁ }
    ensures top { top_i64 stack.old.known.values ≡ Some (stack.new.known.values, result.1) }
    ensures next { top_i64 stack.new.known.values
        ≡ Some (take (length stack.new.known.values - 1) stack.new.known.values, result.0) }
    ensures some { 0 < length stack.new.known.values }
{
    let m = stack.pop_i64();
    (stack.top_i64(), m)
}

/// Puts what is made of two numbers of 64 bits in their place. False if that is not defined.
#[inline(always)]
fn operate(stack: &mut Operands, operation: Operation) -> bool
    requires { ∥ AreI64 stack.old.known.values ∥₁ }
    ensures { if_kept stack.new.known.values result
        ≡ replace_operands (calculation (Numeric.I64Operation operation) stack.old.known.values) }
{
    let (n, m) = two_64(stack);
    match operation_result(operation, n, m) {
        None => false,
        Some(number) => {
            stack.set_i64(number);
            true
        }
    }
}

/// Puts what this instruction makes of the topmost operands in their place. False if that is not defined.
#[tactic(auto, using(wasm_operands::proofs::Cells::some_32, wasm_operands::proofs::Cells::some_64))]
#[inline(always)]
fn replace_top(stack: &mut Operands, numeric: Numeric) -> bool
    requires { ∥ AreNumbers numeric stack.old.known.values ∥₁ }
    ensures { if_kept stack.new.known.values result
        ≡ replace_operands (calculation numeric stack.old.known.values) }
{
    match numeric {
        Numeric::I32Eqz => {
            let n = stack.top_i32();
            stack.set_i32(truth(n == 0));
        }
        Numeric::I32Relation(relation) => {
            let (n, m) = two_32(stack);
            stack.set_i32(truth(compares_32(relation, n, m)));
        }
        Numeric::I64Eqz => {
            let n = stack.top_i64();
            stack.set_i32(truth(n == 0));
        }
        Numeric::I64Relation(relation) => {
            let (n, m) = two_64(stack);
            stack.set_i32(truth(compares_64(relation, n, m)));
        }
        Numeric::I32Add => {
            let (n, m) = two_32(stack);
            stack.set_i32(n.wrapping_add(m));
        }
        Numeric::I64Operation(operation) => return operate(stack, operation),
        Numeric::I32WrapI64 => {
            let n = stack.top_i64();
            stack.set_i32((n % 4_294_967_296) as u32);
        }
        Numeric::I64ExtendI32S => {
            let n = stack.top_i32();
            stack.set_i64(extend_number(n));
        }
        Numeric::I64ExtendI32U => {
            let n = stack.top_i32();
            stack.set_i64(u64::from(n));
        }
    }
    true
}

/// Puts what this instruction makes of the topmost operands in their place.
#[tactic(auto, using(crate::proofs::Opened::out_numeric))]
#[inline(always)]
pub fn calculate(machine: &mut Machine<'_>, numeric: Numeric) -> Reduced
    requires { ∥ AreNumbers numeric machine.old.now.stack.known.values ∥₁ }
    ensures { (modules : List WModule)
        → progress result machine.new
        ≡ begin_instruction modules (store_of machine.old) (activation machine.old.now)
        (callers_of machine.old) (instr.Numeric numeric) }
{
    if replace_top(&mut machine.now.stack, numeric) {
        Reduced::On
    } else {
        Reduced::Trapped
    }
}
