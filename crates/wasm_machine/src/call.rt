//! Calls and returns (Core 1.0, section 4.4.7).

ghost use Rattle.std.specs.Prelude.{◌≡◌, ◌≤◌, ◌-◌, [], ◌++◌, IfOk, OnOk, Some, None, List, map, drop, length};
ghost use Rattle.std.specs.List.{flat_map};
ghost use Rattle.wasm_tree.specs.Machine.{agree, callee_type, stop_with, enter_function, call_function, begin_instruction, branch_to, zeros, split_last};
ghost use Rattle.wasm_link.specs.Placed.{typed_function};
ghost use Rattle.wasm_tree.specs.declared.store.Callee.TheVariants.{Put, Stop, Own};
ghost use Rattle.wasm_tree.specs.declared.instr.Instr.TheVariants.{Call, CallIndirect};
ghost use Rattle.wasm_tree.specs.declared.module.WModule.{WModule};
ghost use Rattle.wasm_sound.specs.Ready.{IsI64, CanCall, CanCallIndex, CanCallTop};
ghost use Rattle.wasm_machine.specs.Going.{activation, store_of, callers_of, progress, waiting, called_typed};
ghost use Rattle.wasm_machine.specs.There.{IsThere};
ghost use Rattle.wasm_machine.specs.declared.frame.Machine.{Machine};

use crate::frame::{Frame, Machine, Reduced};
use crate::places::{callee_at, callee_in, function_at, type_at};
use std::alloc::{AllocError, Global};
use std::mem;
use wasm_link::{TypedFunction, has_types, is_same_type};
use wasm_operands::Operands;
use wasm_tree::{Callee, FuncType, Locals, ValueType};
use wasm_valid::ValidModule;

#[inline(always)]
fn push_locals(locals: &mut Operands, groups: &[Locals]) -> Result<(), AllocError>
    ensures { OnOk result
        (locals.new.known.values ≡ locals.old.known.values ++ flat_map zeros groups.now) }
{
    for group in groups {
        locals.push_zeros(*group)?;
    }
    Ok(())
}

/// A function of which nothing is known yet.
fn no_frame<'a>(alloc: Global) -> Frame<'a> {
    Frame {
        instance: 0,
        arity: 0,
        locals: Operands::new(alloc),
        labels: Vec::new(alloc),
        rest: &[],
        stack: Operands::new(alloc),
    }
}

/// Makes a frame, whatever it was, the frame of a function that begins with the topmost operands, this many.
#[inline(always)]
fn enter<'a>(
    frame: &mut Frame<'a>,
    instance: usize,
    function: TypedFunction<'a>,
    stack: &Operands,
    count: usize,
) -> Result<(), AllocError>
    requires { count ≤ length stack.now.known.values }
    ensures { OnOk result
        (activation frame.new ≡ enter_function instance (typed_function function.entry)
        (drop (length stack.now.known.values - count) stack.now.known.values)) }
{
    let body = &function.function.body;
    frame.instance = instance;
    frame.arity = function.func_type.results.len();
    frame.locals.truncate(0);
    frame.locals.push_end(stack, count)?;
    push_locals(&mut frame.locals, body.locals.as_slice())?;
    frame.labels.clear();
    frame.rest = body.code.ops();
    frame.stack.truncate(0);
    Ok(())
}

/// A function that begins without arguments.
pub fn first_frame<'a>(
    alloc: Global,
    instance: usize,
    function: TypedFunction<'a>,
) -> Result<Frame<'a>, AllocError>
    ensures { IfOk result (λ f.
        activation f ≡ enter_function instance (typed_function function.entry) []) }
{
    let mut frame = no_frame(alloc);
    enter(&mut frame, instance, function, &Operands::new(alloc), 0)?;
    Ok(frame)
}

/// The run ends with this number, or traps if it is none of 1 to 255.
fn stop(number: u64) -> Reduced
    ensures { (m : Machine) → progress result m ≡ (stop_with number, []) }
{
    match u8::try_from(number) {
        Ok(number) if 1 <= number => Reduced::Over(number),
        _ => Reduced::Trapped,
    }
}

/// A frame that was left, or a new one.
#[inline(always)]
fn spare_frame<'a>(alloc: Global, spare: &mut Vec<Frame<'a>>) -> Frame<'a> {
    match spare.pop() {
        Some(frame) => frame,
        None => no_frame(alloc),
    }
}

/// The function begins, and the one that ran waits for it.
#[inline(always)]
fn call_typed<'a>(
    alloc: Global,
    machine: &mut Machine<'a>,
    number: usize,
    function: TypedFunction<'a>,
) -> Result<Reduced, AllocError>
    requires { length (typed_function function).type.params
        ≤ length machine.old.now.stack.known.values }
    ensures { IfOk result (λ r.
        progress r machine.new
        ≡ called_typed (store_of machine.old) (activation machine.old.now)
        (callers_of machine.old) number (typed_function function.entry)) }
{
    let count = function.func_type.params.len();
    let next = spare_frame(alloc, &mut machine.spare);
    let mut caller = mem::replace(&mut machine.now, next);
    enter(&mut machine.now, number, function, &caller.stack, count)?;
    let height = caller.stack.len() - count;
    caller.stack.truncate(height);
    machine.callers.push(caller)?;
    Ok(Reduced::On)
}

/// The function is called: the host prints or stops, a module's own function begins.
#[inline(always)]
fn call<'a>(
    alloc: Global,
    modules: &'a [ValidModule],
    machine: &mut Machine<'a>,
    callee: Callee,
) -> Result<Reduced, AllocError>
    requires { ∥ CanCall modules.now machine.old.now.stack.known.values callee ∥₁ }
    ensures { IfOk result (λ r.
        progress r machine.new
        ≡ call_function modules.now (store_of machine.old) (activation machine.old.now)
        (callers_of machine.old) callee) }
{
    match callee {
        Callee::Put => Ok(Reduced::Printed((machine.now.stack.pop_i64() % 256) as u8)),
        Callee::Stop => Ok(stop(machine.now.stack.pop_i64())),
        Callee::Own { module, function } => {
            call_typed(
                alloc,
                machine,
                module,
                function_at(modules, module, function),
            )
        }
    }
}

/// The call of the function of this index.
#[tactic(auto, using(crate::proofs::Opened::out_call))]
#[inline(always)]
pub fn call_index<'a>(
    alloc: Global,
    modules: &'a [ValidModule],
    machine: &mut Machine<'a>,
    function: u32,
) -> Result<Reduced, AllocError>
    requires { ∥ CanCallIndex modules.now (store_of machine.old) machine.old.now.instance
        machine.old.now.stack.known.values function ∥₁ }
    ensures { IfOk result (λ r.
        progress r machine.new
        ≡ begin_instruction modules.now (store_of machine.old) (activation machine.old.now)
        (callers_of machine.old) (Call function)) }
{
    let callee = callee_at(&machine.store, machine.now.instance, function);
    call(alloc, modules, machine, callee)
}

/// Whether the function can be called as one of the type asked for.
#[inline(always)]
fn agrees(modules: &[ValidModule], asked: &FuncType, callee: Callee) -> bool
    requires { IsThere (callee_type modules.now callee) }
    ensures { result ≡ agree (Some asked.now) (callee_type modules.now callee) }
{
    match callee {
        Callee::Put | Callee::Stop => has_types(asked, &[ValueType::I64], &[]),
        Callee::Own { module, function } => {
            is_same_type(asked, function_at(modules, module, function).func_type)
        }
    }
}

/// The call of the function in the slot that the topmost operand names.
#[tactic(auto, using(crate::proofs::Opened::out_call_indirect))]
#[inline(always)]
pub fn call_indirect<'a>(
    alloc: Global,
    modules: &'a [ValidModule],
    machine: &mut Machine<'a>,
    type_index: u32,
) -> Result<Reduced, AllocError>
    requires { ∥ CanCallTop modules.now (store_of machine.old) machine.old.now.instance
        machine.old.now.stack.known.values type_index ∥₁ }
    ensures { IfOk result (λ r.
        progress r machine.new
        ≡ begin_instruction modules.now (store_of machine.old) (activation machine.old.now)
        (callers_of machine.old) (CallIndirect type_index)) }
{
    let slot = machine.now.stack.pop_i32();
    let Some(callee) = callee_in(&machine.store, machine.now.instance, slot) else {
        return Ok(Reduced::Trapped);
    };
    let asked = type_at(modules, machine.now.instance, type_index);
    if !agrees(modules, asked, callee) {
        return Ok(Reduced::Trapped);
    }
    call(alloc, modules, machine, callee)
}

/// The last caller, which waits for the function that runs.
fn pop_caller<'a>(callers: &mut Vec<Frame<'a>>) -> Option<Frame<'a>>
    ensures { waiting callers.new.items result ≡ split_last (map activation callers.old.items) }
{
    callers.pop()
}

/// The function that runs gives its results to the one that called it.
#[inline(always)]
pub fn leave(machine: &mut Machine<'_>) -> Result<Reduced, AllocError>
    requires { machine.old.now.arity ≤ length machine.old.now.stack.known.values }
    ensures { IfOk result (λ r.
        progress r machine.new
        ≡ branch_to (store_of machine.old) (activation machine.old.now) (callers_of machine.old)
        None) }
{
    let Some(caller) = pop_caller(&mut machine.callers) else {
        return Ok(Reduced::Over(0));
    };
    let left = mem::replace(&mut machine.now, caller);
    machine.now.stack.push_end(&left.stack, left.arity)?;
    machine.spare.push(left)?;
    Ok(Reduced::On)
}
