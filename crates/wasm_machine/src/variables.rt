//! Locals, globals and operands that are dropped (Core 1.0, sections 4.4.2 and 4.4.3).

ghost use Rattle.std.specs.Prelude.{◌≡◌, ◌<◌, IfOk, List, length};
ghost use Rattle.wasm_tree.specs.Machine.{global_at, begin_instruction};
ghost use Rattle.wasm_tree.specs.declared.module.WModule.{WModule};
ghost use Rattle.wasm_tree.specs.declared.instr.Instr.TheVariants as instr;
ghost use Rattle.wasm_machine.specs.Going.{activation, store_of, callers_of, progress};
ghost use Rattle.wasm_machine.specs.There.{IsThere};

use crate::frame::{Machine, Reduced};
use crate::places::place_of_global;
use std::alloc::AllocError;

/// Pushes the value of a global.
#[inline(always)]
pub fn global_get(machine: &mut Machine<'_>, global: u32) -> Result<Reduced, AllocError>
    requires { IsThere (global_at (store_of machine.old) machine.old.now.instance global) }
    ensures { IfOk result (λ r.
        (modules : List WModule)
        → progress r machine.new
        ≡ begin_instruction modules (store_of machine.old) (activation machine.old.now)
        (callers_of machine.old) (instr.GlobalGet global)) }
{
    let instance = machine.now.instance;
    let place = place_of_global(&machine.store, &machine.globals, instance, global);
    machine.now.stack.push_copy(&machine.globals, place)?;
    Ok(Reduced::On)
}

/// Pushes the value of a local.
#[inline(always)]
pub fn local_get(machine: &mut Machine<'_>, local: u32) -> Result<Reduced, AllocError>
    requires { local < length machine.old.now.locals.known.values }
    ensures { IfOk result (λ r.
        (modules : List WModule)
        → progress r machine.new
        ≡ begin_instruction modules (store_of machine.old) (activation machine.old.now)
        (callers_of machine.old) (instr.LocalGet local)) }
{
    let now = &mut machine.now;
    now.stack.push_copy(&now.locals, local as usize)?;
    Ok(Reduced::On)
}

/// Takes an operand and puts it into a local.
#[inline(always)]
pub fn local_set(machine: &mut Machine<'_>, local: u32) -> Reduced
    requires within { local < length machine.old.now.locals.known.values }
    requires one { 0 < length machine.old.now.stack.known.values }
    ensures { (modules : List WModule)
        → progress result machine.new
        ≡ begin_instruction modules (store_of machine.old) (activation machine.old.now)
        (callers_of machine.old) (instr.LocalSet local) }
{
    let now = &mut machine.now;
    now.locals.set_last(local as usize, &now.stack);
    now.stack.drop_last();
    Reduced::On
}

/// Puts the topmost operand into a local, and leaves it.
#[inline(always)]
pub fn local_tee(machine: &mut Machine<'_>, local: u32) -> Reduced
    requires within { local < length machine.old.now.locals.known.values }
    requires one { 0 < length machine.old.now.stack.known.values }
    ensures { (modules : List WModule)
        → progress result machine.new
        ≡ begin_instruction modules (store_of machine.old) (activation machine.old.now)
        (callers_of machine.old) (instr.LocalTee local) }
{
    let now = &mut machine.now;
    now.locals.set_last(local as usize, &now.stack);
    Reduced::On
}

/// Takes an operand away.
#[inline(always)]
pub fn drop_operand(machine: &mut Machine<'_>) -> Reduced
    requires { 0 < length machine.old.now.stack.known.values }
    ensures { (modules : List WModule)
        → progress result machine.new
        ≡ begin_instruction modules (store_of machine.old) (activation machine.old.now)
        (callers_of machine.old) instr.Drop }
{
    machine.now.stack.drop_last();
    Reduced::On
}
