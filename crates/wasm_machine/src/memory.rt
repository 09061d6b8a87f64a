//! Loads and stores (Core 1.0, section 4.4.4).

ghost use Rattle.std.specs.Prelude.{◌≡◌, ◌+◌, ◌≤◌, ◌<◌, ◌^◌, Option, Some, None, List, length};
ghost use Rattle.std.specs.Option.{option_map};
ghost use Rattle.wasm_tree.specs.Machine.{top_i32, memory_of, bytes_at, paste_items, stores, or_trap, begin_instruction};
ghost use Rattle.wasm_tree.specs.Numbers.{load_size, load_number};
ghost use Rattle.wasm_tree.specs.declared.module.WModule.{WModule};
ghost use Rattle.wasm_tree.specs.declared.instr.Instr.TheVariants as instr;
ghost use Rattle.wasm_sound.specs.Ready.{IsI32, CanStore};
ghost use Rattle.wasm_machine.specs.There.{IsThere};
ghost use Rattle.wasm_machine.specs.Going.{activation, store_of, callers_of, progress, memory_from, bytes_seen};

use crate::frame::{Machine, Pages, Reduced};
use crate::places::memory_of;
use wasm_operands::{load_number, load_size};
use wasm_tree::{Load, StoreWidth};

/// `size` bytes from a place on, if they are there.
fn bytes_at(bytes: &[u8], place: usize, size: usize) -> Option<&[u8]>
    requires { place + size < 2 ^ 64 }
    ensures { bytes_seen result ≡ bytes_at size place bytes.now }
{
    if place + size <= bytes.len() {
        Some(&bytes[place..place + size])
    } else {
        None
    }
}

/// The number that the bytes from a place on are loaded as, if they are there.
fn number_at(kind: Load, bytes: &[u8], place: u32) -> Option<u64>
    ensures { result ≡ option_map (load_number kind) (bytes_at (load_size kind) place bytes.now) }
{
    let part = bytes_at(bytes, place as usize, load_size(kind))?;
    Some(load_number(kind, part))
}

/// Puts what the memory holds at the address on top in its place.
#[tactic(auto, using(crate::proofs::Opened::out_load))]
#[inline(always)]
pub fn load(machine: &mut Machine<'_>, kind: Load) -> Reduced
    requires address { ∥ IsI32 machine.old.now.stack.known.values ∥₁ }
    requires memory { IsThere (memory_of (store_of machine.old) machine.old.now.instance) }
    ensures { (modules : List WModule)
        → progress result machine.new
        ≡ begin_instruction modules (store_of machine.old) (activation machine.old.now)
        (callers_of machine.old) (instr.Load kind) }
{
    let place = machine.now.stack.top_i32();
    let instance = machine.now.instance;
    let (_, memory) = memory_of(&machine.store, &machine.memories, instance);
    match number_at(kind, memory.bytes.as_slice(), place) {
        None => Reduced::Trapped,
        Some(number) => {
            machine.now.stack.set_i64(number);
            Reduced::On
        }
    }
}

/// Puts bytes over those from a place on.
#[inline(always)]
fn paste(memory: &mut Pages, place: usize, bytes: &[u8])
    requires within { place + length bytes.now ≤ length memory.old.bytes.items }
    requires small { place + length bytes.now < 2 ^ 64 }
    ensures { memory_from memory.new ≡ record (memory_from memory.old)
        { bytes = paste_items memory.old.bytes.items place bytes.now } }
{
    memory.bytes[place..place + bytes.len()].copy_from_slice(bytes);
}

/// Stores bytes at the address on top, if the memory reaches so far.
#[inline(always)]
fn store_bytes(machine: &mut Machine<'_>, bytes: &[u8]) -> Reduced
    requires few { length bytes.now ≤ 8 }
    requires address { ∥ IsI32 machine.old.now.stack.known.values ∥₁ }
    requires memory { IsThere (memory_of (store_of machine.old) machine.old.now.instance) }
    ensures { progress result machine.new
        ≡ or_trap (top_i32 machine.old.now.stack.known.values) (λ p.
        or_trap (memory_of (store_of machine.old) machine.old.now.instance)
        (stores (store_of machine.old) (record (activation machine.old.now) { stack = p.0 })
        (callers_of machine.old) p.1 bytes.now)) }
{
    let place = machine.now.stack.pop_i32() as usize;
    let instance = machine.now.instance;
    let (address, memory) = memory_of(&machine.store, &machine.memories, instance);
    if memory.bytes.len() < place + bytes.len() {
        return Reduced::Trapped;
    }
    paste(&mut machine.memories[address], place, bytes);
    Reduced::On
}

/// Takes a number and an address below it, and stores the number there.
#[tactic(auto, using(crate::proofs::Opened::out_store))]
#[inline(always)]
pub fn store(machine: &mut Machine<'_>, width: StoreWidth) -> Reduced
    requires { ∥ CanStore (store_of machine.old) machine.old.now.instance
        machine.old.now.stack.known.values ∥₁ }
    ensures { (modules : List WModule)
        → progress result machine.new
        ≡ begin_instruction modules (store_of machine.old) (activation machine.old.now)
        (callers_of machine.old) (instr.Store width) }
{
    let number = machine.now.stack.pop_i64();
    match width {
        StoreWidth::Eight => store_bytes(machine, &number.to_le_bytes()),
        StoreWidth::One => store_bytes(machine, &((number % 256) as u8).to_le_bytes()),
        StoreWidth::Two => store_bytes(machine, &((number % 65_536) as u16).to_le_bytes()),
        StoreWidth::Four => store_bytes(machine, &((number % 4_294_967_296) as u32).to_le_bytes()),
    }
}
