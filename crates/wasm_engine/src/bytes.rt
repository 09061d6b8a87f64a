//! Bytes of a memory, changed in bulk.

ghost use Rattle.std.specs.Prelude.{◌≡◌, ◌≤◌, ◌<◌, ◌+◌, ◌⊎◌, ℕ, IfSome, map, max, length};
ghost use Rattle.law_effect.specs.Bytes.{byte, cleared_bytes, copied_bytes};
ghost use Rattle.wasm_machine.specs.Going.{memory_from};
ghost use Rattle.wasm_engine.specs.Quick.{Changed, Reaches, memory_place};

use tree_parts::at;
use wasm_machine::Pages;
use wasm_tree::Store;

/// The size of the largest memory: of this size none is changed in bulk.
const LARGEST: usize = 4_294_967_296;

/// Where the memory of a module stands, if it has one.
fn place_of_memory(store: &Store, instance: usize) -> Option<usize>
    ensures { result ≡ memory_place store.now instance }
{
    let instance = at(store.instances.as_slice(), instance)?;
    Some(*at(instance.memories.as_slice(), 0)?)
}

/// How many bytes there are.
fn count_bytes(bytes: &[u8]) -> usize
    ensures count { result ≡ length bytes.now }
    ensures small { (a : ℕ) → byte a bytes.now < 256 }
{
    bytes.len()
}

/// Where the memory of a module stands, if it reaches so far and is not the largest.
fn place_reaching(store: &Store, memories: &[Pages], instance: usize, reach: usize) -> Option<usize>
    ensures { IfSome result (λ place.
        (place < length memories.now)
        × Reaches store.now instance reach (map memory_from memories.now) place) }
{
    let place = place_of_memory(store, instance)?;
    let memory = at(memories, place)?;
    let size = count_bytes(memory.bytes.as_slice());
    if LARGEST <= size || size < reach {
        return None;
    }
    Some(place)
}

/// Sets bytes to 0, `count` from a place on.
fn clear(bytes: &mut [u8], to: usize, count: usize)
    requires { to + count ≤ length bytes.old }
    ensures { bytes.new ≡ cleared_bytes count to bytes.old }
{
    for place in to..to + count {
        bytes[place] = 0;
    }
}

/// Sets bytes of a memory to 0.
fn clear_memory(memory: &mut Pages, to: usize, count: usize)
    requires { to + count ≤ length memory.old.bytes.items }
    ensures { memory_from memory.new ≡ record (memory_from memory.old)
        { bytes = cleared_bytes count to memory.old.bytes.items } }
{
    clear(memory.bytes.as_mut_slice(), to, count);
}

/// Sets bytes of a module's memory to 0, if it has them.
pub fn clear_bytes(
    store: &Store,
    memories: &mut Vec<Pages>,
    instance: usize,
    to: u32,
    count: u32,
) -> bool
    ensures { Changed result store.now instance (to + count) (cleared_bytes count to)
        (map memory_from memories.old.items) (map memory_from memories.new.items) }
{
    let to = to as usize;
    let count = count as usize;
    let Some(place) = place_reaching(store, memories.as_slice(), instance, to + count) else {
        return false;
    };
    clear_memory(&mut memories[place], to, count);
    true
}

/// Copies bytes one by one, from the first to the last.
fn copy_each(bytes: &mut [u8], to: usize, from: usize, count: usize)
    requires target { to + count ≤ length bytes.old }
    requires source { from + count ≤ length bytes.old }
    ensures { bytes.new ≡ copied_bytes count to from bytes.old }
{
    for done in 0..count {
        bytes[to + done] = bytes[from + done];
    }
}

/// Copies bytes all at once. None is read that was written before.
fn copy_apart(bytes: &mut [u8], to: usize, from: usize, count: usize)
    requires target { to + count ≤ length bytes.old }
    requires source { from + count ≤ length bytes.old }
    requires apart { (to ≤ from) ⊎ (from + count ≤ to) }
    ensures { bytes.new ≡ copied_bytes count to from bytes.old }
{
    bytes.copy_within(from..from + count, to);
}

/// Copies bytes from the first to the last: what was written is read again if the target begins inside the source.
fn copy(bytes: &mut [u8], to: usize, from: usize, count: usize)
    requires target { to + count ≤ length bytes.old }
    requires source { from + count ≤ length bytes.old }
    ensures { bytes.new ≡ copied_bytes count to from bytes.old }
{
    if to <= from || from + count <= to {
        copy_apart(bytes, to, from, count);
    } else {
        copy_each(bytes, to, from, count);
    }
}

/// Copies bytes of a memory.
fn copy_in_memory(memory: &mut Pages, to: usize, from: usize, count: usize)
    requires target { to + count ≤ length memory.old.bytes.items }
    requires source { from + count ≤ length memory.old.bytes.items }
    ensures { memory_from memory.new ≡ record (memory_from memory.old)
        { bytes = copied_bytes count to from memory.old.bytes.items } }
{
    copy(memory.bytes.as_mut_slice(), to, from, count);
}

/// How far `count` bytes from each of two places on reach.
fn reach_of_both(to: u32, from: u32, count: u32) -> usize
    ensures { result ≡ max to from + count }
{
    if to < from {
        from as usize + count as usize
    } else {
        to as usize + count as usize
    }
}

/// Copies bytes of a module's memory from the first to the last, if it has them and has room for them.
pub fn copy_bytes(
    store: &Store,
    memories: &mut Vec<Pages>,
    instance: usize,
    to: u32,
    from: u32,
    count: u32,
) -> bool
    ensures { Changed result store.now instance (max to from + count) (copied_bytes count to from)
        (map memory_from memories.old.items) (map memory_from memories.new.items) }
{
    let reach = reach_of_both(to, from, count);
    let Some(place) = place_reaching(store, memories.as_slice(), instance, reach) else {
        return false;
    };
    copy_in_memory(
        &mut memories[place],
        to as usize,
        from as usize,
        count as usize,
    );
    true
}
