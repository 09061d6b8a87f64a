//! Segments, placed in tables and memories (Core 1.0, section 4.5.4).

ghost use Rattle.std.specs.Prelude.{◌≡◌, ◌+◌, ◌≤◌, Ok, OnOk, IfOk, Option, Some, None, length, slice_get};
ghost use Rattle.wasm_tree.specs.declared.store.Instance.{Instance};
ghost use Rattle.std.specs.Option.{option_copied};
ghost use Rattle.wasm_tree.specs.Format.{Gives};
ghost use Rattle.wasm_tree.specs.Machine.{paste_items};
ghost use Rattle.wasm_tree.specs.Linking.{offset_of, addresses, with_slots, some_address, with_element, with_bytes, with_segment, each};
ghost use Rattle.wasm_link.specs.Placed.{link_result, items_of, write_items};

use crate::store::value_of;
use std::alloc::{AllocError, Global};
use std::mem;
use tree_parts::{Items, at};
use wasm_tree::{Data, Element, Instance, Store, Value, WFault};

fn offset_of(value: Option<Value>) -> Result<usize, WFault>
    ensures { Gives (λ n. n) result (offset_of value) }
{
    match value {
        Some(Value::I32(offset)) => Ok(offset as usize),
        Some(Value::I64(_)) | None => Err(WFault::SegmentOutside),
    }
}

/// The place in the store that an index stands for.
fn some_address(places: &[usize], index: u32) -> Result<usize, WFault>
    ensures { Gives (λ n. n) result (some_address places.now index) }
{
    match at(places, index as usize) {
        Some(address) => Ok(*address),
        None => Err(WFault::SegmentOutside),
    }
}

/// Writes into a list from a place on.
fn paste<T: Copy>(alloc: Global, items: &mut Items<T>, place: usize, others: &[T])
    requires { place + length others.now ≤ length items.old }
    ensures { items.new ≡ paste_items items.old place others.now }
{
    let mut all = mem::replace(items, Items::new(alloc)).into_vec();
    all[place..place + others.len()].copy_from_slice(others);
    *items = Items::from_vec(all);
}

/// Writes into a list from a place on. `SegmentOutside` if it does not reach so far.
fn write<T: Copy>(
    alloc: Global,
    items: &mut Items<T>,
    place: usize,
    others: &[T],
) -> Result<(), WFault>
    ensures { Gives (λ _. items.new) result (write_items place items.old others.now) }
{
    if items.len() < others.len() || items.len() - others.len() < place {
        return Err(WFault::SegmentOutside);
    }
    paste(alloc, items, place, others);
    Ok(())
}

/// The addresses of functions, or nothing if one is unknown.
fn addresses(
    alloc: Global,
    instance: &Instance,
    functions: &[u32],
) -> Result<Option<Vec<Option<usize>>>, AllocError>
    ensures { IfOk result (λ found. items_of found ≡ addresses instance.now functions.now) }
{
    let mut slots = Vec::new(alloc);
    for function in functions {
        let Some(address) = at(instance.functions.as_slice(), *function as usize) else {
            return Ok(None);
        };
        slots.push(Some(*address))?;
    }
    Ok(Some(slots))
}

/// Fills slots of a table from a place on: they cost what they are, however large the table is.
fn with_slots(
    alloc: Global,
    store: &mut Store,
    table: usize,
    place: usize,
    slots: &[Option<usize>],
) -> Result<(), WFault>
    ensures { (i : Instance)
        → Gives (λ _. link_result store.new i) result
        (with_slots (link_result store.old i) table place (slice_get store.old.tables table)
        (Some slots.now)) }
{
    let mut tables = mem::replace(&mut store.tables, Items::new(alloc)).into_vec();
    if tables.len() <= table {
        return Err(WFault::SegmentOutside);
    }
    write(alloc, &mut tables[table].slots, place, slots)?;
    store.tables = Items::from_vec(tables);
    Ok(())
}

fn with_element(
    alloc: Global,
    store: &mut Store,
    instance: &Instance,
    element: &Element,
) -> Result<(), WFault>
    ensures { Gives (λ _. link_result store.new instance.now) result
        (with_element element.now (link_result store.old instance.now)) }
{
    let place = offset_of(value_of(store, instance, element.offset.ops()))?;
    let table = some_address(instance.tables.as_slice(), element.table)?;
    match addresses(alloc, instance, element.functions.as_slice())? {
        None => Err(WFault::SegmentOutside),
        Some(slots) => with_slots(alloc, store, table, place, &slots),
    }
}

/// Places the elements. `SegmentOutside` at the first that reaches past its table.
pub fn with_elements(
    alloc: Global,
    store: &mut Store,
    instance: &Instance,
    elements: &[Element],
) -> Result<(), WFault>
    ensures { Gives (λ _. link_result store.new instance.now) result
        (each with_element elements.now (link_result store.old instance.now)) }
{
    for element in elements {
        with_element(alloc, store, instance, element)?;
    }
    Ok(())
}

/// Writes bytes of a memory from a place on: they cost what they are, however large the memory is.
fn with_bytes(
    alloc: Global,
    store: &mut Store,
    memory: usize,
    place: usize,
    bytes: &[u8],
) -> Result<(), WFault>
    ensures { (i : Instance)
        → Gives (λ _. link_result store.new i) result
        (with_bytes (link_result store.old i) memory place (slice_get store.old.memories memory)
        bytes.now) }
{
    let mut memories = mem::replace(&mut store.memories, Items::new(alloc)).into_vec();
    if memories.len() <= memory {
        return Err(WFault::SegmentOutside);
    }
    write(alloc, &mut memories[memory].bytes, place, bytes)?;
    store.memories = Items::from_vec(memories);
    Ok(())
}

fn with_segment(
    alloc: Global,
    store: &mut Store,
    instance: &Instance,
    segment: &Data,
) -> Result<(), WFault>
    ensures { Gives (λ _. link_result store.new instance.now) result
        (with_segment segment.now (link_result store.old instance.now)) }
{
    let place = offset_of(value_of(store, instance, segment.offset.ops()))?;
    let memory = some_address(instance.memories.as_slice(), segment.memory)?;
    with_bytes(alloc, store, memory, place, segment.bytes.as_slice())
}

/// Places the data. `SegmentOutside` at the first that reaches past its memory.
pub fn with_segments(
    alloc: Global,
    store: &mut Store,
    instance: &Instance,
    segments: &[Data],
) -> Result<(), WFault>
    ensures { Gives (λ _. link_result store.new instance.now) result
        (each with_segment segments.now (link_result store.old instance.now)) }
{
    for segment in segments {
        with_segment(alloc, store, instance, segment)?;
    }
    Ok(())
}
