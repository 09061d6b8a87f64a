//! Operands and locals, as cells of 64 bits each. What kinds they are of is known to proofs alone.

ghost use Rattle.std.specs.Prelude.{◌≡◌, ◌≤◌, ◌<◌, ◌+◌, ◌-◌, [], ◌∷◌, ◌++◌, map, take, drop, length, slice_set, IfOk, OnOk, Some, if◌then◌else◌};
ghost use Rattle.std.specs.Result.{is_ok};
ghost use Rattle.std.specs.Option.{option_map};
ghost use Rattle.wasm_tree.specs.declared.store.Value.TheVariants.{I32, I64};
ghost use Rattle.wasm_tree.specs.Machine.{top_i32, top_i64, split_end, keep_operands, zeros, zero_of};
ghost use Rattle.wasm_sound.specs.Ready.{IsI32, IsI64};
ghost use Rattle.wasm_operands.specs.Bits.{bits_of, cut, value_at, last_of};

use crate::known::{Known, known_as, nothing};
use std::alloc::{AllocError, Global};
use wasm_tree::{Locals, Value, ValueType};

/// Values, the last on top. A cell has a value's bits, and nothing that says its kind.
#[derive(Drop)]
pub struct Operands {
    cells: Vec<u64>,
    /// Which values the cells stand for. Clauses alone speak of it.
    pub known: Known,
    ghost bits: { map bits_of known.values ≡ cells.items },
    ghost fits: { map cut known.values ≡ known.values },
}

/// A value where no proof reads it.
const NONE: Value = Value::I32(0);

fn zero_of(value_type: ValueType) -> Value
    ensures { result ≡ zero_of value_type }
{
    match value_type {
        ValueType::I32 => Value::I32(0),
        ValueType::I64 => Value::I64(0),
    }
}

/// Keeps the topmost cells, this many, and the lowest ones up to a height.
#[inline(always)]
fn keep(cells: &mut Vec<u64>, height: usize, count: usize)
    requires { height + count ≤ length cells.old.items }
    ensures { cells.new.items
        ≡ take height cells.old.items ++ drop (length cells.old.items - count) cells.old.items }
{
    if count == 0 {
        cells.truncate(height);
        return;
    }
    let all = cells.len();
    cells.copy_within(all - count..all, height);
    cells.truncate(height + count);
}

/// Appends cells, mostly one.
#[inline(always)]
fn append(cells: &mut Vec<u64>, more: &[u64]) -> Result<(), AllocError>
    ensures { cells.new.items
        ≡ (if is_ok result then cells.old.items ++ more.now else cells.old.items) }
{
    if more.len() == 1 {
        cells.push(more[0])?;
    } else {
        cells.extend_from_slice(more)?;
    }
    Ok(())
}

/// Appends a cell.
#[inline(always)]
fn push_cell(cells: &mut Vec<u64>, cell: u64) -> Result<(), AllocError>
    ensures { cells.new.items
        ≡ (if is_ok result then cells.old.items ++ cell ∷ [] else cells.old.items) }
{
    if cells.capacity() <= cells.len() {
        cells.reserve(1)?;
    }
    cells.push_reserved(cell);
    Ok(())
}

impl Operands {
    /// No values.
    pub fn new(alloc: Global) -> Operands
        ensures { result.known.values ≡ [] }
    {
        Operands {
            cells: Vec::new(alloc),
            known: nothing(),
        }
    }

    /// These values, the last on top.
    pub fn from_values(alloc: Global, values: &[Value]) -> Result<Operands, AllocError>
        ensures { IfOk result (λ o. o.known.values ≡ values.now) }
    {
        let mut operands = Operands::new(alloc);
        for value in values {
            operands.push(*value)?;
        }
        Ok(operands)
    }

    /// How many there are.
    #[inline(always)]
    pub fn len(&self) -> usize
        ensures { result ≡ length self.now.known.values }
    {
        self.cells.len()
    }

    /// Puts a number of 32 bits on top.
    #[inline(always)]
    pub fn push_i32(&mut self, number: u32) -> Result<(), AllocError>
        ensures { OnOk result (self.new.known.values ≡ self.old.known.values ++ I32 number ∷ []) }
    {
        push_cell(&mut self.cells, u64::from(number))?;
        self.known = known_as(&self.known, &self.known, &Value::I32(number), &0, &0);
        Ok(())
    }

    /// Puts a number of 64 bits on top.
    #[inline(always)]
    pub fn push_i64(&mut self, number: u64) -> Result<(), AllocError>
        ensures { OnOk result (self.new.known.values ≡ self.old.known.values ++ I64 number ∷ []) }
    {
        push_cell(&mut self.cells, number)?;
        self.known = known_as(&self.known, &self.known, &Value::I64(number), &0, &0);
        Ok(())
    }

    /// Puts a value on top.
    fn push(&mut self, value: Value) -> Result<(), AllocError>
        ensures { OnOk result (self.new.known.values ≡ self.old.known.values ++ value ∷ []) }
    {
        match value {
            Value::I32(number) => self.push_i32(number),
            Value::I64(number) => self.push_i64(number),
        }
    }

    /// Puts the value at a place of others on top.
    #[inline(always)]
    pub fn push_copy(&mut self, from: &Operands, place: usize) -> Result<(), AllocError>
        requires { place < length from.now.known.values }
        ensures { OnOk result
            (self.new.known.values
            ≡ self.old.known.values ++ value_at from.now.known.values place ∷ []) }
    {
        push_cell(&mut self.cells, from.cells[place])?;
        self.known = known_as(&self.known, &from.known, &NONE, &place, &0);
        Ok(())
    }

    /// Puts the topmost ones of others on top, this many.
    #[inline(always)]
    pub fn push_end(&mut self, from: &Operands, count: usize) -> Result<(), AllocError>
        requires { count ≤ length from.now.known.values }
        ensures { OnOk result
            (self.new.known.values ≡ self.old.known.values
            ++ drop (length from.now.known.values - count) from.now.known.values) }
    {
        let height = from.cells.len() - count;
        append(&mut self.cells, &from.cells[height..])?;
        self.known = known_as(&self.known, &from.known, &NONE, &height, &0);
        Ok(())
    }

    /// Puts zeros on top, as many as the group has locals.
    #[inline(always)]
    pub fn push_zeros(&mut self, group: Locals) -> Result<(), AllocError>
        ensures { OnOk result (self.new.known.values ≡ self.old.known.values ++ zeros group) }
    {
        let count = group.count as usize;
        self.cells.resize(self.cells.len() + count, 0)?;
        self.known = known_as(
            &self.known,
            &self.known,
            &zero_of(group.value_type),
            &0,
            &count,
        );
        Ok(())
    }

    /// The topmost one, of 32 bits.
    #[inline(always)]
    pub fn top_i32(&self) -> u32
        requires { ∥ IsI32 self.now.known.values ∥₁ }
        ensures { top_i32 self.now.known.values
            ≡ Some (take (length self.now.known.values - 1) self.now.known.values, result) }
    {
        self.cells[self.cells.len() - 1] as u32
    }

    /// The topmost one, of 64 bits.
    #[inline(always)]
    pub fn top_i64(&self) -> u64
        requires { ∥ IsI64 self.now.known.values ∥₁ }
        ensures { top_i64 self.now.known.values
            ≡ Some (take (length self.now.known.values - 1) self.now.known.values, result) }
    {
        self.cells[self.cells.len() - 1]
    }

    /// Takes the topmost one away.
    #[inline(always)]
    pub fn drop_last(&mut self)
        requires { 0 < length self.old.known.values }
        ensures { self.new.known.values
            ≡ take (length self.old.known.values - 1) self.old.known.values }
    {
        let height = self.cells.len() - 1;
        self.truncate(height);
    }

    /// Takes the topmost one, of 32 bits.
    #[inline(always)]
    pub fn pop_i32(&mut self) -> u32
        requires { ∥ IsI32 self.old.known.values ∥₁ }
        ensures { top_i32 self.old.known.values ≡ Some (self.new.known.values, result) }
    {
        let number = self.top_i32();
        self.drop_last();
        number
    }

    /// Takes the topmost one, of 64 bits.
    #[inline(always)]
    pub fn pop_i64(&mut self) -> u64
        requires { ∥ IsI64 self.old.known.values ∥₁ }
        ensures { top_i64 self.old.known.values ≡ Some (self.new.known.values, result) }
    {
        let number = self.top_i64();
        self.drop_last();
        number
    }

    /// Puts a number of 32 bits in the place of the topmost one.
    #[inline(always)]
    pub fn set_i32(&mut self, number: u32)
        requires { 0 < length self.old.known.values }
        ensures { self.new.known.values
            ≡ take (length self.old.known.values - 1) self.old.known.values ++ I32 number ∷ [] }
    {
        let last = self.cells.len() - 1;
        self.cells[last] = u64::from(number);
        self.known = known_as(&self.known, &self.known, &Value::I32(number), &0, &0);
    }

    /// Puts a number of 64 bits in the place of the topmost one.
    #[inline(always)]
    pub fn set_i64(&mut self, number: u64)
        requires { 0 < length self.old.known.values }
        ensures { self.new.known.values
            ≡ take (length self.old.known.values - 1) self.old.known.values ++ I64 number ∷ [] }
    {
        let last = self.cells.len() - 1;
        self.cells[last] = number;
        self.known = known_as(&self.known, &self.known, &Value::I64(number), &0, &0);
    }

    /// Puts the topmost one of others at a place.
    #[inline(always)]
    pub fn set_last(&mut self, place: usize, from: &Operands)
        requires within { place < length self.old.known.values }
        requires one { 0 < length from.now.known.values }
        ensures { self.new.known.values
            ≡ slice_set self.old.known.values place (last_of from.now.known.values) }
    {
        self.cells[place] = from.cells[from.cells.len() - 1];
        self.known = known_as(&self.known, &from.known, &NONE, &place, &0);
    }

    /// Keeps the lowest ones.
    #[inline(always)]
    pub fn truncate(&mut self, height: usize)
        ensures { self.new.known.values ≡ take height self.old.known.values }
    {
        self.cells.truncate(height);
        self.known = known_as(&self.known, &self.known, &NONE, &height, &0);
    }

    /// Keeps the topmost ones, this many, and the lowest ones up to a height.
    #[inline(always)]
    pub fn keep(&mut self, height: usize, count: usize)
        requires { height + count ≤ length self.old.known.values }
        ensures { Some self.new.known.values
            ≡ option_map (keep_operands height) (split_end count self.old.known.values) }
    {
        keep(&mut self.cells, height, count);
        self.known = known_as(&self.known, &self.known, &NONE, &height, &count);
    }
}
