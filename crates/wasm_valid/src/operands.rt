//! What is known of the operands in a place of the code, and what instructions do to them (Core 1.0, section 3.3 and appendix 7.3).

ghost use Rattle.std.specs.Prelude.{◌≢◌, Err, ◌≡◌, ◌↔◌, ◌++◌, ◌∷◌, [], false, IsTrue};
ghost use Rattle.wasm_tree.specs.Validity.{Are, result_types};
ghost use Rattle.wasm_valid.specs.Typing.{Settles, Stands, TakesIf, Takes, Puts, Steps, Rule, change_of, Leaves, Drops};

use std::alloc::Global;
use tree_parts::Items;
use wasm_tree::{FuncType, ValueType, WFault};

/// The types of the operands that are known, the last on top, and whether any operands may stand below them: so it is
/// behind a branch, a return or a trap.
#[derive(Drop)]
pub struct Operands {
    pub known: Items<ValueType>,
    pub any_below: bool,
}

/// What an instruction does to the operands.
#[derive(Clone, Copy)]
pub enum Effect<'a> {
    /// Takes the second and then the first, and gives the third, each if there is one.
    Takes(Option<ValueType>, Option<ValueType>, Option<ValueType>),
    /// Takes and gives what a function of this type does.
    Calls(&'a FuncType),
    /// The same, below the number of a slot.
    CallsSlot(&'a FuncType),
    /// Takes the second and then the first, if there is one; any operands may stand behind it.
    Leaves(Option<ValueType>, Option<ValueType>),
    /// Takes any operand.
    Drops,
}

/// Lists of operands that were used, and where new ones come from: code in blocks then asks for no memory each time.
#[derive(Drop)]
pub struct Spares {
    alloc: Global,
    lists: Vec<Items<ValueType>>,
}

impl Spares {
    /// No lists yet.
    pub fn new(alloc: Global) -> Spares {
        Spares {
            alloc,
            lists: Vec::new(alloc),
        }
    }

    /// Keeps the list of these operands, if there is memory to do so.
    pub(crate) fn keep(&mut self, operands: Operands) {
        let Operands { known, .. } = operands;
        match self.lists.push(known) {
            Ok(()) => {}
            Err(_) => {}
        }
    }
}

/// Takes all operands off the list.
#[inline(always)]
fn empty(known: &mut Items<ValueType>)
    ensures { known.new ≡ [] }
{
    while known.len() > 0 {
        known.pop();
    }
}

/// No operands.
#[inline(always)]
pub fn no_operands(spares: &mut Spares) -> Operands
    ensures { (result.known ≡ []) × (result.any_below ≡ false) }
{
    let mut known = match spares.lists.pop() {
        Some(known) => known,
        None => Items::new(spares.alloc),
    };
    empty(&mut known);
    Operands {
        known,
        any_below: false,
    }
}

fn is_same(left: ValueType, right: ValueType) -> bool
    ensures { IsTrue result ↔ (left ≡ right) }
{
    left == right
}

/// Takes an operand of this type.
#[inline(always)]
fn take(operands: &mut Operands, wanted: ValueType) -> bool
    ensures { TakesIf result operands.old operands.new (wanted ∷ []) }
{
    match operands.known.pop() {
        Some(top) => is_same(top, wanted),
        None => operands.any_below,
    }
}

/// Takes operands of these types, the last of them first.
#[inline(always)]
fn take_all(operands: &mut Operands, wanted: &[ValueType]) -> bool
    ensures { TakesIf result operands.old operands.new wanted.now }
{
    let mut left = wanted.len();
    while left > 0 {
        left -= 1;
        if !take(operands, wanted[left]) {
            return false;
        }
    }
    true
}

/// Takes any operand.
#[inline(always)]
fn drop_one(operands: &mut Operands) -> Result<(), WFault>
    ensures steps { Steps result (Rule Drops) operands.old operands.new }
    ensures memory { result ≢ Err WFault.NoMemory }
{
    match operands.known.pop() {
        Some(_) => Ok(()),
        None if operands.any_below => Ok(()),
        None => Err(WFault::Invalid),
    }
}

/// Puts operands of these types on top.
#[inline(always)]
fn put_all(operands: &mut Operands, given: &[ValueType]) -> Result<(), WFault>
    ensures { Settles result (Puts operands.old operands.new given.now) ⊥ }
{
    for value_type in given {
        operands.known.push(*value_type)?;
    }
    Ok(())
}

/// Takes the second list and then the first, and puts the third on top.
#[inline(always)]
fn exchange(
    operands: &mut Operands,
    first: &[ValueType],
    second: &[ValueType],
    given: &[ValueType],
) -> Result<(), WFault>
    ensures { Steps result (Are (first.now ++ second.now) given.now) operands.old operands.new }
{
    if !take_all(operands, second) {
        return Err(WFault::Invalid);
    }
    if !take_all(operands, first) {
        return Err(WFault::Invalid);
    }
    put_all(operands, given)
}

/// Takes an operand of this type, if there is one.
#[inline(always)]
fn take_given(operands: &mut Operands, wanted: Option<ValueType>) -> bool
    ensures { TakesIf result operands.old operands.new (result_types wanted) }
{
    match wanted {
        Some(value_type) => take(operands, value_type),
        None => true,
    }
}

/// Puts an operand of this type on top, if there is one.
#[inline(always)]
fn put_given(operands: &mut Operands, given: Option<ValueType>) -> Result<(), WFault>
    ensures { Settles result (Puts operands.old operands.new (result_types given)) ⊥ }
{
    match given {
        Some(value_type) => {
            operands.known.push(value_type)?;
            Ok(())
        }
        None => Ok(()),
    }
}

/// Takes the second and then the first, and puts the third on top, each if there is one.
#[inline(always)]
fn exchange_few(
    operands: &mut Operands,
    first: Option<ValueType>,
    second: Option<ValueType>,
    given: Option<ValueType>,
) -> Result<(), WFault>
    ensures { Steps result (Are (result_types first ++ result_types second) (result_types given))
        operands.old operands.new }
{
    if !take_given(operands, second) {
        return Err(WFault::Invalid);
    }
    if !take_given(operands, first) {
        return Err(WFault::Invalid);
    }
    put_given(operands, given)
}

/// Takes the second and then the first, each if there is one. Any operands may stand behind it.
#[inline(always)]
fn leave(
    operands: &mut Operands,
    first: Option<ValueType>,
    second: Option<ValueType>,
) -> Result<(), WFault>
    ensures steps { Steps result (Rule (Leaves (result_types first ++ result_types second)))
        operands.old operands.new }
    ensures memory { result ≢ Err WFault.NoMemory }
{
    if !take_given(operands, second) {
        return Err(WFault::Invalid);
    }
    if !take_given(operands, first) {
        return Err(WFault::Invalid);
    }
    empty(&mut operands.known);
    operands.any_below = true;
    Ok(())
}

pub fn types_of(value_type: &Option<ValueType>) -> &[ValueType]
    ensures { result.now ≡ result_types value_type.now }
{
    value_type.as_slice()
}

/// What the effect does to the operands. `Invalid` if they are other ones.
#[inline(always)]
pub fn affect(operands: &mut Operands, effect: Effect<'_>) -> Result<(), WFault>
    ensures { Steps result (Rule (change_of effect.entry)) operands.old operands.new }
{
    match effect {
        Effect::Takes(first, second, given) => exchange_few(operands, first, second, given),
        Effect::Calls(t) => exchange(operands, &[], t.params.as_slice(), t.results.as_slice()),
        Effect::CallsSlot(t) => {
            exchange(
                operands,
                t.params.as_slice(),
                &[ValueType::I32],
                t.results.as_slice(),
            )
        }
        Effect::Leaves(first, second) => leave(operands, first, second),
        Effect::Drops => drop_one(operands),
    }
}

/// Whether the operands may be these alone.
#[inline(always)]
pub fn may_be(operands: &mut Operands, wanted: &[ValueType]) -> bool
    ensures { IsTrue result ↔ Stands operands.old wanted.now }
{
    if !take_all(operands, wanted) {
        return false;
    }
    operands.known.is_empty()
}
