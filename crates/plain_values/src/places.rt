//! Where variables and their components stand.

ghost use Rattle.std.specs.Prelude.{◌≡◌, ◌≤◌, ◌==◌, ◌∷◌, ◌++◌, ◌-ℤ◌, [], pos, length, slice_get, unsigned_abs, IfOk};
ghost use Rattle.std.specs.List.{position_or_len};
ghost use Rattle.std.specs.Option.{option_copied, option_map};
ghost use Rattle.layout_storage.specs.Shapes.{elements_of};
ghost use Rattle.def_meaning.specs.Answer.{◌▷◌};
ghost use Rattle.def_meaning.specs.Environment.{slot_named, location_of, high_of, or_root, module_place};
ghost use Rattle.def_meaning.specs.Expressions.{element, element_in, index_made, index_range, high_index, root_layer};
ghost use Rattle.plain_store.specs.Seen.{view_of, answer_meaning};
ghost use Rattle.plain_values.specs.Surroundings.{surroundings, modules_in, modules_of, asks_of, name_of};

use crate::operators::{difference, is_between};
use crate::program::{Around, Named};
use m2_rule::Fault;
use plain_store::prepared::Prepared;
use plain_store::state::{Answer, RunFault, State, Stop};
use std::alloc::{AllocError, Global};
use tree_parts::Items;
use typed_tree::{Made, Root, Scalar, Shape, Slot, TypeNo, Types, made_of, scalar_of};

/// What a slot stands for.
#[tactic(auto, using(crate::proofs::Lists::named_none, crate::proofs::Lists::named_some), unfolding(crate::specs::Surroundings::surroundings))]
fn slot_named<'a>(around: &'a Around<'_>, slot: Slot) -> Option<&'a Named>
    ensures { option_map name_of (option_copied result)
        ≡ slot_named (surroundings around.now) slot }
{
    match around.frames.get(slot.up) {
        None => None,
        Some(names) => names.get(slot.number),
    }
}

fn location(alloc: Global, found: Option<&Named>) -> Result<Items<usize>, AllocError>
    ensures { let name = option_map name_of (option_copied found.entry) in
        IfOk result (λ l. l ≡ location_of name) }
{
    match found {
        None => Ok(Items::new(alloc)),
        Some(name) => match name {
            Named::At(l) => Items::from_slice(alloc, l.as_slice()),
            Named::Elements(l, _) => Items::from_slice(alloc, l.as_slice()),
        },
    }
}

fn high(found: Option<&Named>) -> usize
    ensures { result ≡ high_of (option_map name_of (option_copied found.entry)) }
{
    match found {
        None => 0,
        Some(name) => match name {
            Named::At(_) => 0,
            Named::Elements(_, high) => *high,
        },
    }
}

/// The location that a slot stands for. The only error is that memory ran out.
pub fn slot_location(around: &Around<'_>, slot: Slot) -> Result<Items<usize>, AllocError>
    ensures { IfOk result (λ l. l ≡ location_of (slot_named (surroundings around.now) slot)) }
{
    location(around.program.alloc, slot_named(around, slot))
}

/// The HIGH of the open array that a slot stands for.
pub fn slot_high(around: &Around<'_>, slot: Slot) -> usize
    ensures { result ≡ high_of (slot_named (surroundings around.now) slot) }
{
    high(slot_named(around, slot))
}

/// How many modules stand before the first with a number.
fn before(modules: &[Prepared<'_>], home: u32) -> usize
    ensures count { result ≡ position_or_len (λ m. m.types.home == home) (modules_in modules.now) }
    ensures bound { result ≤ length modules.now }
{
    match modules {
        [] => 0,
        [m, rest @ ..] => {
            if m.body.types.home == home {
                0
            } else {
                1 + before(rest, home)
            }
        }
    }
}

#[tactic(auto, using(crate::proofs::Lists::place_there, crate::proofs::Lists::place_nowhere))]
fn place_among(modules: &[Prepared<'_>], home: u32) -> usize
    ensures { result ≡ module_place (modules_in modules.now) home }
{
    let at = before(modules, home);
    if at < modules.len() { at } else { 0 }
}

/// The place of the module with a number.
#[tactic(auto, unfolding(crate::specs::Surroundings::modules_of))]
pub fn module_place(around: &Around<'_>, home: u32) -> usize
    ensures { result ≡ module_place (modules_of around.now.program.now) home }
{
    place_among(around.program.modules, home)
}

/// The record of a WITH. The only error is that memory ran out.
#[tactic(auto, unfolding(crate::specs::Surroundings::surroundings))]
fn record(around: &Around<'_>, number: usize) -> Result<Items<usize>, AllocError>
    ensures { let found = slice_get (surroundings around.now).withs number in
        IfOk result (λ l. l ≡ or_root found) }
{
    match around.withs.get(number) {
        None => Ok(Items::new(around.program.alloc)),
        Some(l) => Items::from_slice(around.program.alloc, l.as_slice()),
    }
}

fn pair(alloc: Global, first: usize, second: usize) -> Result<Items<usize>, AllocError>
    ensures { IfOk result (λ l. l ≡ first ∷ second ∷ []) }
{
    let mut l = Items::new(alloc);
    l.push(first)?;
    l.push(second)?;
    Ok(l)
}

/// Where a variable stands. The only error is that memory ran out.
pub fn root_location(around: &Around<'_>, root: Root) -> Result<Items<usize>, AllocError>
    ensures { let a = around.now in
        IfOk result (λ l.
        l ≡ root_layer (modules_of a.program.now) (asks_of a) root (surroundings a)) }
{
    match root {
        Root::Global(v) => { pair(around.program.alloc, module_place(around, v.home), v.number) }
        Root::Local(slot) => slot_location(around, slot),
        Root::Alias(slot) => slot_location(around, slot),
        Root::Open(slot) => slot_location(around, slot),
        Root::With(k) => record(around, k),
    }
}

/// A component of a location. The only error is that memory ran out.
pub fn component(l: Items<usize>, number: usize) -> Result<Items<usize>, AllocError>
    ensures { IfOk result (λ all. all ≡ l ++ number ∷ []) }
{
    let mut all = l;
    all.push(number)?;
    Ok(all)
}

fn distance(low: i64, high: i64) -> Result<usize, RunFault>
    ensures { IfOk result (λ n. n ≡ unsigned_abs (high -ℤ low)) }
{
    match usize::try_from(difference(high, low)?.unsigned_abs()) {
        Err(_) => Err(RunFault::TooLarge),
        Ok(n) => Ok(n),
    }
}

fn element(
    l: Items<usize>,
    low: i64,
    high: i64,
    i: i64,
    st: &State,
) -> Result<Answer<Items<usize>>, RunFault>
    ensures { IfOk result (λ j. answer_meaning j st.now ≡ element l low high i (view_of st.now)) }
{
    if is_between(low, i, high) {
        Ok(Answer::Value(component(l, distance(low, i)?)?))
    } else {
        Ok(Answer::Stopped(Stop::Ended(Fault::Index.number())))
    }
}

fn element_in(
    l: Items<usize>,
    range: Option<Scalar>,
    i: i64,
    st: &State,
) -> Result<Answer<Items<usize>>, RunFault>
    ensures { IfOk result (λ j. answer_meaning j st.now ≡ element_in l range i (view_of st.now)) }
{
    match range {
        None => Ok(Answer::Stopped(Stop::Ended(Fault::Index.number()))),
        Some(s) => element(l, s.low, s.high, i, st),
    }
}

fn index_made(types: &Types, made: Option<&Made>) -> Option<Scalar>
    ensures { result ≡ index_made types.now (option_copied made.entry) }
{
    match made {
        None => None,
        Some(made) => match &made.shape {
            Shape::Array(i, _) => scalar_of(types, *i),
            Shape::Scalar(_)
            | Shape::Set
            | Shape::Record(_)
            | Shape::Procedure(_)
            | Shape::Open(_) => None,
        },
    }
}

fn index_range(types: &Types, t: TypeNo) -> Option<Scalar>
    ensures { result ≡ index_range types.now t }
{
    index_made(types, made_of(types, t))
}

fn elements_of(range: Option<Scalar>) -> Result<usize, RunFault>
    ensures { IfOk result (λ n. n ≡ elements_of range) }
{
    match range {
        None => Ok(0),
        Some(s) => match distance(s.low, s.high)?.checked_add(1) {
            None => Err(RunFault::TooLarge),
            Some(n) => Ok(n),
        },
    }
}

/// The greatest index of an array, counted from its least. The only error is that a number does not fit.
#[tactic(auto, unfolding(crate::specs::Surroundings::surroundings))]
pub fn high_index(around: &Around<'_>, t: TypeNo) -> Result<usize, RunFault>
    ensures { IfOk result (λ n. n ≡ high_index (surroundings around.now).types t) }
{
    Ok(elements_of(index_range(&around.home.body.types, t))?.saturating_sub(1))
}

/// The element of an array with an index.
#[tactic(auto, using(plain_store::proofs::Threads::threads), unfolding(crate::specs::Surroundings::surroundings))]
pub fn element_at(
    around: &Around<'_>,
    t: TypeNo,
    l: Items<usize>,
    given: Answer<i64>,
    st: &State,
) -> Result<Answer<Items<usize>>, RunFault>
    ensures { let range = index_range (surroundings around.now).types t in
        IfOk result (λ j. answer_meaning j st.now
        ≡ (answer_meaning given st.now ▷ λ v st. element_in l range v st)) }
{
    match given {
        Answer::Value(i) => element_in(l, index_range(&around.home.body.types, t), i, st),
        Answer::Stopped(stop) => Ok(Answer::Stopped(stop)),
    }
}

/// The element of an open array with an index.
#[tactic(auto, using(plain_store::proofs::Threads::threads))]
pub fn open_element_at(
    around: &Around<'_>,
    slot: Slot,
    l: Items<usize>,
    given: Answer<i64>,
    st: &State,
) -> Result<Answer<Items<usize>>, RunFault>
    ensures { let high = high_of (slot_named (surroundings around.now) slot) in
        IfOk result (λ j. answer_meaning j st.now
        ≡ (answer_meaning given st.now ▷ λ v st. element l (pos 0) (pos high) v st)) }
{
    match given {
        Answer::Value(i) => element(l, 0, whole(slot_high(around, slot))?, i, st),
        Answer::Stopped(stop) => Ok(Answer::Stopped(stop)),
    }
}

/// A number of the machine as an integer. The only error is that it does not fit.
pub fn whole(n: usize) -> Result<i64, RunFault>
    ensures { IfOk result (λ v. v ≡ pos n) }
{
    match i64::try_from(n) {
        Err(_) => Err(RunFault::TooLarge),
        Ok(v) => Ok(v),
    }
}
