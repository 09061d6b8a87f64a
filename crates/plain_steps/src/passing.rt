//! Arguments that were evaluated.

ghost use Rattle.std.specs.Prelude.{◌≡◌, ◌∷◌, map, IfOk};
ghost use Rattle.def_meaning.specs.Answer.{Value, ◌▷◌};
ghost use Rattle.def_meaning.specs.Environment.{Number, Variable, Array, Text, location_of, high_of, slot_named};
ghost use Rattle.def_meaning.specs.Expressions.{as_type, high_index};
ghost use Rattle.plain_store.specs.Seen.{view_of, answer_meaning};
ghost use Rattle.plain_values.specs.Surroundings.{surroundings, argument_sent};
ghost use Rattle.plain_steps.specs.Parts.{answered_sent};

use plain_store::state::{Answer, RunFault, State, load};
use plain_values::checks::as_type;
use plain_values::places::{high_index, slot_high, slot_location};
use plain_values::program::{Around, Passed};
use std::alloc::{AllocError, Global};
use tree_parts::Items;
use typed_tree::{Slot, TypeNo};

/// The number at the location that is given.
#[tactic(auto, using(plain_store::proofs::Threads::threads))]
pub fn load_number(given: Answer<Items<usize>>, st: &State) -> Answer<i64>
    ensures { answer_meaning result st.now
        ≡ (answer_meaning given st.now ▷ (λ l st. Value (st.store l) st)) }
{
    match given {
        Answer::Value(l) => Answer::Value(load(l.as_slice(), st)),
        Answer::Stopped(stop) => Answer::Stopped(stop),
    }
}

/// A value for a value formal of a scalar type.
#[tactic(auto, using(plain_store::proofs::Threads::threads))]
pub fn number_passed(
    around: &Around<'_>,
    t: TypeNo,
    given: Answer<i64>,
    st: &State,
) -> Answer<Passed>
    ensures { let types = (surroundings around.now).types in
        answered_sent result st.now
        ≡ (answer_meaning given st.now
        ▷ (λ v st. as_type types t v st ▷ λ v st. Value (Number v) st)) }
{
    match given {
        Answer::Value(v) => match as_type(around, t, v, st) {
            Answer::Value(v) => Answer::Value(Passed::Number(v)),
            Answer::Stopped(stop) => Answer::Stopped(stop),
        },
        Answer::Stopped(stop) => Answer::Stopped(stop),
    }
}

/// A variable for a VAR formal, or what is copied for a value formal.
#[tactic(auto, using(plain_store::proofs::Threads::threads))]
pub fn variable_passed(given: Answer<Items<usize>>, st: &State) -> Answer<Passed>
    ensures { answered_sent result st.now
        ≡ (answer_meaning given st.now ▷ (λ l st. Value (Variable l) st)) }
{
    match given {
        Answer::Value(l) => Answer::Value(Passed::Variable(l)),
        Answer::Stopped(stop) => Answer::Stopped(stop),
    }
}

/// An array of a type for an open array.
#[tactic(auto, using(plain_store::proofs::Threads::threads))]
pub fn array_passed(
    around: &Around<'_>,
    t: TypeNo,
    given: Answer<Items<usize>>,
    st: &State,
) -> Result<Answer<Passed>, RunFault>
    ensures { let high = high_index (surroundings around.now).types t in
        IfOk result (λ j. answered_sent j st.now
        ≡ (answer_meaning given st.now ▷ λ l st. Value (Array l high) st)) }
{
    match given {
        Answer::Value(l) => Ok(Answer::Value(Passed::Array(l, high_index(around, t)?))),
        Answer::Stopped(stop) => Ok(Answer::Stopped(stop)),
    }
}

/// An open array for an open array. The only error is that memory ran out.
pub fn open_passed(around: &Around<'_>, slot: Slot) -> Result<Passed, AllocError>
    ensures { let name = slot_named (surroundings around.now) slot in
        IfOk result (λ p. argument_sent p ≡ Array (location_of name) (high_of name)) }
{
    let l = slot_location(around, slot)?;
    Ok(Passed::Array(l, slot_high(around, slot)))
}

/// A string for an open array. The only error is that memory ran out.
pub fn text_passed(alloc: Global, text: &[u8]) -> Result<Passed, AllocError>
    ensures { IfOk result (λ p. argument_sent p ≡ Text text.now) }
{
    Ok(Passed::Text(Items::from_slice(alloc, text)?))
}

/// The arguments, with one more in front. The only error is that memory ran out.
pub fn in_front(
    alloc: Global,
    first: Passed,
    others: Items<Passed>,
) -> Result<Items<Passed>, AllocError>
    ensures { IfOk result (λ all.
        map argument_sent all ≡ argument_sent first ∷ map argument_sent others) }
{
    let mut all = Items::new(alloc);
    all.push(first)?;
    all.append(others)?;
    Ok(all)
}
