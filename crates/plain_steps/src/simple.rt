//! Statements, if what they take is there.

ghost use Rattle.std.specs.Prelude.{◌≡◌, ◌+ℤ◌, ◌∷◌, [], ◌++◌, pos, false, Some, IfOk, OnOk};
ghost use Rattle.std.specs.Option.{option_copied};
ghost use Rattle.std.specs.List.{list_any};
ghost use Rattle.typed_tree.specs.Types.{char};
ghost use Rattle.typed_tree.specs.Known.{scalar_at};
ghost use Rattle.typed_tree.specs.declared.statement.TypedArm.{out-TypedArm};
ghost use Rattle.def_meaning.specs.Store.{copy_whole};
ghost use Rattle.def_meaning.specs.Answer.{Value, ◌▷◌, range_fault};
ghost use Rattle.def_meaning.specs.Outcome.{Normal, Returned};
ghost use Rattle.def_meaning.specs.Expressions.{as_type, within};
ghost use Rattle.def_meaning.specs.Statements.{store_number, change_by, recheck_value, base_of, with_element, has_passed, is_labelled};
ghost use Rattle.plain_store.specs.Seen.{view_of, answer_meaning, outcome_course, with_store, with_byte};
ghost use Rattle.plain_values.specs.Surroundings.{surroundings};
ghost use Rattle.plain_steps.specs.Parts.{first_arm, text_put, turns_over};

use plain_store::state::{Answer, Outcome, RunFault, State, copy_to, load, print, store, text_to};
use plain_values::checks::{as_type, in_base, within};
use plain_values::operators;
use plain_values::operators::{difference, is_between, sum};
use plain_values::program::Around;
use tree_parts::Items;
use typed_tree::{CHAR, Change, Label, Membership, Scalar, TypeNo, TypedArm, scalar_of};

/// A location, and the value behind it.
#[derive(Drop)]
pub struct Target {
    pub l: Items<usize>,
    pub v: i64,
}

/// Where a copy goes, and where it comes from.
#[derive(Drop)]
pub struct Ends {
    pub to: Items<usize>,
    pub from: Items<usize>,
}

/// The control variable of a FOR, its start, and the limit.
#[derive(Drop)]
pub struct Turns {
    pub l: Items<usize>,
    pub v: i64,
    pub last: i64,
}

/// Stores a value as one of a type.
#[tactic(auto, using(plain_store::proofs::Threads::threads))]
pub fn assign(
    around: &Around<'_>,
    t: TypeNo,
    given: Answer<Target>,
    st: &mut State,
) -> Result<Outcome, RunFault>
    ensures { let types = (surroundings around.now).types in
        IfOk result (λ o.
        outcome_course o st.new
        ≡ (answer_meaning given st.old ▷ λ x st.
        as_type types t x.v st ▷ λ v st.
        Value Normal (store_number x.l v st))) }
{
    match given {
        Answer::Value(x) => match as_type(around, t, x.v, st) {
            Answer::Value(v) => {
                store(around.program.alloc, x.l.as_slice(), v, st)?;
                Ok(Outcome::Normal)
            }
            Answer::Stopped(stop) => Ok(Outcome::Stopped(stop)),
        },
        Answer::Stopped(stop) => Ok(Outcome::Stopped(stop)),
    }
}

/// Copies an array or a record.
#[tactic(auto, using(plain_store::proofs::Threads::threads))]
pub fn copy(around: &Around<'_>, given: Answer<Ends>, st: &mut State) -> Result<Outcome, RunFault>
    ensures { IfOk result (λ o.
        outcome_course o st.new
        ≡ (answer_meaning given st.old ▷ λ x st.
        Value Normal (with_store (copy_whole x.to x.from st.store) st))) }
{
    match given {
        Answer::Value(x) => {
            copy_to(around.program.alloc, x.to.as_slice(), x.from.as_slice(), st)?;
            Ok(Outcome::Normal)
        }
        Answer::Stopped(stop) => Ok(Outcome::Stopped(stop)),
    }
}

/// Puts the characters of a string into an array.
#[tactic(auto, using(plain_store::proofs::Threads::threads), unfolding(crate::specs::Parts::text_put))]
pub fn copy_text(
    around: &Around<'_>,
    given: Answer<Items<usize>>,
    text: &[u8],
    st: &mut State,
) -> Result<Outcome, RunFault>
    ensures { IfOk result (λ o.
        outcome_course o st.new ≡ (answer_meaning given st.old ▷ (text_put text.now))) }
{
    match given {
        Answer::Value(l) => {
            text_to(around.program.alloc, l.as_slice(), text, st)?;
            Ok(Outcome::Normal)
        }
        Answer::Stopped(stop) => Ok(Outcome::Stopped(stop)),
    }
}

/// The end of a call as a statement.
#[tactic(auto, using(plain_store::proofs::Threads::threads))]
pub fn call_outcome(given: Answer<i64>, st: &State) -> Outcome
    ensures { outcome_course result st.now
        ≡ (answer_meaning given st.now ▷ (λ v st. Value Normal st)) }
{
    match given {
        Answer::Value(_) => Outcome::Normal,
        Answer::Stopped(stop) => Outcome::Stopped(stop),
    }
}

/// Prints a character.
#[tactic(auto, using(plain_store::proofs::Threads::threads))]
pub fn put(around: &Around<'_>, given: Answer<i64>, st: &mut State) -> Result<Outcome, RunFault>
    ensures { let types = (surroundings around.now).types in
        IfOk result (λ o.
        outcome_course o st.new
        ≡ (answer_meaning given st.old ▷ λ v st.
        as_type types char v st ▷ λ v st.
        Value Normal (with_byte v st))) }
{
    match given {
        Answer::Value(v) => match as_type(around, CHAR, v, st) {
            Answer::Value(v) => {
                print(v, st)?;
                Ok(Outcome::Normal)
            }
            Answer::Stopped(stop) => Ok(Outcome::Stopped(stop)),
        },
        Answer::Stopped(stop) => Ok(Outcome::Stopped(stop)),
    }
}

fn change_by(how: Change, x: i64, by: i64) -> Result<i64, RunFault>
    ensures { IfOk result (λ v. v ≡ change_by how x by) }
{
    match how {
        Change::Increase => sum(x, by),
        Change::Decrease => difference(x, by),
    }
}

fn base_of(t: TypeNo, scalar: Option<Scalar>) -> TypeNo
    ensures { result ≡ base_of t scalar }
{
    match scalar {
        None => t,
        Some(s) => s.base,
    }
}

/// A result as one of the base type, and then as one of the variable's.
#[tactic(auto, using(plain_store::proofs::Threads::threads), unfolding(plain_values::specs::Surroundings::surroundings))]
fn recheck_value(around: &Around<'_>, t: TypeNo, v: i64, st: &State) -> Answer<i64>
    ensures { answer_meaning result st.now
        ≡ recheck_value (surroundings around.now).types t v (view_of st.now) }
{
    let base = base_of(t, scalar_of(&around.home.body.types, t));
    match in_base(around, base, v, st) {
        Answer::Value(v) => as_type(around, t, v, st),
        Answer::Stopped(stop) => Answer::Stopped(stop),
    }
}

/// INC and DEC.
#[tactic(auto, using(plain_store::proofs::Threads::threads))]
pub fn change(
    around: &Around<'_>,
    how: Change,
    t: TypeNo,
    given: Answer<Target>,
    st: &mut State,
) -> Result<Outcome, RunFault>
    ensures { let types = (surroundings around.now).types in
        IfOk result (λ o.
        outcome_course o st.new
        ≡ (answer_meaning given st.old ▷ λ x st.
        recheck_value types t (change_by how (st.store x.l) x.v) st ▷ λ v st.
        Value Normal (store_number x.l v st))) }
{
    match given {
        Answer::Value(x) => {
            let v = change_by(how, load(x.l.as_slice(), st), x.v)?;
            match recheck_value(around, t, v, st) {
                Answer::Value(v) => {
                    store(around.program.alloc, x.l.as_slice(), v, st)?;
                    Ok(Outcome::Normal)
                }
                Answer::Stopped(stop) => Ok(Outcome::Stopped(stop)),
            }
        }
        Answer::Stopped(stop) => Ok(Outcome::Stopped(stop)),
    }
}

/// INCL and EXCL.
#[tactic(auto, using(plain_store::proofs::Threads::threads))]
pub fn membership(
    around: &Around<'_>,
    how: Membership,
    given: Answer<Target>,
    st: &mut State,
) -> Result<Outcome, RunFault>
    ensures { IfOk result (λ o.
        outcome_course o st.new
        ≡ (answer_meaning given st.old ▷ λ x st.
        within (pos 0) (pos 31) range_fault x.v st ▷ λ v st.
        Value Normal (store_number x.l (with_element how (st.store x.l) v) st))) }
{
    match given {
        Answer::Value(x) => match within(0, 31, 1, x.v, st) {
            Answer::Value(v) => {
                let set = operators::with_element(how, load(x.l.as_slice(), st), v)?;
                store(around.program.alloc, x.l.as_slice(), set, st)?;
                Ok(Outcome::Normal)
            }
            Answer::Stopped(stop) => Ok(Outcome::Stopped(stop)),
        },
        Answer::Stopped(stop) => Ok(Outcome::Stopped(stop)),
    }
}

/// RETURN with a value.
#[tactic(auto, using(plain_store::proofs::Threads::threads))]
pub fn give(around: &Around<'_>, t: TypeNo, given: Answer<i64>, st: &State) -> Outcome
    ensures { let types = (surroundings around.now).types in
        outcome_course result st.now
        ≡ (answer_meaning given st.now
        ▷ (λ v st. as_type types t v st ▷ λ v st. Value (Returned v) st)) }
{
    match given {
        Answer::Value(v) => match as_type(around, t, v, st) {
            Answer::Value(v) => Outcome::Returned(v),
            Answer::Stopped(stop) => Outcome::Stopped(stop),
        },
        Answer::Stopped(stop) => Outcome::Stopped(stop),
    }
}

fn is_labelled(v: i64, labels: &[Label]) -> bool
    ensures { result ≡ list_any (is_labelled v) labels.now }
{
    match labels {
        [] => false,
        [label, rest @ ..] => is_between(label.low, v, label.high) || is_labelled(v, rest),
    }
}

/// The first arm with a label for a value.
pub fn chosen_arm(v: i64, arms: &[TypedArm]) -> Option<&TypedArm>
    ensures { option_copied result ≡ first_arm v arms.now }
{
    match arms {
        [] => None,
        [arm, rest @ ..] => {
            if is_labelled(v, arm.labels.as_slice()) {
                Some(arm)
            } else {
                chosen_arm(v, rest)
            }
        }
    }
}

/// Whether a number has passed the limit of a FOR.
pub fn has_passed(by: i64, limit: i64, v: i64) -> bool
    ensures { result ≡ has_passed by limit v }
{
    if by < 0 { v < limit } else { limit < v }
}

/// Gives the control variable of a FOR its start, and answers whether that has passed the limit.
pub fn begin_for(
    around: &Around<'_>,
    by: &i64,
    of: &Turns,
    st: &mut State,
) -> Result<bool, RunFault>
    ensures stored { OnOk result
        (view_of st.new ≡ store_number of.now.l of.now.v (view_of st.old)) }
    ensures passed { IfOk result (λ b. b
        ≡ has_passed by.now of.now.last ((view_of st.new).store of.now.l)) }
{
    store(around.program.alloc, of.l.as_slice(), of.v, st)?;
    Ok(has_passed(*by, of.last, load(of.l.as_slice(), st)))
}

/// The control variable of a FOR, one step further.
fn stepped_on(of: &Turns, by: &i64, st: &State) -> Result<i64, RunFault>
    ensures { IfOk result (λ v. v ≡ (view_of st.now).store of.now.l +ℤ by.now) }
{
    sum(load(of.l.as_slice(), st), *by)
}

/// Stores the control variable of a FOR.
fn keep(around: &Around<'_>, of: &Turns, v: i64, st: &mut State) -> Result<(), RunFault>
    ensures { OnOk result (view_of st.new ≡ store_number of.now.l v (view_of st.old)) }
{
    store(around.program.alloc, of.l.as_slice(), v, st)
}

/// Stores the control variable of a FOR, which is not over then.
#[tactic(auto, using(plain_store::proofs::Threads::threads))]
fn keep_control(
    around: &Around<'_>,
    t: TypeNo,
    of: &Turns,
    next: &i64,
    st: &mut State,
) -> Result<Answer<bool>, RunFault>
    ensures { let types = (surroundings around.now).types in
        IfOk result (λ j.
        answer_meaning j st.new
        ≡ (as_type types t next.now (view_of st.old) ▷ λ v st.
        Value false (store_number of.now.l v st))) }
{
    match as_type(around, t, *next, st) {
        Answer::Value(v) => {
            keep(around, of, v, st)?;
            Ok(Answer::Value(false))
        }
        Answer::Stopped(stop) => Ok(Answer::Stopped(stop)),
    }
}

/// Whether a number has passed the limit of these turns.
fn is_over(of: &Turns, by: &i64, next: &i64) -> bool
    ensures { result ≡ has_passed by.now of.now.last next.now }
{
    has_passed(*by, of.last, *next)
}

/// Steps the control variable of a FOR on, and answers whether the turns are over.
#[tactic(auto, using(crate::proofs::Steppings::steppings))]
pub fn next_turn(
    around: &Around<'_>,
    t: TypeNo,
    by: &i64,
    of: &Turns,
    st: &mut State,
) -> Result<Answer<bool>, RunFault>
    ensures { let types = (surroundings around.now).types in
        IfOk result (λ j. answer_meaning j st.new
        ≡ turns_over types t of.now.l by.now of.now.last (view_of st.old)) }
{
    let next = stepped_on(of, by, st)?;
    if is_over(of, by, &next) {
        return Ok(Answer::Value(true));
    }
    let over = keep_control(around, t, of, &next, st)?;
    Ok(over)
}
