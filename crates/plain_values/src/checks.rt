//! Checks of values.

ghost use Rattle.std.specs.Prelude.{◌≡◌, ◌-ℤ◌, pos, not, IfOk};
ghost use Rattle.typed_tree.specs.Types.{integer};
ghost use Rattle.def_meaning.specs.Answer.{Value, ◌▷◌};
ghost use Rattle.def_meaning.specs.Operators.{truth, is_true, absolute, capital, odd, comparison_holds, inclusion_holds, has, set_operation};
ghost use Rattle.def_meaning.specs.Expressions.{within, within_range, as_type, in_base, arithmetic_result, ordinal};
ghost use Rattle.plain_store.specs.Seen.{view_of, answer_meaning};
ghost use Rattle.plain_values.specs.Operated.{operated_on};
ghost use Rattle.plain_values.specs.Surroundings.{surroundings};

use crate::operators;
use crate::operators::{
    difference, is_between, is_odd, is_true, product, quotient, remainder, sum, truth,
};
use crate::program::Around;
use m2_rule::Fault;
use plain_store::state::{Answer, RunFault, State, Stop};
use typed_tree::{
    Arithmetic, Comparison, INTEGER, Inclusion, Scalar, SetOperator, TypeNo, scalar_of,
};

/// Two operands.
#[derive(Clone, Copy)]
pub struct Operands {
    pub first: i64,
    pub second: i64,
}

/// The value, if it lies within these bounds, else this fault.
pub fn within(low: i64, high: i64, fault: u32, v: i64, st: &State) -> Answer<i64>
    ensures { answer_meaning result st.now ≡ within low high fault v (view_of st.now) }
{
    if is_between(low, v, high) {
        Answer::Value(v)
    } else {
        Answer::Stopped(Stop::Ended(fault))
    }
}

fn within_range(range: Option<Scalar>, fault: u32, v: i64, st: &State) -> Answer<i64>
    ensures { answer_meaning result st.now ≡ within_range range fault v (view_of st.now) }
{
    match range {
        None => Answer::Value(v),
        Some(s) => within(s.low, s.high, fault, v, st),
    }
}

/// The value as one of a type.
#[tactic(auto, unfolding(crate::specs::Surroundings::surroundings))]
pub fn as_type(around: &Around<'_>, t: TypeNo, v: i64, st: &State) -> Answer<i64>
    ensures { answer_meaning result st.now
        ≡ as_type (surroundings around.now).types t v (view_of st.now) }
{
    within_range(scalar_of(&around.home.body.types, t), 1, v, st)
}

/// The result of an operation in a base type.
#[tactic(auto, unfolding(crate::specs::Surroundings::surroundings))]
pub fn in_base(around: &Around<'_>, t: TypeNo, v: i64, st: &State) -> Answer<i64>
    ensures { answer_meaning result st.now
        ≡ in_base (surroundings around.now).types t v (view_of st.now) }
{
    within_range(scalar_of(&around.home.body.types, t), 2, v, st)
}

/// What an operator makes of two numbers. The only error is that a number does not fit.
pub fn arithmetic_result(
    around: &Around<'_>,
    o: Arithmetic,
    t: TypeNo,
    x: i64,
    y: i64,
    st: &State,
) -> Result<Answer<i64>, RunFault>
    ensures { let types = (surroundings around.now).types in
        IfOk result (λ j.
        answer_meaning j st.now ≡ arithmetic_result types o t x y (view_of st.now)) }
{
    match o {
        Arithmetic::Add => Ok(in_base(around, t, sum(x, y)?, st)),
        Arithmetic::Subtract => Ok(in_base(around, t, difference(x, y)?, st)),
        Arithmetic::Multiply => Ok(in_base(around, t, product(x, y)?, st)),
        Arithmetic::Divide => {
            if is_true(y) {
                Ok(Answer::Value(quotient(x, y)?))
            } else {
                Ok(Answer::Stopped(Stop::Ended(Fault::Divisor.number())))
            }
        }
        Arithmetic::Remainder => {
            if is_true(y) {
                Ok(Answer::Value(remainder(x, y)?))
            } else {
                Ok(Answer::Stopped(Stop::Ended(Fault::Divisor.number())))
            }
        }
    }
}

/// An operator with its second operand.
#[tactic(auto, using(plain_store::proofs::Threads::threads), unfolding(crate::specs::Operated::operated_on))]
pub fn operated_with(
    around: &Around<'_>,
    o: Arithmetic,
    t: TypeNo,
    x: i64,
    given: Answer<i64>,
    st: &State,
) -> Result<Answer<i64>, RunFault>
    ensures { let types = (surroundings around.now).types in
        IfOk result (λ j. answer_meaning j st.now
        ≡ (answer_meaning given st.now ▷ (operated_on types o t x))) }
{
    match given {
        Answer::Value(y) => arithmetic_result(around, o, t, x, y, st),
        Answer::Stopped(stop) => Ok(Answer::Stopped(stop)),
    }
}

/// An operator on sets with its second operand.
#[tactic(auto, using(plain_store::proofs::Threads::threads))]
pub fn combined_with(
    o: SetOperator,
    x: i64,
    given: Answer<i64>,
    st: &State,
) -> Result<Answer<i64>, RunFault>
    ensures { IfOk result (λ j. answer_meaning j st.now
        ≡ (answer_meaning given st.now ▷ λ y st. Value (set_operation o x y) st)) }
{
    match given {
        Answer::Value(y) => Ok(Answer::Value(operators::set_operation(o, x, y)?)),
        Answer::Stopped(stop) => Ok(Answer::Stopped(stop)),
    }
}

/// The value with the other sign.
#[tactic(auto, using(plain_store::proofs::Threads::threads))]
pub fn negation_of(
    around: &Around<'_>,
    given: Answer<i64>,
    st: &State,
) -> Result<Answer<i64>, RunFault>
    ensures { let types = (surroundings around.now).types in
        IfOk result (λ j. answer_meaning j st.now
        ≡ (answer_meaning given st.now ▷ λ v st. in_base types integer (pos 0 -ℤ v) st)) }
{
    match given {
        Answer::Value(v) => Ok(in_base(around, INTEGER, difference(0, v)?, st)),
        Answer::Stopped(stop) => Ok(Answer::Stopped(stop)),
    }
}

/// Whether a relation holds.
#[tactic(auto, using(plain_store::proofs::Threads::threads))]
pub fn comparison_holds(o: Comparison, given: Answer<Operands>, st: &State) -> Answer<i64>
    ensures { answer_meaning result st.now
        ≡ (answer_meaning given st.now
        ▷ (λ xy st. Value (truth (comparison_holds o xy.first xy.second)) st)) }
{
    match given {
        Answer::Value(xy) => {
            Answer::Value(truth(operators::comparison_holds(o, xy.first, xy.second)))
        }
        Answer::Stopped(stop) => Answer::Stopped(stop),
    }
}

/// Whether one set holds the other.
#[tactic(auto, using(plain_store::proofs::Threads::threads))]
pub fn inclusion_holds(o: Inclusion, given: Answer<Operands>, st: &State) -> Answer<i64>
    ensures { answer_meaning result st.now
        ≡ (answer_meaning given st.now
        ▷ (λ xy st. Value (truth (inclusion_holds o xy.first xy.second)) st)) }
{
    match given {
        Answer::Value(xy) => {
            Answer::Value(truth(operators::inclusion_holds(o, xy.first, xy.second)))
        }
        Answer::Stopped(stop) => Answer::Stopped(stop),
    }
}

/// NOT.
#[tactic(auto, using(plain_store::proofs::Threads::threads))]
pub fn denial_of(given: Answer<i64>, st: &State) -> Answer<i64>
    ensures { answer_meaning result st.now
        ≡ (answer_meaning given st.now ▷ (λ v st. Value (truth (not (is_true v))) st)) }
{
    match given {
        Answer::Value(v) => Answer::Value(truth(!is_true(v))),
        Answer::Stopped(stop) => Answer::Stopped(stop),
    }
}

/// Whether an element is in a set.
#[tactic(auto, using(plain_store::proofs::Threads::threads))]
pub fn is_in(x: i64, given: Answer<i64>, st: &State) -> Result<Answer<i64>, RunFault>
    ensures { IfOk result (λ j. answer_meaning j st.now
        ≡ (answer_meaning given st.now ▷ λ s st. Value (truth (has s x)) st)) }
{
    match given {
        Answer::Value(s) => Ok(Answer::Value(truth(operators::has(s, x)?))),
        Answer::Stopped(stop) => Ok(Answer::Stopped(stop)),
    }
}

/// ABS.
#[tactic(auto, using(plain_store::proofs::Threads::threads))]
pub fn distance(
    around: &Around<'_>,
    t: TypeNo,
    given: Answer<i64>,
    st: &State,
) -> Result<Answer<i64>, RunFault>
    ensures { let types = (surroundings around.now).types in
        IfOk result (λ j. answer_meaning j st.now
        ≡ (answer_meaning given st.now ▷ λ v st. in_base types t (absolute v) st)) }
{
    match given {
        Answer::Value(v) => Ok(in_base(around, t, operators::absolute(v)?, st)),
        Answer::Stopped(stop) => Ok(Answer::Stopped(stop)),
    }
}

/// CAP.
#[tactic(auto, using(plain_store::proofs::Threads::threads))]
pub fn capital(given: Answer<i64>, st: &State) -> Result<Answer<i64>, RunFault>
    ensures { IfOk result (λ j. answer_meaning j st.now
        ≡ (answer_meaning given st.now ▷ λ v st. Value (capital v) st)) }
{
    match given {
        Answer::Value(v) => Ok(Answer::Value(operators::capital(v)?)),
        Answer::Stopped(stop) => Ok(Answer::Stopped(stop)),
    }
}

/// CHR.
#[tactic(auto, using(plain_store::proofs::Threads::threads))]
pub fn character(given: Answer<i64>, st: &State) -> Answer<i64>
    ensures { answer_meaning result st.now
        ≡ (answer_meaning given st.now ▷ (λ v st. within (pos 0) (pos 255) 1 v st)) }
{
    match given {
        Answer::Value(v) => within(0, 255, 1, v, st),
        Answer::Stopped(stop) => Answer::Stopped(stop),
    }
}

/// ODD.
#[tactic(auto, using(plain_store::proofs::Threads::threads))]
pub fn odd(given: Answer<i64>, st: &State) -> Answer<i64>
    ensures { answer_meaning result st.now
        ≡ (answer_meaning given st.now ▷ (λ v st. Value (truth (odd v)) st)) }
{
    match given {
        Answer::Value(v) => Answer::Value(truth(is_odd(v))),
        Answer::Stopped(stop) => Answer::Stopped(stop),
    }
}

/// ORD.
#[tactic(auto, using(plain_store::proofs::Threads::threads))]
pub fn ordinal(given: Answer<i64>, st: &State) -> Answer<i64>
    ensures { answer_meaning result st.now ≡ (answer_meaning given st.now ▷ ordinal) }
{
    match given {
        Answer::Value(v) => {
            if v < 0 {
                Answer::Stopped(Stop::Ended(Fault::OutOfRange.number()))
            } else {
                Answer::Value(v)
            }
        }
        Answer::Stopped(stop) => Answer::Stopped(stop),
    }
}

/// VAL, and each value that is taken as one of a type.
#[tactic(auto, using(plain_store::proofs::Threads::threads))]
pub fn value_as(around: &Around<'_>, t: TypeNo, given: Answer<i64>, st: &State) -> Answer<i64>
    ensures { let types = (surroundings around.now).types in
        answer_meaning result st.now ≡ (answer_meaning given st.now ▷ (as_type types t)) }
{
    match given {
        Answer::Value(v) => as_type(around, t, v, st),
        Answer::Stopped(stop) => Answer::Stopped(stop),
    }
}
