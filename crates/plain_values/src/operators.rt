//! What operators and standard functions make of numbers.

ghost use Rattle.std.specs.Prelude.{◌≡◌, ◌+ℤ◌, ◌-ℤ◌, ◌*ℤ◌, ◌<◌, pos, IfOk, int_lt};
ghost use Rattle.def_meaning.specs.Operators.{is_between, truth, is_true, comparison_holds, bits, without, set_operation, inclusion_holds, has, single, absolute, capital, odd, quotient, remainder};
ghost use Rattle.def_meaning.specs.Statements.{with_element};

use plain_store::state::RunFault;
use typed_tree::{Comparison, Inclusion, Membership, SetOperator};

/// Whether a number lies within these bounds.
pub fn is_between(low: i64, v: i64, high: i64) -> bool
    ensures { result ≡ is_between low v high }
{
    low <= v && v <= high
}

/// TRUE is 1, FALSE 0.
pub fn truth(b: bool) -> i64
    ensures { result ≡ truth b }
{
    if b { 1 } else { 0 }
}

/// Whether a number stands for TRUE.
pub fn is_true(v: i64) -> bool
    ensures { result ≡ is_true v }
{
    0 < v
}

/// Whether a relation holds.
pub fn comparison_holds(op: Comparison, x: i64, y: i64) -> bool
    ensures { result ≡ comparison_holds op x y }
{
    match op {
        Comparison::Equal => x <= y && y <= x,
        Comparison::Unequal => !(x <= y && y <= x),
        Comparison::Less => x < y,
        Comparison::AtMost => x <= y,
        Comparison::Greater => y < x,
        Comparison::AtLeast => y <= x,
    }
}

/// The sum. The only error is that it does not fit.
pub fn sum(x: i64, y: i64) -> Result<i64, RunFault>
    ensures { IfOk result (λ n. n ≡ x +ℤ y) }
{
    match x.checked_add(y) {
        None => Err(RunFault::TooLarge),
        Some(n) => Ok(n),
    }
}

/// The difference. The only error is that it does not fit.
pub fn difference(x: i64, y: i64) -> Result<i64, RunFault>
    ensures { IfOk result (λ n. n ≡ x -ℤ y) }
{
    match x.checked_sub(y) {
        None => Err(RunFault::TooLarge),
        Some(n) => Ok(n),
    }
}

/// The product. The only error is that it does not fit.
pub fn product(x: i64, y: i64) -> Result<i64, RunFault>
    ensures { IfOk result (λ n. n ≡ x *ℤ y) }
{
    match x.checked_mul(y) {
        None => Err(RunFault::TooLarge),
        Some(n) => Ok(n),
    }
}

/// The quotient by a positive number, rounded down. The only error is that the divisor is not positive.
pub fn quotient(x: i64, y: i64) -> Result<i64, RunFault>
    ensures { IfOk result (λ n. n ≡ quotient x y) }
{
    if y < 1 {
        return Err(RunFault::TooLarge);
    }
    Ok(x.div_euclid(y))
}

/// The remainder by a positive number, which is not negative. The only error is that the divisor is not positive.
pub fn remainder(x: i64, y: i64) -> Result<i64, RunFault>
    ensures { IfOk result (λ n. n ≡ remainder x y) }
{
    if y < 1 {
        return Err(RunFault::TooLarge);
    }
    Ok(x.rem_euclid(y))
}

/// The number as an integer. The only error is that it does not fit.
pub fn whole(n: u64) -> Result<i64, RunFault>
    ensures { IfOk result (λ v. v ≡ pos n) }
{
    match i64::try_from(n) {
        Err(_) => Err(RunFault::TooLarge),
        Ok(v) => Ok(v),
    }
}

/// The bits of a set.
pub fn bits(v: i64) -> u64
    ensures { result ≡ bits v }
{
    v.unsigned_abs()
}

/// The bits of the first that the second does not have.
pub fn without(a: u64, b: u64) -> u64
    ensures { result ≡ without a b }
{
    a & (b ^ 4_294_967_295)
}

/// What an operator makes of two sets. The only error is that the result does not fit.
pub fn set_operation(op: SetOperator, a: i64, b: i64) -> Result<i64, RunFault>
    ensures { IfOk result (λ v. v ≡ set_operation op a b) }
{
    match op {
        SetOperator::Union => whole(bits(a) | bits(b)),
        SetOperator::Difference => whole(without(bits(a), bits(b))),
        SetOperator::Intersection => whole(bits(a) & bits(b)),
        SetOperator::SymmetricDifference => whole(bits(a) ^ bits(b)),
    }
}

/// Whether one set holds the other.
pub fn inclusion_holds(op: Inclusion, a: i64, b: i64) -> bool
    ensures { result ≡ inclusion_holds op a b }
{
    match op {
        Inclusion::Within => without(bits(a), bits(b)) == 0,
        Inclusion::Around => without(bits(b), bits(a)) == 0,
    }
}

/// The set of one element. The only error is that it does not fit.
pub fn single(element: i64) -> Result<u64, RunFault>
    ensures { IfOk result (λ n. n ≡ single element) }
{
    match u32::try_from(bits(element)) {
        Err(_) => Err(RunFault::TooLarge),
        Ok(k) => match 2_u64.checked_pow(k) {
            None => Err(RunFault::TooLarge),
            Some(n) => Ok(n),
        },
    }
}

/// Whether an element is in a set. The only error is that the set of the element alone does not fit.
pub fn has(set: i64, element: i64) -> Result<bool, RunFault>
    ensures { IfOk result (λ b. b ≡ has set element) }
{
    let one = single(element)?;
    if one == 0 {
        return Err(RunFault::TooLarge);
    }
    Ok(bits(set) / one % 2 == 1)
}

/// ABS. The only error is that the result does not fit.
pub fn absolute(v: i64) -> Result<i64, RunFault>
    ensures { IfOk result (λ n. n ≡ absolute v) }
{
    whole(v.unsigned_abs())
}

/// CAP. The only error is that the result does not fit.
pub fn capital(v: i64) -> Result<i64, RunFault>
    ensures { IfOk result (λ n. n ≡ capital v) }
{
    if is_between(97, v, 122) {
        return difference(v, 32);
    }
    Ok(v)
}

/// ODD.
pub fn is_odd(v: i64) -> bool
    ensures { result ≡ odd v }
{
    v.unsigned_abs() % 2 == 1
}

/// The set with an element or without it. The only error is that the result does not fit.
pub fn with_element(how: Membership, set: i64, element: i64) -> Result<i64, RunFault>
    ensures { IfOk result (λ v. v ≡ with_element how set element) }
{
    let one = single(element)?;
    match how {
        Membership::Include => whole(bits(set) | one),
        Membership::Exclude => whole(without(bits(set), one)),
    }
}
