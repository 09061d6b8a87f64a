//! What a failed check is told as.

use m2_rule::Fault;
use std::alloc::{AllocError, Global};
use watch_code::Checked;

/// The greatest CARDINAL.
const MOST_CARDINAL: i64 = 4294967295;

/// The least and the greatest INTEGER.
const LEAST_INTEGER: i64 = -2147483648;

const MOST_INTEGER: i64 = 2147483647;

/// The faults of a check that knows a value.
const CHECKS: [Fault; 4] = [
    Fault::OutOfRange,
    Fault::Overflow,
    Fault::Index,
    Fault::Divisor,
];

/// The fault of this number, if it is one of a check that knows a value.
pub fn check_of(number: u8) -> Option<Fault> {
    CHECKS
        .iter()
        .find(|fault| fault.number() == u32::from(number))
        .map(|fault| *fault)
}

/// The name of the type that has these bounds.
fn type_of(checked: Checked) -> Option<&'static str> {
    match (checked.least, checked.most) {
        (0, MOST_CARDINAL) => Some("CARDINAL"),
        (LEAST_INTEGER, MOST_INTEGER) => Some("INTEGER"),
        _ => None,
    }
}

/// That a value is outside of its bounds.
fn outside(alloc: Global, what: &str, checked: Checked) -> Result<String, AllocError> {
    let Checked { value, least, most } = checked;
    match type_of(checked) {
        None => format!(in alloc; "{what} {value} is not in {least}..{most}"),
        Some(name) => {
            if value < least {
                format!(in alloc; "{what} {value} is too small: {name} begins at {least}")
            } else {
                format!(in alloc; "{what} {value} is too large: {name} ends at {most}")
            }
        }
    }
}

/// What is said of the values that a check with this fault refused.
pub fn checked_words(alloc: Global, fault: Fault, checked: Checked) -> Result<String, AllocError> {
    match fault {
        Fault::OutOfRange => outside(alloc, "value", checked),
        Fault::Overflow => outside(alloc, "result", checked),
        Fault::Index => outside(alloc, "index", checked),
        _ => {
            let value = checked.value;
            format!(in alloc; "the divisor is {value}, and has to be at least 1")
        }
    }
}
