//! Signals, and how they are printed.

use wasm_tree::Op;

/// The functions of a module that is built, by their numbers: the host's, then those that each module has.
pub const PUT: u32 = 0;

pub const STOP: u32 = 1;

pub const COPY: u32 = 2;

pub const FILL: u32 = 3;

pub const CHECK: u32 = 4;

pub const DIV: u32 = 5;

pub const MOD: u32 = 6;

/// The fault of DIV and MOD.
pub const NO_DIVISOR: u8 = 4;

/// How many functions each module imports.
pub const IMPORTED: u32 = 2;

/// The first byte of a signal: the next byte is the program's.
pub const PRINTED: u8 = 0;

/// A function begins. Three bytes say which, the highest first.
pub const ENTERED: u8 = 1;

/// A function is left.
pub const LEFT: u8 = 2;

/// A check of the chosen statement begins. A byte says which of its kind, from 0.
pub const SITE: u8 = 3;

/// A check has failed. Its value, the least and the greatest follow, eight bytes each, the lowest first.
pub const CHECKED: u8 = 4;

/// The next function that begins has its variables from this address on. Four bytes say it, the lowest first.
pub const FRAME: u8 = 5;

/// Bytes are copied: the addresses to which and from which, and how many, follow.
pub const COPIED: u8 = 6;

/// Bytes are set to 0: the address, and how many, follow.
pub const CLEARED: u8 = 7;

/// One, two, four or eight bytes are written: the address and they follow.
pub const STORED_ONE: u8 = 8;

pub const STORED_TWO: u8 = 9;

pub const STORED_FOUR: u8 = 10;

pub const STORED_EIGHT: u8 = 11;

/// The bytes of an address.
pub const ADDRESS_BYTES: usize = 4;

/// The first byte of a signal that a mark is come to is this or more. With the next one it says which of its function.
pub const FIRST_MARK: u8 = 16;

/// How many marks of a function have signals.
pub const MOST_MARKS: usize = 61440;

/// How many functions have numbers of their own.
pub const MOST_FUNCTIONS: u32 = 16777215;

/// How many reductions a byte of a signal takes.
pub const REDUCTIONS: u64 = 2;

/// How many values a failed check signals, and the bytes of each.
pub const CHECKED_VALUES: u32 = 3;

pub const VALUE_BYTES: usize = 8;

/// How many bits a byte has.
pub const BITS: u64 = 8;

/// How many values a byte has.
pub const BYTE: usize = 256;

/// The operation that pushes a byte.
pub fn byte_op(byte: u8) -> Op {
    Op::I64Const(u64::from(byte))
}

/// The signal that a function begins.
pub fn entered(function: u32) -> [u8; 4] {
    let number = function.min(MOST_FUNCTIONS);
    [
        ENTERED,
        (number / 65536 % 256) as u8,
        (number / 256 % 256) as u8,
        (number % 256) as u8,
    ]
}

/// The signal that the mark of this number is come to.
pub fn mark_signal(number: usize) -> Option<[u8; 2]> {
    if number >= MOST_MARKS {
        return None;
    }
    let high = u8::try_from(number / BYTE).ok()?;
    Some([FIRST_MARK.saturating_add(high), (number % BYTE) as u8])
}
