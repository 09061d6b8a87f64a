//! Values of constants in words of the language.

use crate::names::Names;
use std::alloc::{AllocError, Global};
use std::fmt::Write;
use typed_tree::{BOOLEAN, CHAR, ScalarValue, Value, are_same};

/// The most characters of a string that are shown.
const MOST_CHARACTERS: usize = 64;

/// The elements of a set.
const SET_ELEMENTS: u32 = 32;

/// What stands behind a string that is cut.
const CUT: &str = "..";

/// Whether a character is shown as it is.
fn is_plain(code: u8) -> bool {
    code == b' ' || code.is_ascii_graphic()
}

/// The quote around a string in which another one may stand.
fn quote_around(bytes: &[u8]) -> char {
    if bytes.contains(&b'"') { '\'' } else { '"' }
}

/// A character: as it is written, and by its octal number.
fn put_character(text: &mut String, code: u8) -> Result<(), AllocError> {
    if !is_plain(code) {
        return write!(text, "{code:o}C");
    }
    let quote = quote_around(&[code]);
    let letter = char::from(code);
    write!(text, "{quote}{letter}{quote} ({code:o}C)")
}

/// A set by its elements: element k is there if bit k is 1.
fn put_set(text: &mut String, bits: u32) -> Result<(), AllocError> {
    text.push('{')?;
    let mut between = "";
    for element in 0..SET_ELEMENTS {
        if bits.wrapping_shr(element) % 2 == 1 {
            write!(text, "{between}{element}")?;
            between = ", ";
        }
    }
    text.push('}')
}

/// A string. Of a long one the begin, and how long it is.
fn put_string(alloc: Global, text: &mut String, bytes: &[u8]) -> Result<(), AllocError> {
    if let [code] = bytes {
        return put_character(text, *code);
    }
    let quote = quote_around(bytes);
    let shown = bytes.get(..MOST_CHARACTERS).unwrap_or(bytes);
    text.push(quote)?;
    text.push_str(String::from_utf8_lossy(alloc, shown)?.as_str())?;
    if shown.len() < bytes.len() {
        text.push_str(CUT)?;
    }
    text.push(quote)?;
    if shown.len() < bytes.len() {
        let length = bytes.len();
        write!(text, " ({length} characters)")?;
    }
    Ok(())
}

/// A scalar by its type.
fn put_scalar(
    alloc: Global,
    text: &mut String,
    names: Names<'_>,
    scalar: ScalarValue,
) -> Result<(), AllocError> {
    let number = scalar.number;
    if are_same(scalar.base, BOOLEAN) {
        return text.push_str(if number == 0 { "FALSE" } else { "TRUE" });
    }
    if are_same(scalar.base, CHAR) {
        return put_character(text, u8::try_from(number).unwrap_or(0));
    }
    match names.name_of(scalar.base, number) {
        Some(name) => text.push_str(String::from_utf8_lossy(alloc, name)?.as_str()),
        None => write!(text, "{number}"),
    }
}

/// A constant in words of the language: `12`, `TRUE`, `'A' (101C)`, `{0, 3}`, `"words"`, or the name of a constant of an enumeration.
/// Of a string of more than 64 characters the begin alone, and its length. The only error is want of memory.
pub fn value_words(alloc: Global, names: Names<'_>, value: &Value) -> Result<String, AllocError> {
    let mut text = String::new(alloc);
    match value {
        Value::Number(number) => write!(text, "{number}")?,
        Value::Scalar(scalar) => put_scalar(alloc, &mut text, names, *scalar)?,
        Value::Set(bits) => put_set(&mut text, *bits)?,
        Value::Text(quoted) => put_string(alloc, &mut text, quoted.get().as_bytes())?,
    }
    Ok(text)
}
