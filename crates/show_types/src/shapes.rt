//! How the types of a module are made.

use crate::rows::{put_type, typed_row};
use itoa::Buffer;
use show_code::Page;
use typed_tree::{Dictionary, Formal, Made, Scalar, Shape, Signature, TypeNo, TypedModule};

/// A scalar type: its base type, and its least and greatest number.
fn put_scalar(page: &mut Page, module: &TypedModule, scalar: &Scalar) {
    let mut low = Buffer::new();
    let mut high = Buffer::new();
    put_type(page, module, scalar.base);
    page.put_all(&[
        b" from ",
        low.format(scalar.low).as_bytes(),
        b" to ",
        high.format(scalar.high).as_bytes(),
    ]);
}

/// Puts how a type is made at the end of its row, and ends the row.
fn put_shape(page: &mut Page, module: &TypedModule, shape: &Shape) {
    match shape {
        Shape::Scalar(scalar) => put_scalar(page, module, scalar),
        Shape::Set => page.put(b"BITSET"),
        Shape::Array(index, element) => {
            page.put(b"ARRAY ");
            put_type(page, module, *index);
            page.put(b" OF ");
            put_type(page, module, *element);
        }
        Shape::Record(_) => page.put(b"RECORD"),
        Shape::Procedure(_) => page.put(b"PROCEDURE"),
        Shape::Open(element) => {
            page.put(b"ARRAY OF ");
            put_type(page, module, *element);
        }
    }
    page.put(b"\n");
}

/// The fields of a record, each with its number and its type.
fn show_fields(page: &mut Page, module: &TypedModule, level: usize, fields: &Dictionary<TypeNo>) {
    for number in 0..fields.len() {
        if let Some((name, t)) = fields.get(number) {
            let mut digits = Buffer::new();
            let words: [&[u8]; 4] = [b"field ", digits.format(number).as_bytes(), b" ", name];
            typed_row(page, module, level, &words, *t);
        }
    }
}

/// The words in front of the type of a formal.
fn formal_words(formal: &Formal) -> &'static str {
    if formal.is_var && formal.is_open {
        "formal VAR ARRAY OF"
    } else if formal.is_var {
        "formal VAR"
    } else if formal.is_open {
        "formal ARRAY OF"
    } else {
        "formal"
    }
}

/// The formals of a heading, and what it gives.
fn show_signature(page: &mut Page, module: &TypedModule, level: usize, signature: &Signature) {
    for formal in signature.formals.as_slice() {
        typed_row(
            page,
            module,
            level,
            &[formal_words(formal).as_bytes()],
            formal.of,
        );
    }
    match signature.result {
        None => {}
        Some(t) => typed_row(page, module, level, &[b"result"], t),
    }
}

/// The parts of a type, below its row.
fn show_parts(page: &mut Page, module: &TypedModule, level: usize, shape: &Shape) {
    match shape {
        Shape::Record(fields) => show_fields(page, module, level, fields),
        Shape::Procedure(signature) => show_signature(page, module, level, signature),
        Shape::Scalar(_) | Shape::Set | Shape::Array(_, _) | Shape::Open(_) => {}
    }
}

/// A type of the module, by its number.
fn show_type(page: &mut Page, module: &TypedModule, level: usize, number: usize, made: &Made) {
    page.begin_row(level);
    page.put(b"type ");
    page.put_number(number as u64);
    page.put(b" = ");
    put_shape(page, module, &made.shape);
    show_parts(page, module, level.saturating_add(1), &made.shape);
}

/// The types that the module makes, in the order of their numbers.
pub fn show_own_types(page: &mut Page, module: &TypedModule, level: usize) {
    for (number, made) in module.types.own.as_slice().iter().enumerate() {
        show_type(page, module, level, number, made);
    }
}
