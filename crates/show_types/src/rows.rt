//! Rows with types and numbers.

use itoa::Buffer;
use show_code::Page;
use typed_tree::{
    BITSET, BOOLEAN, CARDINAL, CHAR, Home, INTEGER, Slot, TypeNo, TypedModule, are_same,
};

/// The name of a type that is declared around all modules.
fn predeclared_name(t: TypeNo) -> &'static str {
    if are_same(t, INTEGER) {
        "INTEGER"
    } else if are_same(t, CARDINAL) {
        "CARDINAL"
    } else if are_same(t, BOOLEAN) {
        "BOOLEAN"
    } else if are_same(t, CHAR) {
        "CHAR"
    } else if are_same(t, BITSET) {
        "BITSET"
    } else {
        "PROC"
    }
}

/// Puts ` of ` and the module of this number at the end: by its name if it is imported, and not at all if it is this module.
fn put_home(page: &mut Page, module: &TypedModule, home: u32) {
    if home == module.types.home {
        return;
    }
    for imported in module.imports.as_slice() {
        if imported.number == home {
            page.put(b" of ");
            page.put(imported.name.as_slice());
            return;
        }
    }
    page.put(b" of module ");
    page.put_number(u64::from(home));
}

/// Puts a type at the end: a predeclared one by its name, any other by its number in its module.
pub fn put_type(page: &mut Page, module: &TypedModule, t: TypeNo) {
    match t.home {
        Home::Predeclared => page.put(predeclared_name(t).as_bytes()),
        Home::Module(home) => {
            page.put(b"type ");
            page.put_number(t.number as u64);
            put_home(page, module, home);
        }
    }
}

/// A row of this level: these words, and a type.
pub fn typed_row(page: &mut Page, module: &TypedModule, level: usize, words: &[&[u8]], t: TypeNo) {
    page.begin_row(level);
    page.put_all(words);
    page.put(b" ");
    put_type(page, module, t);
    page.put(b"\n");
}

/// A row of this level: a word, and a number.
pub fn numbered_row(page: &mut Page, level: usize, word: &[u8], number: usize) {
    let mut digits = Buffer::new();
    page.row(level, &[word, b" ", digits.format(number).as_bytes()]);
}

/// A constant: its number, and its type.
pub fn constant_row(page: &mut Page, module: &TypedModule, level: usize, number: i64, t: TypeNo) {
    let mut digits = Buffer::new();
    let words: [&[u8]; 2] = [b"constant ", digits.format(number).as_bytes()];
    typed_row(page, module, level, &words, t);
}

/// A variable or a procedure of a module: a word, its number there, and its type.
pub fn declared_row(
    page: &mut Page,
    module: &TypedModule,
    level: usize,
    word: &[u8],
    home: u32,
    number: usize,
    t: TypeNo,
) {
    page.begin_row(level);
    page.put(word);
    page.put(b" ");
    page.put_number(number as u64);
    put_home(page, module, home);
    page.put(b", ");
    put_type(page, module, t);
    page.put(b"\n");
}

/// A formal or a variable of a procedure: its number there, and how many procedures outwards it is.
pub fn slot_row(page: &mut Page, level: usize, word: &[u8], slot: Slot) {
    page.begin_row(level);
    page.put(word);
    page.put(b" ");
    page.put_number(slot.number as u64);
    if slot.up > 0 {
        page.put(b", outwards ");
        page.put_number(slot.up as u64);
    }
    page.put(b"\n");
}
