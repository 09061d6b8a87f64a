//! A tree of a module that has no encoding.

use std::test::*;
use tree_parts::Items;
use wasm_binary::{read_module, write_module};
use wasm_tree::{EncodeError, Export, ExportKind};

#[test]
fn a_name_that_is_not_utf8_has_no_encoding(rt: HostRuntime) {
    let alloc = rt.alloc();
    let mut tree = read_module(alloc, b"\x00asm\x01\x00\x00\x00").expect(&rt, "a module");
    let name = Items::from_slice(alloc, &[0xFF]).expect(&rt, "memory");
    let kind = ExportKind::Function(0);
    let is_pushed = tree.exports.push(Export { name, kind }).is_ok();
    assert!(rt; is_pushed, "memory");
    let is_refused = match write_module(alloc, &tree) {
        Err(EncodeError::NoEncoding) => true,
        Ok(_) | Err(EncodeError::NoMemory) => false,
    };
    assert!(rt; is_refused, "the tree is written");
}
