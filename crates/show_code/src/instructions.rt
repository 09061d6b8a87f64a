//! Instructions in the text format.

ghost use Rattle.std.specs.Prelude.{◌≡◌, ◌++◌, codes, map};
ghost use Rattle.std.specs.List.{flat_map};
ghost use Rattle.wasm_tree.specs.Code.{tree, head, label_of};
ghost use Rattle.show_code.specs.Pages.{Puts, deeper, row};
ghost use Rattle.show_code.specs.Instructions.{callee_text, code_text, instr_text, label_text, numbered_row, numeric_text, opened_text, result_text, targets_text};

use crate::page::Page;
use crate::words::{load_word, operation_word, relation_word, store_word, value_type_word};
use wasm_tree::{Numeric, Op, ValueType, behind, first_of, label_of, split_ops};

/// The last level that is told from the one outside of it.
const LAST_BUT_ONE: usize = 31;

/// The level of what is inside.
fn deeper(level: usize) -> usize
    ensures { result ≡ deeper level }
{
    level.min(LAST_BUT_ONE) + 1
}

/// Puts a row with a word.
fn put_word(page: &mut Page, level: usize, word: &str)
    ensures { Puts page.old page.new (row level word.now) }
{
    page.put_indent(level);
    page.put(word.as_bytes());
    page.put(b"\n");
}

/// Puts a row with two words that are written as one.
fn put_typed(page: &mut Page, level: usize, front: &str, word: &str)
    ensures { Puts page.old page.new (row level (front.now ++ word.now)) }
{
    page.put_indent(level);
    page.put(front.as_bytes());
    page.put(word.as_bytes());
    page.put(b"\n");
}

/// Puts a row with a number.
fn put_numbered(page: &mut Page, level: usize, word: &str, number: u64)
    ensures { Puts page.old page.new (numbered_row level word.now number) }
{
    page.put_indent(level);
    page.put(word.as_bytes());
    page.put_number(number);
    page.put(b"\n");
}

/// Puts what a block leaves on the stack.
fn put_result(page: &mut Page, kind: Option<ValueType>)
    ensures { Puts page.old page.new (result_text kind) }
{
    match kind {
        None => {}
        Some(value_type) => {
            page.put(b" (result ");
            page.put(value_type_word(value_type).as_bytes());
            page.put(b")");
        }
    }
}

/// Puts the row that opens a block.
fn put_opening(page: &mut Page, level: usize, word: &str, kind: Option<ValueType>)
    ensures { Puts page.old page.new (row level (word.now ++ result_text kind)) }
{
    page.put_indent(level);
    page.put(word.as_bytes());
    put_result(page, kind);
    page.put(b"\n");
}

/// Puts a label.
fn put_label(page: &mut Page, label: u32)
    ensures { Puts page.old page.new (label_text label) }
{
    page.put(b" ");
    page.put_number(u64::from(label));
}

/// Puts the labels that branches name.
fn put_labels(page: &mut Page, labels: &[Op])
    ensures { Puts page.old page.new (flat_map (λ o. label_text (label_of o)) labels.now) }
{
    for label in labels {
        put_label(page, label_of(*label));
    }
}

/// Puts the word of a branch to one of several labels, and the labels.
fn put_targets(page: &mut Page, labels: &[Op], last: u32)
    ensures { Puts page.old page.new (targets_text (map label_of labels.now) last) }
{
    page.put(b"br_table");
    put_labels(page, labels);
    put_label(page, last);
}

/// Puts a branch to one of several labels.
fn put_table(page: &mut Page, level: usize, labels: &[Op], last: u32)
    ensures { Puts page.old page.new (row level (targets_text (map label_of labels.now) last)) }
{
    page.put_indent(level);
    put_targets(page, labels, last);
    page.put(b"\n");
}

/// Puts the words of a call through the table.
fn put_callee(page: &mut Page, type_index: u32)
    ensures { Puts page.old page.new (callee_text type_index) }
{
    page.put(b"call_indirect (type ");
    page.put_number(u64::from(type_index));
    page.put(b")");
}

/// Puts a call through the table.
fn put_indirect(page: &mut Page, level: usize, type_index: u32)
    ensures { Puts page.old page.new (row level (callee_text type_index)) }
{
    page.put_indent(level);
    put_callee(page, type_index);
    page.put(b"\n");
}

/// Puts what makes a number of numbers.
fn put_numeric(page: &mut Page, level: usize, numeric: Numeric)
    ensures { Puts page.old page.new (numeric_text level numeric) }
{
    match numeric {
        Numeric::I32Eqz => put_typed(page, level, "i32.", "eqz"),
        Numeric::I32Relation(relation) => put_typed(page, level, "i32.", relation_word(relation)),
        Numeric::I64Eqz => put_typed(page, level, "i64.", "eqz"),
        Numeric::I64Relation(relation) => put_typed(page, level, "i64.", relation_word(relation)),
        Numeric::I32Add => put_typed(page, level, "i32.", "add"),
        Numeric::I64Operation(operation) => {
            put_typed(page, level, "i64.", operation_word(operation));
        }
        Numeric::I32WrapI64 => put_typed(page, level, "i32.", "wrap_i64"),
        Numeric::I64ExtendI32S => put_typed(page, level, "i64.", "extend_i32_s"),
        Numeric::I64ExtendI32U => put_typed(page, level, "i64.", "extend_i32_u"),
    }
}

/// Puts the row that opens a block, and the code inside.
#[cycle(text)]
fn put_opened(page: &mut Page, level: usize, word: &str, kind: Option<ValueType>, ops: &[Op])
    ensures { Puts page.old page.new
        (opened_text level word.now kind (code_text (deeper level) (tree ops.now))) }
{
    put_opening(page, level, word, kind);
    put_ops(page, deeper(level), ops);
}

/// The same with an end.
#[cycle(text)]
fn put_block(page: &mut Page, level: usize, word: &str, kind: Option<ValueType>, ops: &[Op])
    ensures { Puts page.old page.new
        (opened_text level word.now kind (code_text (deeper level) (tree ops.now))
        ++ row level (codes "end")) }
{
    put_opened(page, level, word, kind, ops);
    put_word(page, level, "end");
}

/// Puts an `if` with two sides.
#[cycle(text)]
fn put_sides(page: &mut Page, level: usize, kind: Option<ValueType>, ops: &[Op], others: &[Op])
    ensures { Puts page.old page.new
        (opened_text level (codes "if") kind (code_text (deeper level) (tree ops.now))
        ++ (row level (codes "else")
        ++ (code_text (deeper level) (tree others.now) ++ row level (codes "end")))) }
{
    put_opened(page, level, "if", kind, ops);
    put_word(page, level, "else");
    put_ops(page, deeper(level), others);
    put_word(page, level, "end");
}

/// Puts the instruction that this operation begins, of which those behind it may be a part.
#[cycle(text)]
fn put_op(page: &mut Page, level: usize, op: Op, rest: &[Op])
    ensures { Puts page.old page.new (instr_text (head tree op rest.now) level) }
{
    match op {
        Op::Unreachable => put_word(page, level, "unreachable"),
        Op::Block(kind, count) => put_block(page, level, "block", kind, split_ops(rest, count).0),
        Op::Loop(kind, count) => put_block(page, level, "loop", kind, split_ops(rest, count).0),
        Op::If(kind, count) => put_block(page, level, "if", kind, split_ops(rest, count).0),
        Op::IfElse(kind, count, second) => {
            let (ops, more) = split_ops(rest, count);
            put_sides(page, level, kind, ops, split_ops(more, second).0);
        }
        Op::Br(label) => put_numbered(page, level, "br ", u64::from(label)),
        Op::BrIf(label) => put_numbered(page, level, "br_if ", u64::from(label)),
        Op::BrTable(count, last) => put_table(page, level, split_ops(rest, count).0, last),
        Op::Return => put_word(page, level, "return"),
        Op::Call(function) => put_numbered(page, level, "call ", u64::from(function)),
        Op::CallIndirect(type_index) => put_indirect(page, level, type_index),
        Op::Drop => put_word(page, level, "drop"),
        Op::LocalGet(local) => put_numbered(page, level, "local.get ", u64::from(local)),
        Op::LocalSet(local) => put_numbered(page, level, "local.set ", u64::from(local)),
        Op::LocalTee(local) => put_numbered(page, level, "local.tee ", u64::from(local)),
        Op::GlobalGet(global) => put_numbered(page, level, "global.get ", u64::from(global)),
        Op::Load(load) => put_word(page, level, load_word(load)),
        Op::Store(width) => put_word(page, level, store_word(width)),
        Op::I32Const(number) => put_numbered(page, level, "i32.const ", u64::from(number)),
        Op::I64Const(number) => put_numbered(page, level, "i64.const ", number),
        Op::Numeric(numeric) => put_numeric(page, level, numeric),
    }
}

/// Puts the instructions, one behind another.
#[cycle(text)]
pub fn put_ops(page: &mut Page, level: usize, ops: &[Op])
    ensures { Puts page.old page.new (code_text level (tree ops.now)) }
{
    let mut left = ops;
    while let Some((op, rest)) = first_of(left) {
        put_op(page, level, op, rest);
        left = behind(op, rest);
    }
}
