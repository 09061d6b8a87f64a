//! Instructions in bytes (Core 1.0, section 5.4).

ghost use Rattle.std.specs.Prelude.{◌≡◌, ◌≢◌, Err, ◌+◌, ◌-◌, ◌<◌, ◌≤◌, ◌^◌, true, false, Ok, [], ◌∷◌, ◌++◌, OnOk, IfOk, MatchOption, length, map, slice_set};
ghost use Rattle.std.specs.List.{flat_map};
ghost use Rattle.wasm_tree.specs.Code.{tree, head, behind, label_of};
ghost use Rattle.wasm_tree.specs.Format.{Format, Gives};
ghost use Rattle.wasm_tree.specs.declared.code.Op.TheVariants.{Br, IfElse};
ghost use Rattle.wasm_tree.specs.declared.instr.Instr.TheVariants as instr;
ghost use Rattle.wasm_code.specs.Bytes as byte;
ghost use Rattle.wasm_code.specs.Number.{unsigned, signed32, signed64};
ghost use Rattle.wasm_code.specs.Parts.{many, vector};
ghost use Rattle.wasm_code.specs.Instructions.{block_type, no_offset, memory_of, variable_of, plain_of, opens, ending_of, instr_of, code_in, nested_instruction, code_within, instr_encoding, code};
ghost use Rattle.wasm_code.specs.ScratchStack.{is_plain, one_sided_op, onto, onto_sequence, onto_code, sides_of};

use crate::fits::{MAX_LEVELS, code_fits};
use crate::opcode::{load_of, load_opcode, numeric_of, numeric_opcode, store_of, store_opcode};
use crate::{Writer, byte, byte_at, signed32_at, signed64_at, skip, unsigned_at};
use std::alloc::{AllocError, Global};
use tree_parts::Items;
use wasm_tree::{Code, EncodeError, Op, ValueType, WFault, behind, first_of, label_of, split_ops};

/// How many bytes an operation takes about, for which there is room before code is written.
const BYTES_OF_AN_OP: usize = 2;

/// What stands behind instructions in a row.
#[derive(Clone, Copy)]
pub enum Ending {
    End,
    Else,
}

/// What ends a sequence, if the opcode does.
fn ending_of(opcode: u8) -> Option<Ending>
    ensures { result ≡ ending_of opcode }
{
    match opcode {
        byte::END => Some(Ending::End),
        byte::ELSE => Some(Ending::Else),
        _ => None,
    }
}

/// Whether the opcode begins an instruction that holds others.
fn opens(opcode: u8) -> bool
    ensures { result ≡ opens opcode }
{
    opcode == byte::BLOCK || opcode == byte::LOOP || opcode == byte::IF
}

/// The two bytes of zero behind a load or a store: its hint and its offset.
fn no_offset(bytes: &[u8]) -> Result<&[u8], WFault>
    ensures gives { Gives (λ x. x.now) result (no_offset bytes.now) }
    ensures memory { result ≢ Err WFault.NoMemory }
{
    let rest = skip(0x00, bytes)?;
    skip(0x00, rest)
}

/// Puts an operation on the scratch.
#[inline(always)]
fn put_op(scratch: &mut Vec<Op>, op: Op) -> Result<(), AllocError>
    ensures { OnOk result (scratch.new.items ≡ scratch.old.items ++ op ∷ []) }
{
    if scratch.capacity() <= scratch.len() {
        scratch.reserve(1)?;
    }
    scratch.push_reserved(op);
    Ok(())
}

/// Puts an instruction without others inside on the scratch. The bytes behind it are those.
#[inline(always)]
fn put<'a>(scratch: &mut Vec<Op>, op: Op, rest: &'a [u8]) -> Result<&'a [u8], WFault>
    requires { is_plain op ≡ true }
    ensures { Gives (λ x. (scratch.new.items, x.now)) result
        (onto scratch.old.items (Ok (head tree op [], rest.now))) }
{
    put_op(scratch, op)?;
    Ok(rest)
}

/// Puts the branches of a table on the scratch.
fn put_branches(scratch: &mut Vec<Op>, labels: &[u32]) -> Result<(), AllocError>
    ensures { OnOk result (scratch.new.items ≡ scratch.old.items ++ map Br labels.now) }
{
    for label in labels {
        put_op(scratch, Op::Br(*label))?;
    }
    Ok(())
}

/// `count` labels, one after another.
fn many_labels(alloc: Global, count: u32, bytes: &[u8]) -> Result<(Items<u32>, &[u8]), WFault>
    ensures gives { Gives (λ x. (x.0, x.1.now)) result (many unsigned count bytes.now) }
    ensures count { IfOk result (λ x. length x.0 ≡ count) }
{
    let mut labels = Items::new(alloc);
    let mut rest = bytes;
    for _ in 0..count {
        let (label, after) = unsigned_at(rest)?;
        labels.push(label)?;
        rest = after;
    }
    Ok((labels, rest))
}

/// How many labels there are, and then each.
fn labels_at(alloc: Global, bytes: &[u8]) -> Result<(Items<u32>, &[u8]), WFault>
    ensures few { IfOk result (λ x. length x.0 < 2 ^ 32) }
    ensures gives { Gives (λ x. (x.0, x.1.now)) result ((vector unsigned).reading bytes.now) }
{
    let (count, rest) = unsigned_at(bytes)?;
    many_labels(alloc, count, rest)
}

/// Puts a table of labels on the scratch. The bytes behind it are those.
fn put_table<'a>(
    scratch: &mut Vec<Op>,
    labels: &[u32],
    last: u32,
    rest: &'a [u8],
) -> Result<&'a [u8], WFault>
    requires { length labels.now < 2 ^ 32 }
    ensures { Gives (λ x. (scratch.new.items, x.now)) result
        (onto scratch.old.items (Ok (instr.BrTable labels.now last, rest.now))) }
{
    let count = labels.len() as u32;
    put_op(scratch, Op::BrTable(count, last))?;
    put_branches(scratch, labels)?;
    Ok(rest)
}

/// Reads the instruction of memory or the numeric one that this opcode begins.
#[inline(always)]
#[tactic(auto, unfolding(crate::specs::Instructions::memory_of))]
fn memory_onto<'a>(scratch: &mut Vec<Op>, opcode: u8, bytes: &'a [u8]) -> Result<&'a [u8], WFault>
    ensures { Gives (λ x. (scratch.new.items, x.now)) result
        (onto scratch.old.items (memory_of opcode bytes.now)) }
{
    if let Some(load) = load_of(opcode) {
        let rest = no_offset(bytes)?;
        return put(scratch, Op::Load(load), rest);
    }
    if let Some(width) = store_of(opcode) {
        let rest = no_offset(bytes)?;
        return put(scratch, Op::Store(width), rest);
    }
    match numeric_of(opcode) {
        Some(numeric) => put(scratch, Op::Numeric(numeric), bytes),
        None => Err(WFault::OutsideProfile),
    }
}

/// The same of those that drop an operand, name a variable or push a constant, too.
#[inline(always)]
#[tactic(auto, unfolding(crate::specs::Instructions::variable_of))]
fn variable_onto<'a>(scratch: &mut Vec<Op>, opcode: u8, bytes: &'a [u8]) -> Result<&'a [u8], WFault>
    ensures { Gives (λ x. (scratch.new.items, x.now)) result
        (onto scratch.old.items (variable_of opcode bytes.now)) }
{
    match opcode {
        byte::DROP => put(scratch, Op::Drop, bytes),
        byte::LOCAL_GET => {
            let (local, rest) = unsigned_at(bytes)?;
            put(scratch, Op::LocalGet(local), rest)
        }
        byte::LOCAL_SET => {
            let (local, rest) = unsigned_at(bytes)?;
            put(scratch, Op::LocalSet(local), rest)
        }
        byte::LOCAL_TEE => {
            let (local, rest) = unsigned_at(bytes)?;
            put(scratch, Op::LocalTee(local), rest)
        }
        byte::GLOBAL_GET => {
            let (global, rest) = unsigned_at(bytes)?;
            put(scratch, Op::GlobalGet(global), rest)
        }
        byte::I32_CONST => {
            let (number, rest) = signed32_at(bytes)?;
            put(scratch, Op::I32Const(number), rest)
        }
        byte::I64_CONST => {
            let (number, rest) = signed64_at(bytes)?;
            put(scratch, Op::I64Const(number), rest)
        }
        _ => memory_onto(scratch, opcode, bytes),
    }
}

/// Reads the instruction without others inside that this opcode begins.
#[inline(always)]
#[tactic(auto, unfolding(crate::specs::Instructions::plain_of))]
fn plain_onto<'a>(
    alloc: Global,
    scratch: &mut Vec<Op>,
    opcode: u8,
    bytes: &'a [u8],
) -> Result<&'a [u8], WFault>
    ensures { Gives (λ x. (scratch.new.items, x.now)) result
        (onto scratch.old.items (plain_of opcode bytes.now)) }
{
    match opcode {
        byte::UNREACHABLE => put(scratch, Op::Unreachable, bytes),
        byte::BR => {
            let (label, rest) = unsigned_at(bytes)?;
            put(scratch, Op::Br(label), rest)
        }
        byte::BR_IF => {
            let (label, rest) = unsigned_at(bytes)?;
            put(scratch, Op::BrIf(label), rest)
        }
        byte::BR_TABLE => {
            let (labels, rest) = labels_at(alloc, bytes)?;
            let (last, rest) = unsigned_at(rest)?;
            put_table(scratch, labels.as_slice(), last, rest)
        }
        byte::RETURN => put(scratch, Op::Return, bytes),
        byte::CALL => {
            let (function, rest) = unsigned_at(bytes)?;
            put(scratch, Op::Call(function), rest)
        }
        byte::CALL_INDIRECT => {
            let (type_index, rest) = unsigned_at(bytes)?;
            let rest = skip(0x00, rest)?;
            put(scratch, Op::CallIndirect(type_index), rest)
        }
        _ => variable_onto(scratch, opcode, bytes),
    }
}

/// The type of a block.
#[tactic(auto, unfolding(crate::specs::Instructions::block_type))]
fn block_type_at(bytes: &[u8]) -> Result<(Option<ValueType>, &[u8]), WFault>
    ensures gives { Gives (λ x. (x.0, x.1.now)) result (block_type.reading bytes.now) }
    ensures memory { result ≢ Err WFault.NoMemory }
{
    match byte_at(bytes)? {
        (byte::NO_RESULT, rest) => Ok((None, rest)),
        (byte::I32, rest) => Ok((Some(ValueType::I32), rest)),
        (byte::I64, rest) => Ok((Some(ValueType::I64), rest)),
        _ => Err(WFault::OutsideProfile),
    }
}

/// The operation with one sequence, of this many, that the opcode begins.
#[inline(always)]
fn one_sided(opcode: u8, kind: Option<ValueType>, count: u32) -> Op
    ensures { result ≡ one_sided_op opcode kind count }
{
    match opcode {
        byte::BLOCK => Op::Block(kind, count),
        byte::LOOP => Op::Loop(kind, count),
        _ => Op::If(kind, count),
    }
}

/// Puts an operation into its place on the scratch.
#[inline(always)]
fn set_op(scratch: &mut Vec<Op>, place: usize, op: Op)
    requires { place < length scratch.old.items }
    ensures { scratch.new.items ≡ slice_set scratch.old.items place op }
{
    scratch[place] = op;
}

/// Puts the operation with one sequence into its place: all behind it are inside.
fn close_one(scratch: &mut Vec<Op>, place: usize, opcode: u8, kind: Option<ValueType>)
    requires place { place < length scratch.old.items }
    requires few { length scratch.old.items - (place + 1) < 2 ^ 32 }
    ensures { scratch.new.items ≡ slice_set scratch.old.items place
        (one_sided_op opcode kind (length scratch.old.items - (place + 1))) }
{
    let count = (scratch.len() - (place + 1)) as u32;
    set_op(scratch, place, one_sided(opcode, kind, count));
}

/// Puts an `if` with two sides into its place: the second side begins at that length, and goes up to the end.
fn close_two(scratch: &mut Vec<Op>, place: usize, second: usize, kind: Option<ValueType>)
    requires first { place < second }
    requires second { second ≤ length scratch.old.items }
    requires few { second - (place + 1) < 2 ^ 32 }
    requires others { length scratch.old.items - second < 2 ^ 32 }
    ensures { scratch.new.items ≡ slice_set scratch.old.items place
        (IfElse kind (second - (place + 1)) (length scratch.old.items - second)) }
{
    let count = (second - (place + 1)) as u32;
    let others = (scratch.len() - second) as u32;
    set_op(scratch, place, Op::IfElse(kind, count, others));
}

/// Reads what stands behind the type of an instruction that holds others, if this many levels of nesting are left for
/// these. Its operation is put into its place when it is known how many they are.
#[cycle(code)]
fn sides_onto<'a>(
    alloc: Global,
    levels: u16,
    scratch: &mut Vec<Op>,
    opcode: u8,
    kind: Option<ValueType>,
    bytes: &'a [u8],
) -> Result<&'a [u8], WFault>
    requires { length bytes.now < 2 ^ 32 }
    ensures { Gives (λ x. (scratch.new.items, x.now)) result
        (onto scratch.old.items (sides_of levels opcode kind bytes.now)) }
{
    let place = scratch.len();
    put_op(scratch, Op::Unreachable)?;
    let (ending, rest) = code_in(alloc, levels, scratch, bytes)?;
    match ending {
        Ending::End => {
            close_one(scratch, place, opcode, kind);
            Ok(rest)
        }
        Ending::Else => {
            if opcode != byte::IF {
                return Err(WFault::OutsideProfile);
            }
            let second = scratch.len();
            let rest = code_within(alloc, levels, scratch, rest)?;
            close_two(scratch, place, second, kind);
            Ok(rest)
        }
    }
}

/// Reads the instruction that this opcode begins and that holds others, if this many levels of nesting are left.
#[inline(never)]
#[cycle(code)]
#[tactic(auto, unfolding(crate::specs::Instructions::nested_instruction))]
fn opened_onto<'a>(
    alloc: Global,
    levels: u16,
    scratch: &mut Vec<Op>,
    opcode: u8,
    bytes: &'a [u8],
) -> Result<&'a [u8], WFault>
    requires { length bytes.now < 2 ^ 32 }
    ensures { Gives (λ x. (scratch.new.items, x.now)) result
        (onto scratch.old.items (nested_instruction levels opcode bytes.now)) }
{
    if levels == 0 {
        return Err(WFault::OutsideProfile);
    }
    let (kind, rest) = block_type_at(bytes)?;
    sides_onto(alloc, levels - 1, scratch, opcode, kind, rest)
}

/// Reads the instruction that this opcode begins, and puts it on the scratch.
#[inline(always)]
#[cycle(code)]
fn instr_onto<'a>(
    alloc: Global,
    levels: u16,
    scratch: &mut Vec<Op>,
    opcode: u8,
    bytes: &'a [u8],
) -> Result<&'a [u8], WFault>
    requires { length bytes.now < 2 ^ 32 }
    ensures { Gives (λ x. (scratch.new.items, x.now)) result
        (onto scratch.old.items (instr_of (nested_instruction levels) opcode bytes.now)) }
{
    if opens(opcode) {
        opened_onto(alloc, levels, scratch, opcode, bytes)
    } else {
        plain_onto(alloc, scratch, opcode, bytes)
    }
}

/// Puts instructions on the scratch up to what ends them, if this many levels of nesting are left.
#[cycle(code)]
fn code_in<'a>(
    alloc: Global,
    levels: u16,
    scratch: &mut Vec<Op>,
    bytes: &'a [u8],
) -> Result<(Ending, &'a [u8]), WFault>
    requires { length bytes.now < 2 ^ 32 }
    ensures { Gives (λ x. ((scratch.new.items, x.0), x.1.now)) result
        (onto_sequence scratch.old.items (code_in levels bytes.now)) }
{
    let mut rest = bytes;
    for _ in 0..bytes.len() {
        let (opcode, after) = byte_at(rest)?;
        if let Some(ending) = ending_of(opcode) {
            return Ok((ending, after));
        }
        rest = instr_onto(alloc, levels, scratch, opcode, after)?;
    }
    Err(WFault::Malformed)
}

/// The same up to an end.
#[cycle(code)]
fn code_within<'a>(
    alloc: Global,
    levels: u16,
    scratch: &mut Vec<Op>,
    bytes: &'a [u8],
) -> Result<&'a [u8], WFault>
    requires { length bytes.now < 2 ^ 32 }
    ensures { Gives (λ x. (scratch.new.items, x.now)) result
        (onto_code scratch.old.items ((code_within levels).reading bytes.now)) }
{
    match code_in(alloc, levels, scratch, bytes)? {
        (Ending::End, rest) => Ok(rest),
        (Ending::Else, _) => Err(WFault::OutsideProfile),
    }
}

/// Takes all off the scratch.
fn take_all(scratch: &mut Vec<Op>) -> Result<Code, AllocError>
    ensures { IfOk result (λ c. c ≡ tree scratch.old.items) }
{
    Ok(Code::new(scratch.split_off(0)?))
}

/// The instructions up to the end of their sequence, read over a scratch that may be used again. So each list asks for memory
/// once. Each operation has a byte of its own, so there are fewer than 2^32 of them.
#[tactic(auto, unfolding(crate::specs::Instructions::code))]
pub fn code_over<'a>(
    alloc: Global,
    scratch: &mut Vec<Op>,
    bytes: &'a [u8],
) -> Result<(Code, &'a [u8]), WFault>
    requires { length bytes.now < 2 ^ 32 }
    ensures gives { Gives (λ x. (x.0, x.1.now)) result (code.reading bytes.now) }
    ensures shorter { IfOk result (λ x. length x.1.now ≤ length bytes.now) }
{
    scratch.clear();
    let rest = code_within(alloc, MAX_LEVELS, scratch, bytes)?;
    let code = take_all(scratch)?;
    Ok((code, rest))
}

/// The instructions up to the end of their sequence.
pub fn code_at(alloc: Global, bytes: &[u8]) -> Result<(Code, &[u8]), WFault>
    requires { length bytes.now < 2 ^ 32 }
    ensures gives { Gives (λ x. (x.0, x.1.now)) result (code.reading bytes.now) }
    ensures shorter { IfOk result (λ x. length x.1.now ≤ length bytes.now) }
{
    let mut scratch = Vec::new(alloc);
    code_over(alloc, &mut scratch, bytes)
}

/// Appends an opcode and the index behind it.
fn write_indexed(out: &mut Writer, opcode: u8, index: u32) -> Result<(), AllocError>
    ensures { OnOk result (out.new ≡ out.old ++ (opcode ∷ unsigned.encoding index)) }
{
    out.with_index(opcode, u64::from(index))
}

/// Appends an opcode and the two bytes of zero behind it.
fn write_no_offset(out: &mut Writer, opcode: u8) -> Result<(), AllocError>
    ensures { OnOk result (out.new ≡ out.old ++ (opcode ∷ 0x00 ∷ 0x00 ∷ [])) }
{
    out.bytes(&[opcode, 0x00, 0x00])
}

#[tactic(auto, unfolding(crate::specs::Instructions::block_type))]
fn write_block_type(out: &mut Writer, kind: Option<ValueType>) -> Result<(), AllocError>
    ensures { OnOk result (out.new ≡ out.old ++ block_type.encoding kind) }
{
    match kind {
        None => out.byte(byte::NO_RESULT),
        Some(ValueType::I32) => out.byte(byte::I32),
        Some(ValueType::I64) => out.byte(byte::I64),
    }
}

/// Appends how many labels there are, and then each.
fn write_labels(out: &mut Writer, labels: &[Op]) -> Result<(), AllocError>
    ensures { OnOk result
        (out.new ≡ out.old ++ (vector unsigned).encoding (map label_of labels.now)) }
{
    out.unsigned(labels.len() as u64)?;
    for label in labels {
        out.unsigned(u64::from(label_of(*label)))?;
    }
    Ok(())
}

fn write_table(out: &mut Writer, labels: &[Op], last: u32) -> Result<(), AllocError>
    ensures { OnOk result
        (out.new ≡ out.old
        ++ (byte.br_table ∷ (vector unsigned).encoding (map label_of labels.now)
        ++ unsigned.encoding last)) }
{
    out.byte(byte::BR_TABLE)?;
    write_labels(out, labels)?;
    out.unsigned(u64::from(last))
}

fn write_i32(out: &mut Writer, number: u32) -> Result<(), AllocError>
    ensures { OnOk result (out.new ≡ out.old ++ (byte.i32_const ∷ signed32.encoding number)) }
{
    out.byte(byte::I32_CONST)?;
    out.signed32(number)
}

fn write_i64(out: &mut Writer, number: u64) -> Result<(), AllocError>
    ensures { OnOk result (out.new ≡ out.old ++ (byte.i64_const ∷ signed64.encoding number)) }
{
    out.byte(byte::I64_CONST)?;
    out.signed64(number)
}

/// Appends an opcode, the type of a block and the instructions inside, without an end.
#[cycle(write)]
fn write_opened(
    out: &mut Writer,
    opcode: u8,
    kind: Option<ValueType>,
    ops: &[Op],
) -> Result<(), AllocError>
    ensures { OnOk result
        (out.new ≡ out.old
        ++ (opcode ∷ block_type.encoding kind ++ flat_map instr_encoding (tree ops.now))) }
{
    out.byte(opcode)?;
    write_block_type(out, kind)?;
    write_ops(out, ops)
}

/// The same with an end.
#[cycle(write)]
fn write_block(
    out: &mut Writer,
    opcode: u8,
    kind: Option<ValueType>,
    ops: &[Op],
) -> Result<(), AllocError>
    ensures { OnOk result
        (out.new ≡ out.old
        ++ (opcode ∷ block_type.encoding kind ++ flat_map instr_encoding (tree ops.now)
        ++ byte.end ∷ [])) }
{
    write_opened(out, opcode, kind, ops)?;
    out.byte(byte::END)
}

/// Appends an `if` with two sides.
#[cycle(write)]
fn write_sides(
    out: &mut Writer,
    kind: Option<ValueType>,
    ops: &[Op],
    others: &[Op],
) -> Result<(), AllocError>
    ensures { OnOk result
        (out.new ≡ out.old
        ++ (byte.if ∷ block_type.encoding kind ++ flat_map instr_encoding (tree ops.now)
        ++ (byte.else ∷ flat_map instr_encoding (tree others.now) ++ byte.end ∷ []))) }
{
    write_opened(out, byte::IF, kind, ops)?;
    out.byte(byte::ELSE)?;
    write_ops(out, others)?;
    out.byte(byte::END)
}

/// Appends the instruction that this operation begins, of which those behind it may be a part.
#[cycle(write)]
fn write_op(out: &mut Writer, op: Op, rest: &[Op]) -> Result<(), AllocError>
    ensures { OnOk result (out.new ≡ out.old ++ instr_encoding (head tree op rest.now)) }
{
    match op {
        Op::Unreachable => out.byte(byte::UNREACHABLE),
        Op::Block(kind, count) => write_block(out, byte::BLOCK, kind, split_ops(rest, count).0),
        Op::Loop(kind, count) => write_block(out, byte::LOOP, kind, split_ops(rest, count).0),
        Op::If(kind, count) => write_block(out, byte::IF, kind, split_ops(rest, count).0),
        Op::IfElse(kind, count, second) => {
            let (ops, more) = split_ops(rest, count);
            write_sides(out, kind, ops, split_ops(more, second).0)
        }
        Op::Br(label) => write_indexed(out, byte::BR, label),
        Op::BrIf(label) => write_indexed(out, byte::BR_IF, label),
        Op::BrTable(count, last) => write_table(out, split_ops(rest, count).0, last),
        Op::Return => out.byte(byte::RETURN),
        Op::Call(function) => write_indexed(out, byte::CALL, function),
        Op::CallIndirect(type_index) => {
            write_indexed(out, byte::CALL_INDIRECT, type_index)?;
            out.byte(0x00)
        }
        Op::Drop => out.byte(byte::DROP),
        Op::LocalGet(local) => write_indexed(out, byte::LOCAL_GET, local),
        Op::LocalSet(local) => write_indexed(out, byte::LOCAL_SET, local),
        Op::LocalTee(local) => write_indexed(out, byte::LOCAL_TEE, local),
        Op::GlobalGet(global) => write_indexed(out, byte::GLOBAL_GET, global),
        Op::Load(load) => write_no_offset(out, load_opcode(load)),
        Op::Store(width) => write_no_offset(out, store_opcode(width)),
        Op::I32Const(number) => write_i32(out, number),
        Op::I64Const(number) => write_i64(out, number),
        Op::Numeric(numeric) => out.byte(numeric_opcode(numeric)),
    }
}

/// Appends the instructions, one after another.
#[cycle(write)]
fn write_ops(out: &mut Writer, ops: &[Op]) -> Result<(), AllocError>
    ensures { OnOk result (out.new ≡ out.old ++ flat_map instr_encoding (tree ops.now)) }
{
    let mut left = ops;
    while let Some((op, rest)) = first_of(left) {
        write_op(out, op, rest)?;
        left = behind(op, rest);
    }
    Ok(())
}

/// Appends the instructions and the end of their sequence. The only error is that memory ran out, or that the code has no
/// encoding.
#[tactic(auto, unfolding(crate::specs::Instructions::code))]
pub fn write_code(out: &mut Writer, ops: &[Op]) -> Result<(), EncodeError>
    ensures written { OnOk result (out.new ≡ out.old ++ code.encoding (tree ops.now)) }
    ensures fits { OnOk result (code.fits (tree ops.now) ≡ true) }
    ensures unfit { result ≡ Err EncodeError.NoEncoding → code.fits (tree ops.now) ≡ false }
{
    if !code_fits(ops) {
        return Err(EncodeError::NoEncoding);
    }
    out.reserve(ops.len().saturating_mul(BYTES_OF_AN_OP))?;
    write_ops(out, ops)?;
    out.byte(byte::END)?;
    Ok(())
}
