//! What the one module has of its own for WASI preview 1: `put`, `stop` and what they need, and a page of memory behind the
//! program's. It has the instructions that compiled modules have, and no others.

ghost use Rattle.std.specs.Prelude.{length, ◌<◌, ◌^◌};

use crate::fault::SingleFault;
use crate::whole::{add_bytes, add_function, add_type, next_function};
use run_directory::end_word;
use std::alloc::{AllocError, Global as Alloc};
use wasm_core::ValueType::{I32, I64};
use wasm_core::{Code, Load, Numeric, Op, Operation, Relation, StoreWidth, ValueType, WModule};
use wasm_tree::PAGE_SIZE;

/// The types of `fd_write` and `proc_exit`, of `write`, of `flush` and the function that runs all, and of `put` and `stop`.
pub const WRITE_TYPE: u32 = 0;

pub const EXIT_TYPE: u32 = 1;

const ALL_TYPE: u32 = 2;

const PROPER_TYPE: u32 = 3;

const PUT_TYPE: u32 = 4;

/// What functions of these types take and give.
const TYPES: [(&[ValueType], &[ValueType]); 5] = [
    (&[I32, I32, I32, I32], &[I32]),
    (&[I32], &[]),
    (&[I32, I32, I64], &[]),
    (&[], &[]),
    (&[I64], &[]),
];

/// The functions by their numbers. `write` writes a text, given by a file, an address and a size, however many calls that takes.
/// `flush` writes what waits. `put` lets a byte wait, up to the end of the line or until there is no room. `stop` writes what
/// waits and the words of the end, and ends with its status.
const FD_WRITE: u32 = 0;

const PROC_EXIT: u32 = 1;

const WRITE: u32 = 2;

const FLUSH: u32 = 3;

pub const PUT: u32 = 4;

pub const STOP: u32 = 5;

/// The files of the streams.
const STDOUT: Op = Op::I32Const(1);

const STDERR: Op = Op::I32Const(2);

/// The statuses of an end that is normal, of a fault, and of output that failed.
const NORMAL: Op = Op::I32Const(0);

const FAULTED: Op = Op::I32Const(1);

const FAILED: Op = Op::I32Const(3);

/// The arguments of `write`, and that of `put` and `stop`.
const FILE: Op = Op::LocalGet(0);

const FROM: u32 = 1;

const SIZE: u32 = 2;

const GIVEN: Op = Op::LocalGet(0);

/// The inside of a block or a loop, as far as the code goes; the way out of the block, and back to the begin of the loop in it.
const ALL: u32 = u32::MAX;

const LEAVE: Op = Op::BrIf(1);

const AGAIN: Op = Op::Br(0);

/// How many texts `fd_write` is given.
const ONE_TEXT: Op = Op::I32Const(1);

/// The byte at the end of a line, the number of HALT, how many faults there are, and how many bytes may wait.
const LINE_END: Op = Op::I64Const(10);

const HALT: Op = Op::I64Const(9);

const FAULTS: u8 = 8;

const MOST_WAITING: Op = Op::I64Const(32768);

/// The room for the words of a fault and their length.
const ROW_BYTES: usize = 32;

const ROW: Op = Op::I64Const(32);

/// Operations on numbers and places.
const ZERO: Op = Op::I64Const(0);

const ONE: Op = Op::I64Const(1);

const LOW_BYTE: Op = Op::I64Const(255);

const PLUS: Op = Op::Numeric(Numeric::I64Operation(Operation::Add));

const MINUS: Op = Op::Numeric(Numeric::I64Operation(Operation::Sub));

const TIMES: Op = Op::Numeric(Numeric::I64Operation(Operation::Mul));

const AND: Op = Op::Numeric(Numeric::I64Operation(Operation::And));

const IS_ZERO: Op = Op::Numeric(Numeric::I64Eqz);

const IS_EQUAL: Op = Op::Numeric(Numeric::I64Relation(Relation::Eq));

const DIFFERS: Op = Op::Numeric(Numeric::I64Relation(Relation::Ne));

const IS_BEYOND: Op = Op::Numeric(Numeric::I64Relation(Relation::GeU));

const ADDRESS_PLUS: Op = Op::Numeric(Numeric::I32Add);

const WRAP: Op = Op::Numeric(Numeric::I32WrapI64);

const EXTEND: Op = Op::Numeric(Numeric::I64ExtendI32U);

const LOAD: Op = Op::Load(Load::I64From32U);

const LOAD_BYTE: Op = Op::Load(Load::I64From8U);

const STORE: Op = Op::Store(StoreWidth::Four);

const STORE_BYTE: Op = Op::Store(StoreWidth::One);

/// What stands in the page.
#[derive(Clone, Copy)]
enum Cell {
    /// What `fd_write` is to write: an address and a size.
    Address,
    Size,
    /// How much `fd_write` wrote.
    Written,
    /// How many bytes wait.
    Waiting,
    /// The byte that was put last, or the end of a line if there was none. Behind it the end of a line.
    Last,
    NextLine,
    /// The words of the first fault, behind their length. Those of the others follow, each in a row of its own.
    Lengths,
    Words,
    /// The bytes that wait.
    Buffer,
}

/// A page of memory, from this address on.
#[derive(Clone, Copy)]
pub struct Page {
    begin: u32,
}

impl Page {
    /// The page behind so many pages.
    pub fn behind(pages: u32) -> Result<Page, SingleFault> {
        match pages.checked_mul(PAGE_SIZE) {
            Some(begin) => Ok(Page { begin }),
            None => Err(SingleFault::TooLarge),
        }
    }

    /// The address of a cell.
    fn at(self, cell: Cell) -> Op {
        let offset = match cell {
            Cell::Address => 0,
            Cell::Size => 4,
            Cell::Written => 8,
            Cell::Waiting => 12,
            Cell::Last => 16,
            Cell::NextLine => 17,
            Cell::Lengths => 32,
            Cell::Words => 33,
            Cell::Buffer => 1024,
        };
        Op::I32Const(self.begin.saturating_add(offset))
    }

    /// The same as code.
    fn code(self, alloc: Alloc, cell: Cell) -> Result<Code, AllocError> {
        let mut code = Vec::new(alloc);
        code.push(self.at(cell))?;
        Ok(Code::new(code))
    }
}

/// Appends what does this if the topmost operand is not 0.
fn put_if(code: &mut Vec<Op>, then: &[Op]) -> Result<(), AllocError>
    requires { length then.now < 2 ^ 32 }
{
    code.push(Op::If(None, then.len() as u32))?;
    code.extend_from_slice(then)
}

fn write_code(alloc: Alloc, page: Page) -> Result<Code, AllocError> {
    let (size, written) = (Op::LocalGet(SIZE), page.at(Cell::Written));
    let mut code = Vec::new(alloc);
    code.extend_from_slice(&[
        Op::Block(None, ALL),
        Op::Loop(None, ALL),
        size,
        IS_ZERO,
        LEAVE,
    ])?;
    code.extend_from_slice(&[page.at(Cell::Address), Op::LocalGet(FROM), EXTEND, STORE])?;
    code.extend_from_slice(&[page.at(Cell::Size), size, STORE])?;
    code.extend_from_slice(&[
        FILE,
        page.at(Cell::Address),
        ONE_TEXT,
        written,
        Op::Call(FD_WRITE),
    ])?;
    put_if(&mut code, &[FAILED, Op::Call(PROC_EXIT), Op::Unreachable])?;
    code.extend_from_slice(&[Op::LocalGet(FROM), written, LOAD, WRAP, ADDRESS_PLUS])?;
    code.extend_from_slice(&[Op::LocalSet(FROM), size, written, LOAD, MINUS])?;
    code.extend_from_slice(&[Op::LocalSet(SIZE), AGAIN])?;
    Ok(Code::new(code))
}

fn flush_code(alloc: Alloc, page: Page) -> Result<Code, AllocError> {
    let waiting = page.at(Cell::Waiting);
    let mut code = Vec::new(alloc);
    code.extend_from_slice(&[
        STDOUT,
        page.at(Cell::Buffer),
        waiting,
        LOAD,
        Op::Call(WRITE),
    ])?;
    code.extend_from_slice(&[waiting, ZERO, STORE])?;
    Ok(Code::new(code))
}

fn put_code(alloc: Alloc, page: Page) -> Result<Code, AllocError> {
    let waiting = page.at(Cell::Waiting);
    let mut code = Vec::new(alloc);
    code.extend_from_slice(&[waiting, LOAD, WRAP, page.at(Cell::Buffer), ADDRESS_PLUS])?;
    code.extend_from_slice(&[GIVEN, STORE_BYTE, page.at(Cell::Last), GIVEN, STORE_BYTE])?;
    code.extend_from_slice(&[waiting, waiting, LOAD, ONE, PLUS, STORE])?;
    code.extend_from_slice(&[GIVEN, LOW_BYTE, AND, LINE_END, IS_EQUAL])?;
    code.extend_from_slice(&[waiting, LOAD, MOST_WAITING, IS_EQUAL, ADDRESS_PLUS])?;
    put_if(&mut code, &[Op::Call(FLUSH)])?;
    Ok(Code::new(code))
}

/// The code of `stop`. A program stops with the number of HALT or of a fault alone.
fn stop_code(alloc: Alloc, page: Page) -> Result<Code, AllocError> {
    let row = [GIVEN, ONE, MINUS, ROW, TIMES, WRAP];
    let mut code = Vec::new(alloc);
    code.extend_from_slice(&[Op::Call(FLUSH), GIVEN, HALT, IS_EQUAL])?;
    put_if(&mut code, &[NORMAL, Op::Call(PROC_EXIT), Op::Unreachable])?;
    code.extend_from_slice(&[GIVEN, ONE, MINUS, Op::I64Const(FAULTS as u64), IS_BEYOND])?;
    put_if(&mut code, &[Op::Unreachable])?;
    code.extend_from_slice(&[page.at(Cell::Last), LOAD_BYTE, LINE_END, DIFFERS])?;
    put_if(
        &mut code,
        &[STDERR, page.at(Cell::NextLine), ONE, Op::Call(WRITE)],
    )?;
    code.push(STDERR)?;
    code.extend_from_slice(&row)?;
    code.extend_from_slice(&[page.at(Cell::Words), ADDRESS_PLUS])?;
    code.extend_from_slice(&row)?;
    code.extend_from_slice(&[
        page.at(Cell::Lengths),
        ADDRESS_PLUS,
        LOAD_BYTE,
        Op::Call(WRITE),
    ])?;
    code.extend_from_slice(&[FAULTED, Op::Call(PROC_EXIT), Op::Unreachable])?;
    Ok(Code::new(code))
}

/// Appends the words of the fault of this number in a row, behind their length.
fn add_words(alloc: Alloc, rows: &mut Vec<u8>, number: u8) -> Result<(), SingleFault> {
    let word = end_word(number);
    let words = format!(in alloc; "fault {number}: {word}\n")?;
    rows.push(u8::try_from(words.len()).map_err(|_| SingleFault::TooLarge)?)?;
    rows.extend_from_slice(words.as_bytes())?;
    for _ in words.len()..ROW_BYTES - 1 {
        rows.push(0)?;
    }
    Ok(())
}

/// Adds what the page holds at first.
fn add_page(alloc: Alloc, whole: &mut WModule, page: Page) -> Result<(), SingleFault> {
    let mut rows = Vec::new(alloc);
    for number in 1..=FAULTS {
        add_words(alloc, &mut rows, number)?;
    }
    let (last, lengths) = (
        page.code(alloc, Cell::Last)?,
        page.code(alloc, Cell::Lengths)?,
    );
    add_bytes(alloc, whole, last, b"\n\n")?;
    add_bytes(alloc, whole, lengths, &rows)
}

/// Adds types, functions and texts, in front of those of all modules.
pub fn add_wasi(alloc: Alloc, whole: &mut WModule, page: Page) -> Result<(), SingleFault> {
    for (params, results) in TYPES {
        add_type(alloc, whole, params, results)?;
    }
    add_function(alloc, whole, ALL_TYPE, &[], write_code(alloc, page)?)?;
    add_function(alloc, whole, PROPER_TYPE, &[], flush_code(alloc, page)?)?;
    add_function(alloc, whole, PUT_TYPE, &[], put_code(alloc, page)?)?;
    add_function(alloc, whole, PUT_TYPE, &[], stop_code(alloc, page)?)?;
    add_page(alloc, whole, page)
}

/// Adds the function that runs all, by the function `run` of link. Its number.
pub fn add_start(alloc: Alloc, whole: &mut WModule, run: u32) -> Result<u32, SingleFault> {
    let start = next_function(whole)?;
    let mut code = Vec::new(alloc);
    code.extend_from_slice(&[Op::Call(run), Op::Call(FLUSH)])?;
    add_function(alloc, whole, PROPER_TYPE, &[], Code::new(code))?;
    Ok(start)
}
