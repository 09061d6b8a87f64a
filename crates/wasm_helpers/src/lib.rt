//! The code of the functions that each module of a compiled program has before its own.
#![tactic(auto)]

ghost use Rattle.std.specs.Prelude.{◌≡◌};
ghost use Rattle.wasm_tree.specs.Code.{tree};
ghost use Rattle.wasm_helpers.specs.Codes.{check_code, copy_code, div_code, fill_code, mod_code};
ghost use Rattle.wasm_helpers.specs.Operations.{check_ops, copy_ops, div_ops, fill_ops, mod_ops};

use wasm_tree::{Load, Numeric, Op, Operation, Relation, StoreWidth};

/// 2^32 - 1: added to a number of 32 bits, it takes 1 off.
const GREATEST: u32 = 4_294_967_295;

/// The number of the function that ends a run, and the number of check.
const STOP: u32 = 1;

const CHECK: u32 = 4;

/// The greatest divisor, and the fault if there is none from 1 to this.
const MOST_DIVISOR: u64 = 4_294_967_295;

const NO_DIVISOR: u64 = 4;

/// The function check: it gives a number, and ends the run with a fault if the number is not within its bounds.
#[tactic(auto, using(crate::proofs::Operations::check_is))]
pub fn check_ops() -> [Op; 15]
    ensures ops { result ≡ check_ops }
    ensures code { tree result ≡ check_code }
{
    [
        Op::Block(None, 13),
        Op::Block(None, 9),
        Op::LocalGet(0),
        Op::LocalGet(1),
        Op::Numeric(Numeric::I64Relation(Relation::LtS)),
        Op::BrIf(0),
        Op::LocalGet(0),
        Op::LocalGet(2),
        Op::Numeric(Numeric::I64Relation(Relation::GtS)),
        Op::BrIf(0),
        Op::Br(1),
        Op::LocalGet(3),
        Op::Call(STOP),
        Op::Unreachable,
        Op::LocalGet(0),
    ]
}

/// The function fill: it sets bytes to 0 from an address on.
#[tactic(auto, using(crate::proofs::Operations::fill_is))]
pub fn fill_ops() -> [Op; 17]
    ensures ops { result ≡ fill_ops }
    ensures code { tree result ≡ fill_code }
{
    [
        Op::Block(None, 16),
        Op::Loop(None, 15),
        Op::LocalGet(1),
        Op::Numeric(Numeric::I32Eqz),
        Op::BrIf(1),
        Op::LocalGet(0),
        Op::I64Const(0),
        Op::Store(StoreWidth::One),
        Op::LocalGet(0),
        Op::I32Const(1),
        Op::Numeric(Numeric::I32Add),
        Op::LocalSet(0),
        Op::LocalGet(1),
        Op::I32Const(GREATEST),
        Op::Numeric(Numeric::I32Add),
        Op::LocalSet(1),
        Op::Br(0),
    ]
}

/// The function copy: it copies bytes from one address to another, from the first to the last.
#[tactic(auto, using(crate::proofs::Operations::copy_is))]
pub fn copy_ops() -> [Op; 22]
    ensures ops { result ≡ copy_ops }
    ensures code { tree result ≡ copy_code }
{
    [
        Op::Block(None, 21),
        Op::Loop(None, 20),
        Op::LocalGet(2),
        Op::Numeric(Numeric::I32Eqz),
        Op::BrIf(1),
        Op::LocalGet(0),
        Op::LocalGet(1),
        Op::Load(Load::I64From8U),
        Op::Store(StoreWidth::One),
        Op::LocalGet(0),
        Op::I32Const(1),
        Op::Numeric(Numeric::I32Add),
        Op::LocalSet(0),
        Op::LocalGet(1),
        Op::I32Const(1),
        Op::Numeric(Numeric::I32Add),
        Op::LocalSet(1),
        Op::LocalGet(2),
        Op::I32Const(GREATEST),
        Op::Numeric(Numeric::I32Add),
        Op::LocalSet(2),
        Op::Br(0),
    ]
}

/// The function div: it gives the quotient, rounded down.
#[tactic(auto, using(crate::proofs::Operations::div_is))]
pub fn div_ops() -> [Op; 16]
    ensures ops { result ≡ div_ops }
    ensures code { tree result ≡ div_code }
{
    [
        Op::LocalGet(1),
        Op::I64Const(1),
        Op::I64Const(MOST_DIVISOR),
        Op::I64Const(NO_DIVISOR),
        Op::Call(CHECK),
        Op::LocalSet(1),
        Op::LocalGet(0),
        Op::LocalGet(1),
        Op::Numeric(Numeric::I64Operation(Operation::DivS)),
        Op::LocalGet(0),
        Op::LocalGet(1),
        Op::Numeric(Numeric::I64Operation(Operation::RemS)),
        Op::I64Const(0),
        Op::Numeric(Numeric::I64Relation(Relation::LtS)),
        Op::Numeric(Numeric::I64ExtendI32U),
        Op::Numeric(Numeric::I64Operation(Operation::Sub)),
    ]
}

/// The function mod: it gives the remainder of that quotient.
#[tactic(auto, using(crate::proofs::Operations::mod_is))]
pub fn mod_ops() -> [Op; 17]
    ensures ops { result ≡ mod_ops }
    ensures code { tree result ≡ mod_code }
{
    [
        Op::LocalGet(1),
        Op::I64Const(1),
        Op::I64Const(MOST_DIVISOR),
        Op::I64Const(NO_DIVISOR),
        Op::Call(CHECK),
        Op::LocalSet(1),
        Op::LocalGet(0),
        Op::LocalGet(1),
        Op::Numeric(Numeric::I64Operation(Operation::RemS)),
        Op::LocalTee(2),
        Op::LocalGet(2),
        Op::I64Const(0),
        Op::Numeric(Numeric::I64Relation(Relation::LtS)),
        Op::Numeric(Numeric::I64ExtendI32U),
        Op::LocalGet(1),
        Op::Numeric(Numeric::I64Operation(Operation::Mul)),
        Op::Numeric(Numeric::I64Operation(Operation::Add)),
    ]
}
