//! The opcodes of loads and stores (Core 1.0, section 5.4.4) and of numeric instructions (5.4.5).

ghost use Rattle.std.specs.Prelude.{◌≡◌, ◌<◌};
ghost use Rattle.wasm_code.specs.Opcode.{relation_number, operation_opcode, numeric_opcode, load_opcode, store_opcode, find_opcode, tests, calculations, numeric_of, load_of, store_of};

use wasm_tree::{Load, Numeric, Operation, Relation, StoreWidth};

/// The load of this opcode.
#[tactic(auto, unfolding(crate::specs::Opcode::load_of))]
pub fn load_of(opcode: u8) -> Option<Load>
    ensures { result ≡ load_of opcode }
{
    match opcode {
        0x29 => Some(Load::I64),
        0x31 => Some(Load::I64From8U),
        0x33 => Some(Load::I64From16U),
        0x34 => Some(Load::I64From32S),
        0x35 => Some(Load::I64From32U),
        _ => None,
    }
}

/// The store of this opcode.
#[tactic(auto, unfolding(crate::specs::Opcode::store_of))]
pub fn store_of(opcode: u8) -> Option<StoreWidth>
    ensures { result ≡ store_of opcode }
{
    match opcode {
        0x37 => Some(StoreWidth::Eight),
        0x3C => Some(StoreWidth::One),
        0x3D => Some(StoreWidth::Two),
        0x3E => Some(StoreWidth::Four),
        _ => None,
    }
}

/// The test of this opcode.
fn test_of(opcode: u8) -> Option<Numeric>
    ensures { result ≡ find_opcode numeric_opcode opcode tests }
{
    match opcode {
        0x45 => Some(Numeric::I32Eqz),
        0x46 => Some(Numeric::I32Relation(Relation::Eq)),
        0x47 => Some(Numeric::I32Relation(Relation::Ne)),
        0x48 => Some(Numeric::I32Relation(Relation::LtS)),
        0x49 => Some(Numeric::I32Relation(Relation::LtU)),
        0x4A => Some(Numeric::I32Relation(Relation::GtS)),
        0x4B => Some(Numeric::I32Relation(Relation::GtU)),
        0x4C => Some(Numeric::I32Relation(Relation::LeS)),
        0x4D => Some(Numeric::I32Relation(Relation::LeU)),
        0x4E => Some(Numeric::I32Relation(Relation::GeS)),
        0x4F => Some(Numeric::I32Relation(Relation::GeU)),
        0x50 => Some(Numeric::I64Eqz),
        0x51 => Some(Numeric::I64Relation(Relation::Eq)),
        0x52 => Some(Numeric::I64Relation(Relation::Ne)),
        0x53 => Some(Numeric::I64Relation(Relation::LtS)),
        0x54 => Some(Numeric::I64Relation(Relation::LtU)),
        0x55 => Some(Numeric::I64Relation(Relation::GtS)),
        0x56 => Some(Numeric::I64Relation(Relation::GtU)),
        0x57 => Some(Numeric::I64Relation(Relation::LeS)),
        0x58 => Some(Numeric::I64Relation(Relation::LeU)),
        0x59 => Some(Numeric::I64Relation(Relation::GeS)),
        0x5A => Some(Numeric::I64Relation(Relation::GeU)),
        _ => None,
    }
}

/// The numeric instruction of this opcode, if it is no test.
fn calculation_of(opcode: u8) -> Option<Numeric>
    ensures { result ≡ find_opcode numeric_opcode opcode calculations }
{
    match opcode {
        0x6A => Some(Numeric::I32Add),
        0x7C => Some(Numeric::I64Operation(Operation::Add)),
        0x7D => Some(Numeric::I64Operation(Operation::Sub)),
        0x7E => Some(Numeric::I64Operation(Operation::Mul)),
        0x7F => Some(Numeric::I64Operation(Operation::DivS)),
        0x80 => Some(Numeric::I64Operation(Operation::DivU)),
        0x81 => Some(Numeric::I64Operation(Operation::RemS)),
        0x82 => Some(Numeric::I64Operation(Operation::RemU)),
        0x83 => Some(Numeric::I64Operation(Operation::And)),
        0x84 => Some(Numeric::I64Operation(Operation::Or)),
        0x85 => Some(Numeric::I64Operation(Operation::Xor)),
        0x86 => Some(Numeric::I64Operation(Operation::Shl)),
        0x88 => Some(Numeric::I64Operation(Operation::ShrU)),
        0xA7 => Some(Numeric::I32WrapI64),
        0xAC => Some(Numeric::I64ExtendI32S),
        0xAD => Some(Numeric::I64ExtendI32U),
        _ => None,
    }
}

/// The numeric instruction of this opcode.
#[inline(always)]
#[tactic(auto, unfolding(crate::specs::Opcode::numeric_of))]
pub fn numeric_of(opcode: u8) -> Option<Numeric>
    ensures { result ≡ numeric_of opcode }
{
    match test_of(opcode) {
        Some(test) => Some(test),
        None => calculation_of(opcode),
    }
}

/// The opcode of this load.
pub fn load_opcode(load: Load) -> u8
    ensures { result ≡ load_opcode load }
{
    match load {
        Load::I64 => 0x29,
        Load::I64From8U => 0x31,
        Load::I64From16U => 0x33,
        Load::I64From32S => 0x34,
        Load::I64From32U => 0x35,
    }
}

/// The opcode of this store.
pub fn store_opcode(width: StoreWidth) -> u8
    ensures { result ≡ store_opcode width }
{
    match width {
        StoreWidth::Eight => 0x37,
        StoreWidth::One => 0x3C,
        StoreWidth::Two => 0x3D,
        StoreWidth::Four => 0x3E,
    }
}

fn relation_number(relation: Relation) -> u8
    ensures value { result ≡ relation_number relation }
    ensures small { result < 10 }
{
    match relation {
        Relation::Eq => 0,
        Relation::Ne => 1,
        Relation::LtS => 2,
        Relation::LtU => 3,
        Relation::GtS => 4,
        Relation::GtU => 5,
        Relation::LeS => 6,
        Relation::LeU => 7,
        Relation::GeS => 8,
        Relation::GeU => 9,
    }
}

fn operation_opcode(operation: Operation) -> u8
    ensures { result ≡ operation_opcode operation }
{
    match operation {
        Operation::Add => 0x7C,
        Operation::Sub => 0x7D,
        Operation::Mul => 0x7E,
        Operation::DivS => 0x7F,
        Operation::DivU => 0x80,
        Operation::RemS => 0x81,
        Operation::RemU => 0x82,
        Operation::And => 0x83,
        Operation::Or => 0x84,
        Operation::Xor => 0x85,
        Operation::Shl => 0x86,
        Operation::ShrU => 0x88,
    }
}

/// The opcode of this numeric instruction.
pub fn numeric_opcode(numeric: Numeric) -> u8
    ensures { result ≡ numeric_opcode numeric }
{
    match numeric {
        Numeric::I32Eqz => 0x45,
        Numeric::I32Relation(relation) => 0x46 + relation_number(relation),
        Numeric::I64Eqz => 0x50,
        Numeric::I64Relation(relation) => 0x51 + relation_number(relation),
        Numeric::I32Add => 0x6A,
        Numeric::I64Operation(operation) => operation_opcode(operation),
        Numeric::I32WrapI64 => 0xA7,
        Numeric::I64ExtendI32S => 0xAC,
        Numeric::I64ExtendI32U => 0xAD,
    }
}
