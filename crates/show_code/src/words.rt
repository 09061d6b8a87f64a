//! The words of instructions.

ghost use Rattle.std.specs.Prelude.{◌≡◌};
ghost use Rattle.show_code.specs.Instructions.{load_word, operation_word, relation_word, store_word, value_type_word};

use wasm_tree::{Load, Operation, Relation, StoreWidth, ValueType};

/// A type of numbers.
pub fn value_type_word(value_type: ValueType) -> &'static str
    ensures { result.now ≡ value_type_word value_type }
{
    match value_type {
        ValueType::I32 => "i32",
        ValueType::I64 => "i64",
    }
}

/// A relation, behind the type of its numbers.
pub fn relation_word(relation: Relation) -> &'static str
    ensures { result.now ≡ relation_word relation }
{
    match relation {
        Relation::Eq => "eq",
        Relation::Ne => "ne",
        Relation::LtS => "lt_s",
        Relation::LtU => "lt_u",
        Relation::GtS => "gt_s",
        Relation::GtU => "gt_u",
        Relation::LeS => "le_s",
        Relation::LeU => "le_u",
        Relation::GeS => "ge_s",
        Relation::GeU => "ge_u",
    }
}

/// An operation, behind the type of its numbers.
pub fn operation_word(operation: Operation) -> &'static str
    ensures { result.now ≡ operation_word operation }
{
    match operation {
        Operation::Add => "add",
        Operation::Sub => "sub",
        Operation::Mul => "mul",
        Operation::DivS => "div_s",
        Operation::DivU => "div_u",
        Operation::RemS => "rem_s",
        Operation::RemU => "rem_u",
        Operation::And => "and",
        Operation::Or => "or",
        Operation::Xor => "xor",
        Operation::Shl => "shl",
        Operation::ShrU => "shr_u",
    }
}

/// A load. Addresses are not aligned.
pub fn load_word(load: Load) -> &'static str
    ensures { result.now ≡ load_word load }
{
    match load {
        Load::I64 => "i64.load align=1",
        Load::I64From8U => "i64.load8_u align=1",
        Load::I64From16U => "i64.load16_u align=1",
        Load::I64From32S => "i64.load32_s align=1",
        Load::I64From32U => "i64.load32_u align=1",
    }
}

/// A store. Addresses are not aligned.
pub fn store_word(width: StoreWidth) -> &'static str
    ensures { result.now ≡ store_word width }
{
    match width {
        StoreWidth::Eight => "i64.store align=1",
        StoreWidth::One => "i64.store8 align=1",
        StoreWidth::Two => "i64.store16 align=1",
        StoreWidth::Four => "i64.store32 align=1",
    }
}
