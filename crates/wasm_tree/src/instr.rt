//! Instructions (Core 1.0, section 2.4), each block with its code inside it.

use crate::kinds::ValueType;
use tree_parts::Items;

/// How two numbers are compared (Core 1.0, section 2.4.1): as signed or as unsigned ones if that matters.
#[derive(Clone, Copy, PartialEq, Eq)]
pub enum Relation {
    Eq,
    Ne,
    LtS,
    LtU,
    GtS,
    GtU,
    LeS,
    LeU,
    GeS,
    GeU,
}

/// What is made of two numbers of 64 bits (Core 1.0, section 2.4.1).
#[derive(Clone, Copy, PartialEq, Eq)]
pub enum Operation {
    Add,
    Sub,
    Mul,
    DivS,
    DivU,
    RemS,
    RemU,
    And,
    Or,
    Xor,
    Shl,
    ShrU,
}

/// An instruction that takes numbers off the operand stack and pushes one (Core 1.0, section 2.4.1).
#[derive(Clone, Copy, PartialEq, Eq)]
pub enum Numeric {
    /// Pushes 1 if the number of 32 bits is 0, else 0.
    I32Eqz,
    /// Pushes 1 if the two numbers of 32 bits compare so, else 0.
    I32Relation(Relation),
    /// Pushes 1 if the number of 64 bits is 0, else 0.
    I64Eqz,
    /// Pushes 1 if the two numbers of 64 bits compare so, else 0.
    I64Relation(Relation),
    /// Adds two numbers of 32 bits.
    I32Add,
    /// Does this with two numbers of 64 bits. A division traps if the divisor is 0 or the quotient has no bits.
    I64Operation(Operation),
    /// Keeps the low 32 bits.
    I32WrapI64,
    /// Extends by the sign.
    I64ExtendI32S,
    /// Extends by zeros.
    I64ExtendI32U,
}

/// Which bytes are loaded, the lowest first, and how they become 64 bits (Core 1.0, section 2.4.4).
#[derive(Clone, Copy, PartialEq, Eq)]
pub enum Load {
    /// Eight bytes.
    I64,
    /// One byte, extended by zeros.
    I64From8U,
    /// Two bytes, extended by zeros.
    I64From16U,
    /// Four bytes, extended by the sign.
    I64From32S,
    /// Four bytes, extended by zeros.
    I64From32U,
}

/// How many of the low bytes of 64 bits are stored, the lowest first (Core 1.0, section 2.4.4).
#[derive(Clone, Copy, PartialEq, Eq)]
pub enum StoreWidth {
    Eight,
    One,
    Two,
    Four,
}

/// An instruction. The end of a sequence is no instruction of its own. Labels count from the innermost block, from 0.
#[derive(Drop)]
pub enum Instr {
    /// Traps.
    Unreachable,
    /// Executes its code; a branch to it goes on behind it.
    Block(Option<ValueType>, Items<Instr>),
    /// Executes its code; a branch to it begins it again.
    Loop(Option<ValueType>, Items<Instr>),
    /// Executes the first side if the topmost operand is not 0, else the second, if there is one. A branch to it goes
    /// on behind it.
    If(Option<ValueType>, Items<Instr>, Option<Items<Instr>>),
    /// Branches to the block of this label.
    Br(u32),
    /// The same, if the topmost operand is not 0.
    BrIf(u32),
    /// Branches to the label that the topmost operand numbers, or to the last one if there is none of this number.
    BrTable(Items<u32>, u32),
    /// Returns from the function.
    Return,
    /// Calls the function of this index.
    Call(u32),
    /// Calls the function in the slot of the table that the topmost operand names; it is to have the type of this index.
    CallIndirect(u32),
    /// Takes an operand away.
    Drop,
    /// Pushes the value of the local of this index.
    LocalGet(u32),
    /// Takes an operand and puts it into the local of this index.
    LocalSet(u32),
    /// Puts the topmost operand into the local of this index and leaves it there.
    LocalTee(u32),
    /// Pushes the value of the global of this index.
    GlobalGet(u32),
    /// Takes an address and pushes what the memory holds there.
    Load(Load),
    /// Takes a number and an address below it, and stores the number there.
    Store(StoreWidth),
    /// Pushes a number of 32 bits, given by its bits.
    I32Const(u32),
    /// Pushes a number of 64 bits, given by its bits.
    I64Const(u64),
    /// Takes numbers and pushes one.
    Numeric(Numeric),
}
