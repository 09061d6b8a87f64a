//! The types of a module: of values, functions, tables and memories (Core 1.0, section 2.3).

use tree_parts::Items;

/// The type of a value on the operand stack, of a local or a global.
#[derive(Clone, Copy, PartialEq, Eq)]
pub enum ValueType {
    I32,
    I64,
}

/// What a function takes and gives.
#[derive(Drop)]
pub struct FuncType {
    pub params: Items<ValueType>,
    pub results: Items<ValueType>,
}

/// The bytes of a page of memory (Core 1.0, section 4.2.8).
pub const PAGE_SIZE: u32 = 65536;

/// The pages that a memory may have (Core 1.0, section 3.2.5).
pub const MAX_MEMORY: u64 = 65536;

/// The least size, and the greatest if there is one.
#[derive(Clone, Copy, PartialEq, Eq)]
pub struct Limits {
    pub min: u32,
    pub max: Option<u32>,
}

/// A table of functions, its size in entries.
#[derive(Clone, Copy, PartialEq, Eq)]
pub struct TableType {
    pub limits: Limits,
}

/// A memory, its size in pages of 65536 bytes.
#[derive(Clone, Copy, PartialEq, Eq)]
pub struct MemoryType {
    pub limits: Limits,
}
