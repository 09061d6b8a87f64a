//! What modules are once they are linked (Core 1.0, section 4.2).

use tree_parts::Items;

/// A value on the operand stack, in a local or a global: a number of 32 or of 64 bits, given by its bits.
#[derive(Clone, Copy, PartialEq, Eq)]
pub enum Value {
    I32(u32),
    I64(u64),
}

/// A function that can be called.
#[derive(Clone, Copy, PartialEq, Eq)]
pub enum Callee {
    /// The host's `put`: prints the low byte of its argument.
    Put,
    /// The host's `stop`: ends the run with the number that is its argument.
    Stop,
    /// A function that a module declares, both by their numbers.
    Own { module: usize, function: usize },
}

/// A table: in each slot nothing, or the address of a function.
#[derive(Drop)]
pub struct Table {
    pub slots: Items<Option<usize>>,
    pub max: Option<u32>,
}

/// A memory: its bytes, 65536 to a page.
#[derive(Drop)]
pub struct Memory {
    pub bytes: Items<u8>,
    pub max: Option<u32>,
}

/// What a module's indices stand for: places in the store, one list for each kind.
#[derive(Drop)]
pub struct Instance {
    pub functions: Items<usize>,
    pub tables: Items<usize>,
    pub memories: Items<usize>,
    pub globals: Items<usize>,
}

/// All that linked modules share, and what each one's indices stand for.
#[derive(Drop)]
pub struct Store {
    pub functions: Items<Callee>,
    pub tables: Items<Table>,
    pub memories: Items<Memory>,
    pub globals: Items<Value>,
    pub instances: Items<Instance>,
}

/// What an export or an answered import stands for: a place in the store.
#[derive(Clone, Copy, PartialEq, Eq)]
pub enum Extern {
    Function(usize),
    Table(usize),
    Memory(usize),
    Global(usize),
}
