//! What a module's code may name (Core 1.0, section 3.1).

use wasm_tree::{FuncType, Limits, ValueType};

/// The types, functions, tables, memories and globals that indices stand for.
#[derive(Clone, Copy)]
pub struct Scope<'a> {
    pub types: &'a [FuncType],
    /// The index of each function's type.
    pub functions: &'a [u32],
    pub tables: &'a [Limits],
    pub memories: &'a [Limits],
    pub globals: &'a [ValueType],
}
