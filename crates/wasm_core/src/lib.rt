//! WebAssembly modules in this project's profile (Core 1.0): their trees, their bytes, and which of them are valid.
//!
//! [`read_module`] answers the module that bytes spell, or the fault of the bytes. [`write_module`] answers the only
//! bytes that spell a module. [`validate`] takes a module and answers it as a valid one, or its fault. [`Instr`] and [`Code`]
//! are instructions, each block with its code inside it; [`Writer`] is the buffer that bytes are appended to.
//!
//! The crates behind this one are internal. Users name this one alone.
#![tactic(auto)]

pub use wasm_binary::{read_module, write_module};
pub use wasm_code::Writer;
pub use wasm_tree::{
    Body, Code, Data, Element, EncodeError, Export, ExportKind, FuncType, Function, Global, Import,
    ImportKind, Instr, Limits, Load, Locals, MemoryType, Numeric, Op, Operation, Relation,
    StoreWidth, TableType, ValueType, WFault, WModule,
};
pub use wasm_valid::{ValidModule, validate};
