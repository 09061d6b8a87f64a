//! WebAssembly modules in this project's profile of the Core Specification 1.0, as trees, and what they mean: when they
//! are valid, how they are linked, and each step of the machine.
#![tactic(auto)]

mod code;
mod encode;
mod fault;
mod instr;
mod kinds;
mod module;
mod store;
mod width;

pub use code::{Code, Op, behind, first_of, label_of, split_ops};
pub use encode::EncodeError;
pub use fault::WFault;
pub use instr::{Instr, Load, Numeric, Operation, Relation, StoreWidth};
pub use kinds::{FuncType, Limits, MAX_MEMORY, MemoryType, PAGE_SIZE, TableType, ValueType};
pub use module::{
    Body, Data, Element, Export, ExportKind, Function, Global, Import, ImportKind, Locals, WModule,
};
pub use store::{Callee, Extern, Instance, Memory, Store, Table, Value};
pub use width::{plus, small};
