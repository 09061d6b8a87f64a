//! Modules as trees (Core 1.0, section 2.5).

use crate::code::Code;
use crate::kinds::{FuncType, Limits, MemoryType, TableType, ValueType};
use tree_parts::Items;

/// What an import asks for.
#[derive(Clone, Copy, PartialEq, Eq)]
pub enum ImportKind {
    /// A function of the type of this index.
    Function(u32),
    Table(TableType),
    Memory(MemoryType),
    /// A constant global of this type.
    Global(ValueType),
}

/// An import, by the name of a module and a name in it, both in UTF-8.
#[derive(Drop)]
pub struct Import {
    pub module_name: Items<u8>,
    pub name: Items<u8>,
    pub kind: ImportKind,
}

/// A constant global and the code of its value.
#[derive(Drop)]
pub struct Global {
    pub value_type: ValueType,
    pub value: Code,
}

/// What is exported, by its index among the module's things of that kind, imported ones first.
#[derive(Clone, Copy, PartialEq, Eq)]
pub enum ExportKind {
    Function(u32),
    Table(u32),
    Memory(u32),
    Global(u32),
}

/// An export under a name in UTF-8.
#[derive(Drop)]
pub struct Export {
    pub name: Items<u8>,
    pub kind: ExportKind,
}

/// Functions, by their indices, for the slots of a table from an offset on.
#[derive(Drop)]
pub struct Element {
    pub table: u32,
    pub offset: Code,
    pub functions: Items<u32>,
}

/// A number of locals of one type, one after another.
#[derive(Clone, Copy, PartialEq, Eq)]
pub struct Locals {
    pub count: u32,
    pub value_type: ValueType,
}

/// The locals that a function declares, in groups, and its code.
#[derive(Drop)]
pub struct Body {
    pub locals: Items<Locals>,
    pub code: Code,
}

/// A function, its type by its index.
#[derive(Drop)]
pub struct Function {
    pub type_index: u32,
    pub body: Body,
}

/// Bytes for a memory from an offset on.
#[derive(Drop)]
pub struct Data {
    pub memory: u32,
    pub offset: Code,
    pub bytes: Items<u8>,
}

/// A module, its parts in the order of their sections.
pub struct WModule {
    pub types: Items<FuncType>,
    pub imports: Items<Import>,
    pub functions: Items<Function>,
    pub tables: Items<TableType>,
    pub memories: Items<MemoryType>,
    pub globals: Items<Global>,
    pub exports: Items<Export>,
    pub elements: Items<Element>,
    pub data: Items<Data>,
}

// Written by hand, so that proofs above take a drop as one call, and not as one for each field.
impl Drop for WModule {
    fn drop(self) {
        let WModule {
            types,
            imports,
            functions,
            tables,
            memories,
            globals,
            exports,
            elements,
            data,
        } = self;
        drop(types);
        drop(imports);
        drop(functions);
        drop(tables);
        drop(memories);
        drop(globals);
        drop(exports);
        drop(elements);
        drop(data);
    }
}
