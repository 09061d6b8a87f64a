//! The entries of the sections in bytes (Core 1.0, section 5.5).

ghost use Rattle.std.specs.Prelude.{◌≡◌, ◌≢◌, ◌≤◌, IfOk, length, Err, ◌++◌, OnOk};
ghost use Rattle.wasm_tree.specs.Format.{Format, Gives};
ghost use Rattle.wasm_binary.specs.Binary.{import_kind, import, global, export_kind, export, element_segment, data_segment};

use crate::binary::{Binary, vector, write_vector};
use std::alloc::Global;
use tree_parts::Items;
use wasm_code::{
    Writer, byte, byte_at, close_part, code_at, front, name_at, skip, unsigned_at, write_code,
    write_name,
};
use wasm_tree::{
    Data, Element, EncodeError, Export, ExportKind, Global as Constant, Import, ImportKind,
    MemoryType, TableType, ValueType, WFault,
};

#[tactic(auto, unfolding(crate::specs::Binary::import_kind))]
impl Binary for ImportKind {
    ghost format = { import_kind };

    fn read(alloc: Global, bytes: &[u8]) -> Result<(ImportKind, &[u8]), WFault>
        ensures gives { Gives (λ x. (x.0, x.1.now)) result (import_kind.reading bytes.now) }
        ensures memory { result ≢ Err WFault.NoMemory }
        ensures shorter { IfOk result (λ x. length x.1.now ≤ length bytes.now) }
    {
        let (kind, rest) = byte_at(bytes)?;
        match kind {
            byte::OF_FUNCTION => {
                let (type_index, rest) = unsigned_at(rest)?;
                Ok((ImportKind::Function(type_index), rest))
            }
            byte::OF_TABLE => {
                let (table, rest) = TableType::read(alloc, rest)?;
                Ok((ImportKind::Table(table), rest))
            }
            byte::OF_MEMORY => {
                let (memory, rest) = MemoryType::read(alloc, rest)?;
                Ok((ImportKind::Memory(memory), rest))
            }
            byte::OF_GLOBAL => {
                let (value_type, rest) = ValueType::read(alloc, rest)?;
                let rest = skip(byte::IMMUTABLE, rest)?;
                Ok((ImportKind::Global(value_type), rest))
            }
            _ => Err(WFault::Malformed),
        }
    }

    fn write(&self, out: &mut Writer) -> Result<(), EncodeError> {
        match self {
            ImportKind::Function(type_index) => {
                out.byte(byte::OF_FUNCTION)?;
                type_index.write(out)
            }
            ImportKind::Table(table) => {
                out.byte(byte::OF_TABLE)?;
                table.write(out)
            }
            ImportKind::Memory(memory) => {
                out.byte(byte::OF_MEMORY)?;
                memory.write(out)
            }
            ImportKind::Global(value_type) => {
                out.byte(byte::OF_GLOBAL)?;
                value_type.write(out)?;
                out.byte(byte::IMMUTABLE)?;
                Ok(())
            }
        }
    }
}

#[tactic(auto, unfolding(crate::specs::Binary::import))]
impl Binary for Import {
    ghost format = { import };

    fn read(alloc: Global, bytes: &[u8]) -> Result<(Import, &[u8]), WFault> {
        let (module_name, rest) = name_at(alloc, bytes)?;
        let (name, rest) = name_at(alloc, rest)?;
        let (kind, rest) = ImportKind::read(alloc, rest)?;
        Ok((
            Import {
                module_name,
                name,
                kind,
            },
            rest,
        ))
    }

    fn write(&self, out: &mut Writer) -> Result<(), EncodeError> {
        write_name(out, self.module_name.as_slice())?;
        write_name(out, self.name.as_slice())?;
        self.kind.write(out)
    }
}

#[tactic(auto, unfolding(crate::specs::Binary::global))]
impl Binary for Constant {
    ghost format = { global };

    fn read(alloc: Global, bytes: &[u8]) -> Result<(Constant, &[u8]), WFault> {
        let (value_type, rest) = ValueType::read(alloc, bytes)?;
        let rest = skip(byte::IMMUTABLE, rest)?;
        let (value, rest) = code_at(alloc, rest)?;
        Ok((Constant { value_type, value }, rest))
    }

    fn write(&self, out: &mut Writer) -> Result<(), EncodeError> {
        self.value_type.write(out)?;
        out.byte(byte::IMMUTABLE)?;
        write_code(out, self.value.ops())
    }
}

#[tactic(auto, unfolding(crate::specs::Binary::export_kind))]
impl Binary for ExportKind {
    ghost format = { export_kind };

    fn read(_alloc: Global, bytes: &[u8]) -> Result<(ExportKind, &[u8]), WFault>
        ensures gives { Gives (λ x. (x.0, x.1.now)) result (export_kind.reading bytes.now) }
        ensures memory { result ≢ Err WFault.NoMemory }
        ensures shorter { IfOk result (λ x. length x.1.now ≤ length bytes.now) }
    {
        let (kind, rest) = byte_at(bytes)?;
        match kind {
            byte::OF_FUNCTION => {
                let (index, rest) = unsigned_at(rest)?;
                Ok((ExportKind::Function(index), rest))
            }
            byte::OF_TABLE => {
                let (index, rest) = unsigned_at(rest)?;
                Ok((ExportKind::Table(index), rest))
            }
            byte::OF_MEMORY => {
                let (index, rest) = unsigned_at(rest)?;
                Ok((ExportKind::Memory(index), rest))
            }
            byte::OF_GLOBAL => {
                let (index, rest) = unsigned_at(rest)?;
                Ok((ExportKind::Global(index), rest))
            }
            _ => Err(WFault::Malformed),
        }
    }

    fn write(&self, out: &mut Writer) -> Result<(), EncodeError> {
        match self {
            ExportKind::Function(index) => {
                out.byte(byte::OF_FUNCTION)?;
                index.write(out)
            }
            ExportKind::Table(index) => {
                out.byte(byte::OF_TABLE)?;
                index.write(out)
            }
            ExportKind::Memory(index) => {
                out.byte(byte::OF_MEMORY)?;
                index.write(out)
            }
            ExportKind::Global(index) => {
                out.byte(byte::OF_GLOBAL)?;
                index.write(out)
            }
        }
    }
}

#[tactic(auto, unfolding(crate::specs::Binary::export))]
impl Binary for Export {
    ghost format = { export };

    fn read(alloc: Global, bytes: &[u8]) -> Result<(Export, &[u8]), WFault> {
        let (name, rest) = name_at(alloc, bytes)?;
        let (kind, rest) = ExportKind::read(alloc, rest)?;
        Ok((Export { name, kind }, rest))
    }

    fn write(&self, out: &mut Writer) -> Result<(), EncodeError> {
        write_name(out, self.name.as_slice())?;
        self.kind.write(out)
    }
}

#[tactic(auto, unfolding(crate::specs::Binary::element_segment))]
impl Binary for Element {
    ghost format = { element_segment };

    fn read(alloc: Global, bytes: &[u8]) -> Result<(Element, &[u8]), WFault> {
        let (table, rest) = unsigned_at(bytes)?;
        let (offset, rest) = code_at(alloc, rest)?;
        let (functions, rest) = vector(alloc, rest)?;
        Ok((
            Element {
                table,
                offset,
                functions,
            },
            rest,
        ))
    }

    fn write(&self, out: &mut Writer) -> Result<(), EncodeError> {
        self.table.write(out)?;
        write_code(out, self.offset.ops())?;
        write_vector(out, self.functions.as_slice())
    }
}

#[tactic(auto, unfolding(crate::specs::Binary::data_segment))]
impl Binary for Data {
    ghost format = { data_segment };

    fn read(alloc: Global, bytes: &[u8]) -> Result<(Data, &[u8]), WFault> {
        let (memory, rest) = unsigned_at(bytes)?;
        let (offset, rest) = code_at(alloc, rest)?;
        let (size, rest) = unsigned_at(rest)?;
        let content = front(rest, size);
        let rest = close_part(size, rest, &[])?;
        let bytes = Items::from_slice(alloc, content)?;
        Ok((
            Data {
                memory,
                offset,
                bytes,
            },
            rest,
        ))
    }

    fn write(&self, out: &mut Writer) -> Result<(), EncodeError> {
        self.memory.write(out)?;
        write_code(out, self.offset.ops())?;
        out.part(self.bytes.as_slice())
    }
}
