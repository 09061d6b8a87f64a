//! Types in bytes (Core 1.0, section 5.3).

ghost use Rattle.std.specs.Prelude.{◌≡◌, ◌≢◌, ◌≤◌, IfOk, length, Err, ◌++◌, OnOk, true, false};
ghost use Rattle.wasm_tree.specs.Format.{Format, Gives};
ghost use Rattle.wasm_code.specs.Instructions.{value_type};
ghost use Rattle.wasm_binary.specs.Binary.{func_type, limits, table_type, memory_type};

use crate::binary::{Binary, vector, write_vector};
use std::alloc::Global;
use wasm_code::{Writer, byte, byte_at, skip, unsigned_at};
use wasm_tree::{EncodeError, FuncType, Limits, MemoryType, TableType, ValueType, WFault};

#[tactic(auto, unfolding(wasm_code::specs::Instructions::value_type))]
impl Binary for ValueType {
    ghost format = { value_type };

    fn read(_alloc: Global, bytes: &[u8]) -> Result<(ValueType, &[u8]), WFault>
        ensures gives { Gives (λ x. (x.0, x.1.now)) result (value_type.reading bytes.now) }
        ensures memory { result ≢ Err WFault.NoMemory }
        ensures shorter { IfOk result (λ x. length x.1.now ≤ length bytes.now) }
    {
        match byte_at(bytes)? {
            (byte::I32, rest) => Ok((ValueType::I32, rest)),
            (byte::I64, rest) => Ok((ValueType::I64, rest)),
            _ => Err(WFault::OutsideProfile),
        }
    }

    fn write(&self, out: &mut Writer) -> Result<(), EncodeError>
        ensures written { OnOk result (out.new ≡ out.old ++ value_type.encoding self.now) }
        ensures fits { OnOk result (value_type.fits self.now ≡ true) }
        ensures unfit { result ≡ Err EncodeError.NoEncoding → value_type.fits self.now ≡ false }
        // Each type has an encoding.
        ensures always { result ≢ Err EncodeError.NoEncoding }
    {
        match self {
            ValueType::I32 => Ok(out.byte(byte::I32)?),
            ValueType::I64 => Ok(out.byte(byte::I64)?),
        }
    }
}

#[tactic(auto, unfolding(crate::specs::Binary::func_type))]
impl Binary for FuncType {
    ghost format = { func_type };

    fn read(alloc: Global, bytes: &[u8]) -> Result<(FuncType, &[u8]), WFault> {
        let rest = skip(byte::FUNC_TYPE, bytes)?;
        let (params, rest) = vector(alloc, rest)?;
        let (results, rest) = vector(alloc, rest)?;
        Ok((FuncType { params, results }, rest))
    }

    fn write(&self, out: &mut Writer) -> Result<(), EncodeError> {
        out.byte(byte::FUNC_TYPE)?;
        write_vector(out, self.params.as_slice())?;
        write_vector(out, self.results.as_slice())
    }
}

#[tactic(auto, unfolding(crate::specs::Binary::limits))]
impl Binary for Limits {
    ghost format = { limits };

    fn read(_alloc: Global, bytes: &[u8]) -> Result<(Limits, &[u8]), WFault>
        ensures gives { Gives (λ x. (x.0, x.1.now)) result (limits.reading bytes.now) }
        ensures memory { result ≢ Err WFault.NoMemory }
        ensures shorter { IfOk result (λ x. length x.1.now ≤ length bytes.now) }
    {
        let (flag, rest) = byte_at(bytes)?;
        match flag {
            0x00 => {
                let (min, rest) = unsigned_at(rest)?;
                Ok((Limits { min, max: None }, rest))
            }
            0x01 => {
                let (min, rest) = unsigned_at(rest)?;
                let (max, rest) = unsigned_at(rest)?;
                let max = Some(max);
                Ok((Limits { min, max }, rest))
            }
            _ => Err(WFault::Malformed),
        }
    }

    fn write(&self, out: &mut Writer) -> Result<(), EncodeError> {
        match self.max {
            None => {
                out.byte(0x00)?;
                out.unsigned(u64::from(self.min))?;
                Ok(())
            }
            Some(max) => {
                out.byte(0x01)?;
                out.unsigned(u64::from(self.min))?;
                out.unsigned(u64::from(max))?;
                Ok(())
            }
        }
    }
}

#[tactic(auto, unfolding(crate::specs::Binary::table_type))]
impl Binary for TableType {
    ghost format = { table_type };

    fn read(alloc: Global, bytes: &[u8]) -> Result<(TableType, &[u8]), WFault>
        ensures gives { Gives (λ x. (x.0, x.1.now)) result (table_type.reading bytes.now) }
        ensures memory { result ≢ Err WFault.NoMemory }
        ensures shorter { IfOk result (λ x. length x.1.now ≤ length bytes.now) }
    {
        let rest = skip(byte::FUNC_REF, bytes)?;
        let (limits, rest) = Limits::read(alloc, rest)?;
        Ok((TableType { limits }, rest))
    }

    fn write(&self, out: &mut Writer) -> Result<(), EncodeError> {
        out.byte(byte::FUNC_REF)?;
        self.limits.write(out)
    }
}

#[tactic(auto, unfolding(crate::specs::Binary::memory_type))]
impl Binary for MemoryType {
    ghost format = { memory_type };

    fn read(alloc: Global, bytes: &[u8]) -> Result<(MemoryType, &[u8]), WFault>
        ensures gives { Gives (λ x. (x.0, x.1.now)) result (memory_type.reading bytes.now) }
        ensures memory { result ≢ Err WFault.NoMemory }
        ensures shorter { IfOk result (λ x. length x.1.now ≤ length bytes.now) }
    {
        let (limits, rest) = Limits::read(alloc, bytes)?;
        Ok((MemoryType { limits }, rest))
    }

    fn write(&self, out: &mut Writer) -> Result<(), EncodeError> {
        self.limits.write(out)
    }
}
