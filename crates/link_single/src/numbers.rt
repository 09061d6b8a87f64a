//! What the numbers in a module are in the whole.

use crate::fault::SingleFault;
use std::alloc::Global as Alloc;
use std::collections::HashMap;
use tree_parts::Items;
use wasm_core::{Code, ExportKind, Import, ImportKind, Op, WModule};

/// The names of the host's functions.
const PUT: &[u8] = b"put";

const STOP: &[u8] = b"stop";

/// The value of a global, which is a number.
fn value_at(tree: &WModule, global: usize) -> Result<u32, SingleFault> {
    match tree.globals.get(global) {
        Some(found) => match found.value.ops() {
            [Op::I32Const(value)] => Ok(*value),
            _ => Err(SingleFault::NotOurs),
        },
        None => Err(SingleFault::NotOurs),
    }
}

/// The values of link's globals, by the names under which they are exported.
pub fn values_of(alloc: Alloc, link: &WModule) -> Result<HashMap<&[u8], u32>, SingleFault> {
    let mut values = HashMap::new(alloc);
    for export in link.exports.as_slice() {
        if let ExportKind::Global(global) = export.kind {
            values.insert(export.name.as_slice(), value_at(link, global as usize)?)?;
        }
    }
    Ok(values)
}

/// What all modules import: the values of link's globals, and the host's functions by their numbers in the whole.
#[derive(Drop)]
pub struct Outside<'a> {
    pub values: HashMap<&'a [u8], u32>,
    pub put: u32,
    pub stop: u32,
}

/// What the numbers in a module are in the whole.
#[derive(Drop)]
pub struct Numbers {
    /// How many types, and how many functions, stand in front of its own.
    types: u32,
    functions: u32,
    /// The functions that it imports.
    imported: Vec<u32>,
    /// The values of its globals.
    globals: Vec<u32>,
}

impl Numbers {
    /// The numbers in a module that stands behind so many types and functions.
    pub fn of(
        alloc: Alloc,
        tree: &WModule,
        outside: &Outside<'_>,
        types: u32,
        functions: u32,
    ) -> Result<Numbers, SingleFault> {
        let mut numbers = Numbers {
            types,
            functions,
            imported: Vec::new(alloc),
            globals: Vec::new(alloc),
        };
        for import in tree.imports.as_slice() {
            numbers.add_import(import, outside)?;
        }
        for global in 0..tree.globals.len() {
            numbers.globals.push(value_at(tree, global)?)?;
        }
        Ok(numbers)
    }

    fn add_import(&mut self, import: &Import, outside: &Outside<'_>) -> Result<(), SingleFault> {
        let name = import.name.as_slice();
        match import.kind {
            ImportKind::Function(_) if name == PUT => self.imported.push(outside.put)?,
            ImportKind::Function(_) if name == STOP => self.imported.push(outside.stop)?,
            ImportKind::Function(_) => return Err(SingleFault::NotOurs),
            ImportKind::Global(_) => match outside.values.get(name) {
                Some(value) => self.globals.push(*value)?,
                None => return Err(SingleFault::NotOurs),
            },
            ImportKind::Table(_) | ImportKind::Memory(_) => {}
        }
        Ok(())
    }

    /// The type of this number.
    pub fn of_type(&self, number: u32) -> Result<u32, SingleFault> {
        number.checked_add(self.types).ok_or(SingleFault::TooLarge)
    }

    /// The function of this number.
    pub fn function(&self, number: u32) -> Result<u32, SingleFault> {
        if let Some(function) = self.imported.get(number as usize) {
            return Ok(*function);
        }
        let own = (number as usize).saturating_sub(self.imported.len());
        u32::try_from(own.saturating_add(self.functions as usize)).map_err(
            |_| SingleFault::TooLarge,
        )
    }

    fn operation(&self, op: Op) -> Result<Op, SingleFault> {
        match op {
            Op::Call(number) => Ok(Op::Call(self.function(number)?)),
            Op::CallIndirect(number) => Ok(Op::CallIndirect(self.of_type(number)?)),
            Op::GlobalGet(number) => match self.globals.get(number as usize) {
                Some(value) => Ok(Op::I32Const(*value)),
                None => Err(SingleFault::NotOurs),
            },
            _ => Ok(op),
        }
    }

    /// Code with the numbers of the whole.
    pub fn code(&self, alloc: Alloc, code: &Code) -> Result<Code, SingleFault> {
        let mut ops = Vec::with_capacity(alloc, code.ops().len())?;
        for op in code.ops() {
            ops.push(self.operation(*op)?)?;
        }
        Ok(Code::new(ops))
    }

    /// These functions by their numbers in the whole.
    pub fn listed(&self, alloc: Alloc, list: &[u32]) -> Result<Items<u32>, SingleFault> {
        let mut functions = Items::new(alloc);
        for number in list {
            functions.push(self.function(*number)?)?;
        }
        Ok(functions)
    }
}
