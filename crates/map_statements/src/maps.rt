//! The maps of a program's modules.

use crate::begins::begins_of;
use crate::walk::rows_of;
use anyhow::Result;
use explain_runs::{Activation, Function, Marked, Names, Place, marked_program};
use m2c::{Options, SourceFile};
use map_files::{Map, Mapped, sum_of};
use std::alloc::{AllocError, Global};
use std::thread::Threads;
use wasm_binary::read_module;
use wasm_tree::{Op, WModule};
use watch_code::{HELPERS, IMPORTED};

/// A module that was built: its name, and its bytes.
type Built = (String, Vec<u8>);

/// A module with its code, and with the same code with marks.
struct Pair<'a> {
    alloc: Global,
    names: Names<'a>,
    /// The number of the first of its functions among those of all modules.
    first: usize,
    code: WModule,
    marked: WModule,
    /// The bytes with which the code of its functions begins.
    begins: Vec<usize>,
}

// Written by hand, so that proofs above take a drop as one call.
impl<'a> Drop for Pair<'a> {
    fn drop(self) {
        let Pair {
            alloc: _alloc,
            names: _names,
            first: _first,
            code,
            marked,
            begins,
        } = self;
        drop(code);
        drop(marked);
        drop(begins);
    }
}

/// The operations of the function of this number among those with code.
fn ops_of(tree: &WModule, at: usize) -> Option<&[Op]> {
    tree.functions
        .as_slice()
        .get(at)
        .map(|it| it.body.code.ops())
}

/// A number of a function.
fn small(number: usize) -> u32 {
    u32::try_from(number).unwrap_or(u32::MAX)
}

/// The name of a procedure, or of the module.
fn name_of(alloc: Global, place: &Place<'_>) -> Result<String, AllocError> {
    match place.procedure {
        None => String::from_str(alloc, place.module),
        Some(name) => Ok(String::from_utf8_lossy(alloc, name)?),
    }
}

impl<'a> Pair<'a> {
    /// Where the function of this number of the module's own stands.
    fn place_of(&self, own: usize) -> Option<Place<'a>> {
        self.names.place_of(Activation {
            function: small(self.first.saturating_add(own)),
            mark: None,
        })
    }

    /// What is mapped of the function of this number of the module's own.
    fn mapped(&self, own: usize, function: &Function) -> Result<Option<Mapped>> {
        let at = HELPERS.saturating_add(own);
        let (Some(code), Some(marked)) = (ops_of(&self.code, at), ops_of(&self.marked, at)) else {
            return Ok(None);
        };
        let (Some(begin), Some(place)) = (self.begins.get(at), self.place_of(own)) else {
            return Ok(None);
        };
        let Some(rows) = rows_of(
            self.alloc,
            function.pos,
            *begin,
            code,
            marked,
            &function.marks,
        )?
        else {
            return Ok(None);
        };
        Ok(Some(Mapped {
            number: IMPORTED.saturating_add(small(at)),
            is_body: function.is_body,
            name: name_of(self.alloc, &place)?,
            pos: function.pos,
            rows,
        }))
    }

    /// What is mapped of these functions, which are the module's own.
    fn all_mapped(&self, functions: &[Function]) -> Result<Option<Vec<Mapped>>> {
        let mut all = Vec::new(self.alloc);
        for (own, function) in functions.iter().enumerate() {
            match self.mapped(own, function)? {
                None => return Ok(None),
                Some(mapped) => all.push(mapped)?,
            }
        }
        Ok(Some(all))
    }
}

/// The map of a module with its functions.
fn map_with(
    alloc: Global,
    module: &Built,
    source: &SourceFile,
    functions: Vec<Mapped>,
) -> Result<Map, AllocError> {
    let code_sum = sum_of(alloc, &module.1)?;
    let source_sum = sum_of(alloc, &source.bytes)?;
    let name = String::from_str(alloc, module.0.as_str())?;
    let file = String::from_str(alloc, source.name.as_str())?;
    Ok(Map {
        module: name,
        length: module.1.len() as u64,
        code_sum,
        source: file,
        source_sum,
        functions,
    })
}

/// The map of the module of this number of a program, whose marked program this is.
fn map_of(
    alloc: Global,
    program: &Marked,
    names: Names<'_>,
    number: usize,
    module: &Built,
) -> Result<Option<Map>> {
    let Some(marked) = program.modules.get(number) else {
        return Ok(None);
    };
    let pair = Pair {
        alloc,
        names,
        first: program.functions.first_of(number),
        code: read_module(alloc, &module.1)?,
        marked: read_module(alloc, &marked.1)?,
        begins: begins_of(alloc, &module.1)?,
    };
    let Some(place) = pair.place_of(0) else {
        return Ok(None);
    };
    match pair.all_mapped(program.functions.of_module(number))? {
        None => Ok(None),
        Some(functions) => Ok(Some(map_with(alloc, module, place.file, functions)?)),
    }
}

/// The maps of modules, which were built of these files. Nothing if they cannot be made, as a text may be too long or nest too deep
/// with its marks.
///
/// An error if memory ran out.
pub fn maps_of<R>(
    rt: &R,
    files: &[SourceFile],
    options: Options,
    modules: &[Built],
) -> Result<Option<Vec<Map>>>
where
    R: AllocGlobal + Threads + Sync,
{
    let alloc = rt.alloc();
    let Some(program) = marked_program(rt, files, options)? else {
        return Ok(None);
    };
    let names = Names {
        files,
        modules: &program.modules,
        functions: &program.functions.all,
    };
    let mut maps = Vec::new(alloc);
    for (number, module) in modules.iter().enumerate() {
        match map_of(alloc, &program, names, number, module)? {
            None => return Ok(None),
            Some(map) => maps.push(map)?,
        }
    }
    Ok(Some(maps))
}
