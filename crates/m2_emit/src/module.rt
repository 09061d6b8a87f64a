//! The module of a body.

ghost use Rattle.std.specs.Prelude.{◌≡◌, true, IfOk, map};
ghost use Rattle.layout_storage.specs.Layouts.{IsLayout};
ghost use Rattle.layout_storage.specs.Texts.{module_texts};
ghost use Rattle.def_scheme.specs.Modules.{all_characters, functions, signatures, slots, typed_module};
ghost use Rattle.emit_tables.specs.Offsets.{AreTexts};
ghost use Rattle.emit_buffer.specs.Cut.{cut_function, cut_module};
ghost use Rattle.emit_buffer.specs.Fitting.{sizes_fit};

use crate::functions::functions_of;
use crate::imports::imports_of;
use crate::segments::{data_of, elements_of};
use crate::types::types_of;
use emit_buffer::Home;
use emit_tables::{ModuleTexts, Signatures, module_texts, signatures_of};
use layout_storage::Layout;
use std::alloc::{AllocError, Global};
use tree_parts::Items;
use typed_tree::TypedModule;
use wasm_tree::{Function, WModule};

/// How many slots a module fills.
pub fn slots_of(module_body: &TypedModule) -> usize
    ensures { result ≡ slots module_body.now }
{
    module_body.procedures.as_slice().len() + 1
}

/// The functions of a module that has these texts and needs these signatures.
fn functions(
    alloc: Global,
    module_body: &TypedModule,
    layout: &Layout,
    needed: &Signatures,
    texts: &ModuleTexts,
) -> Result<Items<Function>, AllocError>
    requires layout { IsLayout module_body.now layout.now }
    requires fits { sizes_fit module_body.now.types ≡ true }
    requires signatures { needed.now ≡ signatures module_body.now }
    requires texts { AreTexts module_body.now texts.now }
    ensures { IfOk result (λ found. found ≡ map cut_function (functions module_body.now)) }
{
    let home = Home::new(alloc, module_body, layout, needed)?;
    functions_of(alloc, &home, texts)
}

/// The module, with these functions and texts.
fn assemble_module(
    alloc: Global,
    module_body: &TypedModule,
    needed: &Signatures,
    found: Items<Function>,
    bytes: Items<u8>,
) -> Result<WModule, AllocError>
    requires signatures { needed.now ≡ signatures module_body.now }
    requires functions { found ≡ map cut_function (functions module_body.now) }
    requires texts { bytes ≡ all_characters (module_texts module_body.now) }
    ensures { IfOk result (λ tree. tree ≡ cut_module (typed_module module_body.now)) }
{
    Ok(WModule {
        types: types_of(alloc, needed)?,
        imports: imports_of(alloc, module_body)?,
        functions: found,
        tables: Items::new(alloc),
        memories: Items::new(alloc),
        globals: Items::new(alloc),
        exports: Items::new(alloc),
        elements: elements_of(alloc, slots_of(module_body))?,
        data: data_of(alloc, bytes)?,
    })
}

/// The module of a body, with its numbers cut.
pub fn module_of(
    alloc: Global,
    module_body: &TypedModule,
    layout: &Layout,
) -> Result<WModule, AllocError>
    requires layout { IsLayout module_body.now layout.now }
    requires fits { sizes_fit module_body.now.types ≡ true }
    ensures { IfOk result (λ tree. tree ≡ cut_module (typed_module module_body.now)) }
{
    let needed = signatures_of(alloc, module_body)?;
    let texts = module_texts(alloc, module_body, layout.texts as usize)?;
    let found = functions(alloc, module_body, layout, &needed, &texts)?;
    let ModuleTexts { characters, .. } = texts;
    assemble_module(alloc, module_body, &needed, found, characters.into_items())
}
