//! The bytes of modules.

ghost use Rattle.std.specs.Prelude.{◌≡◌, ◌≤◌, IfOk, map};
ghost use Rattle.layout_storage.specs.Layouts.{IsLayout, AllFits};
ghost use Rattle.def_scheme.specs.Modules.{link_of, max_pages};
ghost use Rattle.emit_buffer.specs.Cut.{cut_module};
ghost use Rattle.m2_emit.specs.Emitted.{body_bytes, code_bytes, emitted, parts};

use crate::emitted::ModuleBytes;
use crate::link::link_of;
use crate::module::{module_of, slots_of};
use emit_buffer::{cut, sizes_fit};
use layout_storage::Layout;
use std::alloc::{AllocError, Global};
use tree_parts::Items;
use typed_tree::TypedModule;
use wasm_binary::write_module;
use wasm_tree::{EncodeError, WModule};

/// The bytes of a module. A module without an encoding has none. The only error is that memory ran out.
fn code_bytes(alloc: Global, tree: &WModule) -> Result<Vec<u8>, AllocError>
    ensures { IfOk result (λ bytes. bytes.items ≡ code_bytes tree.now) }
{
    match write_module(alloc, tree) {
        Ok(bytes) => Ok(bytes),
        Err(EncodeError::NoMemory) => Err(AllocError),
        Err(EncodeError::NoEncoding) => Ok(Vec::new(alloc)),
    }
}

/// The bytes of a body's module. There are none if the size of a type or of an element does not fit into 32 bits.
fn body_bytes(
    alloc: Global,
    module_body: &TypedModule,
    layout: &Layout,
) -> Result<Vec<u8>, AllocError>
    requires layout { IsLayout module_body.now layout.now }
    ensures { IfOk result (λ bytes. bytes.items ≡ body_bytes module_body.now) }
{
    if sizes_fit(&module_body.types, &layout.extents) {
        let tree = module_of(alloc, module_body, layout)?;
        return code_bytes(alloc, &tree);
    }
    Ok(Vec::new(alloc))
}

/// The bytes of a body's module, and what link needs of it. The layout is the module's, and nothing of it is too large, as
/// `Layout::of` answers it. A number that does not fit into 32 bits is cut, and a module without an encoding has no
/// bytes. The only error is that memory ran out.
pub fn emit(
    alloc: Global,
    module_body: &TypedModule,
    layout: &Layout,
) -> Result<ModuleBytes, AllocError>
    requires layout { IsLayout module_body.now layout.now }
    requires fits { AllFits module_body.now }
    ensures emitted { IfOk result (λ x. x ≡ emitted module_body.now) }
{
    let bytes = body_bytes(alloc, module_body, layout)?;
    Ok(ModuleBytes {
        name: module_body.name.clone()?,
        bytes: Items::from_vec(bytes),
        variables: layout.variables.size,
        texts: layout.texts,
        slots: cut(slots_of(module_body)),
    })
}

/// The bytes of the module link for these modules, which are in start order: it has `pages` pages (of 65536 bytes) of
/// memory, and runs the bodies. A number that does not fit into 32 bits is cut, and a module without an encoding has no
/// bytes. The only error is that memory ran out.
pub fn emit_link(alloc: Global, modules: &[&ModuleBytes], pages: u32) -> Result<Vec<u8>, AllocError>
    requires { pages ≤ max_pages }
    ensures { let ms = parts (map (λ m. m.now) modules.now) in
        IfOk result (λ bytes. bytes.items ≡ code_bytes (cut_module (link_of ms pages))) }
{
    let tree = link_of(alloc, modules, pages)?;
    code_bytes(alloc, &tree)
}
