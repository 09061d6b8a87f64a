//! The slots that a module fills, and its texts.

ghost use Rattle.std.specs.Prelude.{◌≡◌, ◌∷◌, [], IfOk, map};
ghost use Rattle.std.specs.List.{range_with_len};
ghost use Rattle.wasm_tree.specs.declared.instr.Instr.TheVariants.{GlobalGet};
ghost use Rattle.def_scheme.specs.Coded.{body_index};
ghost use Rattle.emit_buffer.specs.Cut.{cut};
ghost use Rattle.def_scheme.specs.Modules.{data_of};

use crate::code::global_code;
use crate::parts::one;
use emit_buffer::Amount;
use std::alloc::{AllocError, Global};
use tree_parts::Items;
use wasm_tree::{Data, Element};

/// The index of the function of a body.
const BODY_INDEX: usize = 7;

/// The body and the procedures stand in the table from the module's first slot on.
#[tactic(auto, using(crate::proofs::Lists::range_more))]
pub fn elements_of(alloc: Global, slots: usize) -> Result<Items<Element>, AllocError>
    ensures { IfOk result (λ elements. elements ≡ record {
      table = 0;
      offset = GlobalGet 3 ∷ [];
      functions = map cut (range_with_len body_index slots);
    } ∷ []) }
{
    let body = Amount::of(BODY_INDEX);
    let mut functions = Items::new(alloc);
    for slot in 0..slots {
        functions.push(body.plus(&Amount::of(slot)).kept())?;
    }
    let element = Element {
        table: 0,
        offset: global_code(alloc, 3)?,
        functions,
    };
    one(alloc, element)
}

/// The texts stand in the memory where the module's texts begin.
#[tactic(auto, using(crate::proofs::Lists::some_data))]
pub fn data_of(alloc: Global, bytes: Items<u8>) -> Result<Items<Data>, AllocError>
    ensures { IfOk result (λ found. found ≡ data_of bytes) }
{
    if bytes.is_empty() {
        return Ok(Items::new(alloc));
    }
    let offset = global_code(alloc, 2)?;
    one(
        alloc,
        Data {
            memory: 0,
            offset,
            bytes,
        },
    )
}
