//! Parts of modules.

ghost use Rattle.std.specs.Prelude.{◌≡◌, ◌++◌, ◌∷◌, [], IfOk};
ghost use Rattle.def_scheme.specs.Scheme.{type_from, exported_as, constant_global};
ghost use Rattle.emit_buffer.specs.Cut.{cut_global};

use crate::code::number_code;
use emit_buffer::Amount;
use std::alloc::{AllocError, Global};
use tree_parts::Items;
use wasm_tree::{Export, ExportKind, FuncType, Global as Constant, Limits, ValueType};

/// At least one page, or one slot.
pub const AT_LEAST_ONE: Limits = Limits { min: 1, max: None };

/// A list of one item.
pub fn one<T>(alloc: Global, item: T) -> Result<Items<T>, AllocError>
where
    T: Drop,
    ensures { IfOk result (λ items. items ≡ item ∷ []) }
{
    let mut items = Items::new(alloc);
    items.push(item)?;
    Ok(items)
}

/// A name of a module behind a word.
pub fn name_behind_word(alloc: Global, word: &[u8], name: &[u8]) -> Result<Items<u8>, AllocError>
    ensures { IfOk result (λ bytes. bytes ≡ word.now ++ name.now) }
{
    let mut bytes = Vec::from_slice(alloc, word)?;
    bytes.extend_from_slice(name)?;
    Ok(Items::from_vec(bytes))
}

/// A function's type.
pub fn type_from(
    alloc: Global,
    params: &[ValueType],
    results: &[ValueType],
) -> Result<FuncType, AllocError>
    ensures { IfOk result (λ t. t ≡ type_from params.now results.now) }
{
    Ok(FuncType {
        params: Items::from_slice(alloc, params)?,
        results: Items::from_slice(alloc, results)?,
    })
}

/// A global with this number for ever, cut to 32 bits.
#[tactic(auto, using(crate::proofs::Uncut::constant_is))]
pub fn constant_global(alloc: Global, number: &Amount) -> Result<Constant, AllocError>
    ensures { IfOk result (λ global. global ≡ cut_global (constant_global number.now)) }
{
    Ok(Constant {
        value_type: ValueType::I32,
        value: number_code(alloc, number.kept())?,
    })
}

/// An export under this name.
pub fn exported_as(alloc: Global, name: &[u8], kind: ExportKind) -> Result<Export, AllocError>
    ensures { IfOk result (λ e. e ≡ exported_as name.now kind) }
{
    Ok(Export {
        name: Items::from_slice(alloc, name)?,
        kind,
    })
}
