//! The types of functions of a module.

ghost use Rattle.std.specs.Prelude.{◌≡◌, ◌++◌, ◌∷◌, [], IfOk, OnOk, map};
ghost use Rattle.wasm_tree.specs.declared.kinds.ValueType.TheVariants.{I32};
ghost use Rattle.def_scheme.specs.Scheme.{body_types, type_from};
ghost use Rattle.def_scheme.specs.Signatures.{so_many, type_of};
ghost use Rattle.emit_tables.specs.Seen.{meaning_of};

use crate::parts::type_from;
use emit_tables::{Signature, Signatures};
use std::alloc::{AllocError, Global};
use tree_parts::Items;
use wasm_tree::{FuncType, ValueType};

/// One type more.
fn push_type(
    alloc: Global,
    types: &mut Items<FuncType>,
    params: &[ValueType],
    results: &[ValueType],
) -> Result<(), AllocError>
    ensures { OnOk result (types.new ≡ types.old ++ type_from params.now results.now ∷ []) }
{
    types.push(type_from(alloc, params, results)?)
}

/// The types of the helpers and of the body.
fn body_types(alloc: Global) -> Result<Items<FuncType>, AllocError>
    ensures { IfOk result (λ types. types ≡ body_types) }
{
    let address = ValueType::I32;
    let number = ValueType::I64;
    let mut types = Items::new(alloc);
    push_type(alloc, &mut types, &[number], &[])?;
    push_type(alloc, &mut types, &[address, address, address], &[])?;
    push_type(alloc, &mut types, &[address, address], &[])?;
    push_type(
        alloc,
        &mut types,
        &[number, number, number, number],
        &[number],
    )?;
    push_type(alloc, &mut types, &[number, number], &[number])?;
    push_type(alloc, &mut types, &[address], &[])?;
    Ok(types)
}

/// A frame's address, and this many numbers.
#[tactic(auto, using(crate::proofs::Lists::one_more))]
fn params_of(alloc: Global, arguments: usize) -> Result<Items<ValueType>, AllocError>
    ensures { IfOk result (λ params. params ≡ I32 ∷ so_many arguments) }
{
    let mut params = Items::from_slice(alloc, &[ValueType::I32])?;
    for _ in 0..arguments {
        params.push(ValueType::I64)?;
    }
    Ok(params)
}

fn type_of(alloc: Global, signature: Signature) -> Result<FuncType, AllocError>
    ensures { IfOk result (λ t. t ≡ type_of (meaning_of signature)) }
{
    let params = params_of(alloc, signature.arguments)?;
    let results = if signature.has_result {
        Items::from_slice(alloc, &[ValueType::I64])?
    } else {
        Items::new(alloc)
    };
    Ok(FuncType { params, results })
}

/// Appends the types of these signatures.
fn push_types(
    alloc: Global,
    types: &mut Items<FuncType>,
    signatures: &[Signature],
) -> Result<(), AllocError>
    ensures { OnOk result (types.new ≡ types.old ++ map type_of (map meaning_of signatures.now)) }
{
    for signature in signatures {
        types.push(type_of(alloc, *signature)?)?;
    }
    Ok(())
}

/// The types of a module that needs these signatures.
pub fn types_of(alloc: Global, signatures: &Signatures) -> Result<Items<FuncType>, AllocError>
    ensures { IfOk result (λ types. types ≡ body_types ++ map type_of signatures.now) }
{
    let mut types = body_types(alloc)?;
    push_types(alloc, &mut types, signatures.list())?;
    Ok(types)
}
