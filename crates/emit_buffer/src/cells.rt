//! Reading, writing and checking values of types.

ghost use Rattle.std.specs.Prelude.{◌≡◌, ◌∷◌, [], OnOk};
ghost use Rattle.layout_storage.specs.Sizes.{size};
ghost use Rattle.layout_storage.specs.Shapes.{tree};
ghost use Rattle.layout_storage.specs.Extents.{scalar_of as scalar_in_kind};
ghost use Rattle.def_scheme.specs.Coded.{number, operation};
ghost use Rattle.def_scheme.specs.Cells.{lower, unless_nought, load_scalar, store_scalar, load_code, store_code, in_range, in_type, base_of, base_in, is_subrange, check_taken, check_changed};
ghost use Rattle.emit_buffer.specs.Drafts.{put};
ghost use Rattle.emit_buffer.specs.Kinds.{load_by};
ghost use Rattle.m2_rule.specs.FaultNumber.{fault_number};

use crate::draft::Draft;
use crate::pieces::{check_code, number, operation};
use crate::setting::Setting;
use layout_storage::{Kind, Width, width_of};
use m2_rule::Fault;
use std::alloc::AllocError;
use typed_tree::{Scalar, TypeNo, Types, are_same, scalar_of};
use wasm_tree::{Load, Op, Operation, StoreWidth};

/// The bytes of a variable of a type.
pub fn size_in(setting: &Setting<'_>, t: TypeNo) -> u32
    ensures { result ≡ size (tree setting.now.home.types t) }
{
    setting.home().size(t)
}

fn load_of(kind: Kind) -> Load
    ensures { result ≡ load_by kind }
{
    match kind {
        Kind::Integer => Load::I64From32S,
        Kind::Natural(_) | Kind::Between(_, _) => match width_of(kind) {
            Width::One => Load::I64From8U,
            Width::Two => Load::I64From16U,
            Width::Four => Load::I64From32U,
        },
    }
}

fn lower_of(kind: Kind) -> i64
    ensures { result ≡ lower (scalar_in_kind kind) }
{
    match kind {
        Kind::Between(low, _) => low,
        Kind::Natural(_) | Kind::Integer => 0,
    }
}

/// Adds or subtracts a lower bound, if it is not 0.
pub fn shift_bound(low: i64, o: Operation, draft: &mut Draft) -> Result<(), AllocError>
    ensures { let shift = unless_nought low (number low ∷ operation o ∷ []) in
        OnOk result (draft.new ≡ put shift draft.old) }
{
    if low == 0 {
        return Ok(());
    }
    number(low, draft)?;
    operation(o, draft)
}

/// Loads a scalar.
#[tactic(auto, using(crate::proofs::Scalars::load_is))]
fn load_scalar(kind: Kind, draft: &mut Draft) -> Result<(), AllocError>
    ensures { OnOk result (draft.new ≡ put (load_scalar (scalar_in_kind kind)) draft.old) }
{
    draft.push(Op::Load(load_of(kind)))?;
    shift_bound(lower_of(kind), Operation::Add, draft)
}

/// Stores a scalar.
#[tactic(auto, using(crate::proofs::Emitted::put_append, crate::proofs::Scalars::store_is))]
fn store_scalar(kind: Kind, draft: &mut Draft) -> Result<(), AllocError>
    ensures { OnOk result (draft.new ≡ put (store_scalar (scalar_in_kind kind)) draft.old) }
{
    shift_bound(lower_of(kind), Operation::Sub, draft)?;
    draft.push(Op::Store(match width_of(kind) {
        Width::One => StoreWidth::One,
        Width::Two => StoreWidth::Two,
        Width::Four => StoreWidth::Four,
    }))
}

/// Loads a value of a type.
#[tactic(auto, using(crate::proofs::Scalars::loaded_is))]
pub fn load(setting: &Setting<'_>, t: TypeNo, draft: &mut Draft) -> Result<(), AllocError>
    ensures { OnOk result (draft.new ≡ put (load_code setting.now.home.types t) draft.old) }
{
    match setting.home().kind(t) {
        None => Ok(()),
        Some(kind) => load_scalar(kind, draft),
    }
}

/// Stores a value of a type.
#[tactic(auto, using(crate::proofs::Scalars::stored_is))]
pub fn store(setting: &Setting<'_>, t: TypeNo, draft: &mut Draft) -> Result<(), AllocError>
    ensures { OnOk result (draft.new ≡ put (store_code setting.now.home.types t) draft.old) }
{
    match setting.home().kind(t) {
        None => Ok(()),
        Some(kind) => store_scalar(kind, draft),
    }
}

/// Ends the run with this fault if the value is outside of a range.
pub fn in_range(range: Option<Scalar>, fault: Fault, draft: &mut Draft) -> Result<(), AllocError>
    ensures { OnOk result (draft.new ≡ put (in_range range (fault_number fault)) draft.old) }
{
    match range {
        None => Ok(()),
        Some(scalar) => check_code(scalar.low, scalar.high, fault, draft),
    }
}

/// Ends the run with this fault if the value is outside of the bounds of a type.
pub fn in_type(
    setting: &Setting<'_>,
    t: TypeNo,
    fault: Fault,
    draft: &mut Draft,
) -> Result<(), AllocError>
    ensures { OnOk result
        (draft.new ≡ put (in_type setting.now.home.types t (fault_number fault)) draft.old) }
{
    in_range(
        scalar_of(&setting.home().module_body().types, t),
        fault,
        draft,
    )
}

/// The base of a scalar type.
pub fn base_of(types: &Types, t: TypeNo) -> TypeNo
    ensures { result ≡ base_of types.now t }
{
    match scalar_of(types, t) {
        None => t,
        Some(scalar) => scalar.base,
    }
}

fn is_subrange(types: &Types, t: TypeNo) -> bool
    ensures { result ≡ is_subrange types.now t }
{
    !are_same(base_of(types, t), t)
}

/// Checks a value of one type that is taken as one of another.
pub fn check_taken(
    setting: &Setting<'_>,
    t: TypeNo,
    constant: bool,
    of: TypeNo,
    draft: &mut Draft,
) -> Result<(), AllocError>
    ensures { let check = check_taken setting.now.home.types t constant of in
        OnOk result (draft.new ≡ put check draft.old) }
{
    let types = &setting.home().module_body().types;
    if constant || are_same(t, of) || (!is_subrange(types, t) && are_same(t, base_of(types, of))) {
        return Ok(());
    }
    in_type(setting, t, Fault::OutOfRange, draft)
}

/// Checks the result of INC or DEC.
#[tactic(auto, using(crate::proofs::Emitted::put_append))]
pub fn check_changed(setting: &Setting<'_>, t: TypeNo, draft: &mut Draft) -> Result<(), AllocError>
    ensures { OnOk result (draft.new ≡ put (check_changed setting.now.home.types t) draft.old) }
{
    let types = &setting.home().module_body().types;
    in_type(setting, base_of(types, t), Fault::Overflow, draft)?;
    if is_subrange(types, t) {
        return in_type(setting, t, Fault::OutOfRange, draft);
    }
    Ok(())
}
