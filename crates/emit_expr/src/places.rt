//! The addresses of variables and of their components.

ghost use Rattle.std.specs.Prelude.{◌≡◌, ◌+◌, ◌*◌, ◌∷◌, [], OnOk};
ghost use Rattle.std.specs.Option.{option_copied};
ghost use Rattle.layout_storage.specs.Sizes.{size, offset};
ghost use Rattle.layout_storage.specs.Shapes.{tree};
ghost use Rattle.def_scheme.specs.Exprs.{outwards, frame_code, slot_path, slot_code, kept_address, open_address, high_code, global_code, with_code, index_of, scale_index, element_code, open_element_code};
ghost use Rattle.def_scheme.specs.Cells.{load_scalar, word};
ghost use Rattle.emit_buffer.specs.Drafts.{put};
ghost use Rattle.emit_buffer.specs.Frames.{setting_of};
ghost use Rattle.emit_buffer.specs.Slots.{field_code, root_code};

use emit_buffer::{
    Amount, Draft, Helper, Setting, in_range, operation, raise_address, shift_bound, wrap_word,
};
use emit_tables::is_own;
use m2_rule::Fault;
use std::alloc::AllocError;
use typed_tree::{Root, Scalar, Shape, Slot, TypeNo, Types, Variable, made_of, scalar_of};
use wasm_tree::{Load, Numeric, Op, Operation};

/// The global that says where the variables of the module itself begin, and that of the first module that it imports.
const OWN_BASE: usize = 1;

const OTHER_BASE: usize = 4;

/// The number behind this many pairs.
#[tactic(auto, using(crate::proofs::Outwards::twice_is))]
pub fn twice(first: usize, pairs: usize) -> Amount
    ensures { result ≡ first + 2 * pairs }
{
    let n = Amount::of(pairs);
    Amount::of(first).plus(&n.plus(&n))
}

/// A variable of a module.
#[tactic(auto, using(emit_buffer::proofs::Plain::word_again))]
pub fn global_code(setting: &Setting<'_>, v: Variable, draft: &mut Draft) -> Result<(), AllocError>
    ensures { OnOk result (draft.new ≡ put (global_code setting.now.home v) draft.old) }
{
    let home = setting.home();
    let global = if is_own(home.module_body(), v.home) {
        Amount::of(OWN_BASE)
    } else {
        twice(OTHER_BASE, home.place(v.home))
    };
    draft.global_get(&global)?;
    raise_address(home.variable_offset(v), draft)
}

/// This many frames outwards.
#[tactic(auto, using(crate::proofs::Outwards::outwards_more))]
fn outwards(up: usize, draft: &mut Draft) -> Result<(), AllocError>
    ensures { OnOk result (draft.new ≡ put (outwards up) draft.old) }
{
    for _k in 0..up {
        draft.push(Op::Load(Load::I64))?;
        wrap_word(draft)?;
    }
    Ok(())
}

/// The frame `up` procedures outwards.
pub fn frame_code(up: usize, draft: &mut Draft) -> Result<(), AllocError>
    ensures { OnOk result (draft.new ≡ put (frame_code up) draft.old) }
{
    draft.push(Op::LocalGet(0))?;
    outwards(up, draft)
}

/// A formal or a variable of a procedure.
#[tactic(auto, using(emit_buffer::proofs::Emitted::put_append, emit_buffer::proofs::Plain::word_again))]
pub fn slot_code(setting: &Setting<'_>, slot: Slot, draft: &mut Draft) -> Result<(), AllocError>
    ensures { OnOk result (draft.new ≡ put (slot_code (setting_of setting.now) slot []) draft.old) }
{
    frame_code(slot.up, draft)?;
    raise_address(setting.slot_offset(slot), draft)
}

fn word(draft: &mut Draft) -> Result<(), AllocError>
    ensures { OnOk result (draft.new ≡ put (load_scalar word) draft.old) }
{
    draft.push(Op::Load(Load::I64From32U))
}

/// What a VAR formal stands for.
#[tactic(auto, using(emit_buffer::proofs::Emitted::put_append))]
pub fn alias_code(setting: &Setting<'_>, slot: Slot, draft: &mut Draft) -> Result<(), AllocError>
    ensures { OnOk result
        (draft.new ≡ put (kept_address (setting_of setting.now) slot []) draft.old) }
{
    slot_code(setting, slot, draft)?;
    word(draft)?;
    wrap_word(draft)
}

/// The elements of a formal ARRAY OF.
#[tactic(auto, using(emit_buffer::proofs::Slots::first_cell))]
pub fn open_address(setting: &Setting<'_>, slot: Slot, draft: &mut Draft) -> Result<(), AllocError>
    ensures { OnOk result (draft.new ≡ put (open_address (setting_of setting.now) slot) draft.old) }
{
    alias_code(setting, slot, draft)
}

/// The greatest index of a formal ARRAY OF.
#[tactic(auto, using(emit_buffer::proofs::Emitted::put_append, emit_buffer::proofs::Plain::word_again))]
pub fn high_code(setting: &Setting<'_>, slot: Slot, draft: &mut Draft) -> Result<(), AllocError>
    ensures { OnOk result (draft.new ≡ put (high_code (setting_of setting.now) slot) draft.old) }
{
    frame_code(slot.up, draft)?;
    raise_address(setting.high_offset(slot), draft)?;
    word(draft)
}

/// The record of a WITH.
pub fn with_code(local: Option<&Amount>, draft: &mut Draft) -> Result<(), AllocError>
    ensures { OnOk result (draft.new ≡ put (with_code (option_copied local.entry)) draft.old) }
{
    match local {
        None => Ok(()),
        Some(local) => draft.local_get(local),
    }
}

/// The index of an array type.
pub fn index_of(types: &Types, t: TypeNo) -> Option<Scalar>
    ensures { result ≡ index_of types.now t }
{
    match made_of(types, t) {
        None => None,
        Some(made) => match &made.shape {
            Shape::Array(index, _) => scalar_of(types, *index),
            _ => None,
        },
    }
}

/// An element of this many bytes, behind the address of the array and the index from 0.
fn scale_index(bytes: u32, draft: &mut Draft) -> Result<(), AllocError>
    ensures { OnOk result (draft.new ≡ put (scale_index bytes) draft.old) }
{
    draft.long(u64::from(bytes))?;
    operation(Operation::Mul, draft)?;
    wrap_word(draft)?;
    draft.push(Op::Numeric(Numeric::I32Add))
}

/// An element of an array, behind its address and the index.
#[tactic(auto, using(emit_buffer::proofs::Emitted::put_append, emit_buffer::proofs::Slots::element_is))]
pub fn element_code(setting: &Setting<'_>, t: TypeNo, draft: &mut Draft) -> Result<(), AllocError>
    ensures { OnOk result (draft.new ≡ put (element_code setting.now.home.types t) draft.old) }
{
    let home = setting.home();
    let index = index_of(&home.module_body().types, t);
    let bytes = home.element_size(t);
    in_range(index, Fault::Index, draft)?;
    if let Some(scalar) = index {
        shift_bound(scalar.low, Operation::Sub, draft)?;
    }
    scale_index(bytes, draft)
}

/// An element of a formal ARRAY OF, behind its address and the index.
#[tactic(auto, using(emit_buffer::proofs::Emitted::put_append))]
pub fn open_element_code(
    setting: &Setting<'_>,
    slot: Slot,
    t: TypeNo,
    draft: &mut Draft,
) -> Result<(), AllocError>
    ensures { OnOk result
        (draft.new ≡ put (open_element_code (setting_of setting.now) slot t) draft.old) }
{
    let bytes = setting.home().size(t);
    draft.push(Op::I64Const(0))?;
    high_code(setting, slot, draft)?;
    draft.long(u64::from(Fault::Index.number()))?;
    draft.help(Helper::Check)?;
    scale_index(bytes, draft)
}

/// A field, behind the address of the record.
#[tactic(auto, using(emit_buffer::proofs::Plain::word_again))]
pub fn field_code(
    setting: &Setting<'_>,
    t: TypeNo,
    number: usize,
    draft: &mut Draft,
) -> Result<(), AllocError>
    ensures { OnOk result (draft.new ≡ put (field_code setting.now.home.types t number) draft.old) }
{
    raise_address(setting.home().offset(t, number), draft)
}

/// What a variable's name stands for.
pub fn root_code(setting: &Setting<'_>, root: Root, draft: &mut Draft) -> Result<(), AllocError>
    ensures { OnOk result (draft.new ≡ put (root_code (setting_of setting.now) root) draft.old) }
{
    match root {
        Root::Global(v) => global_code(setting, v, draft),
        Root::Local(slot) => slot_code(setting, slot, draft),
        Root::Alias(slot) => alias_code(setting, slot, draft),
        Root::Open(slot) => open_address(setting, slot, draft),
        Root::With(k) => with_code(setting.withs().get(k), draft),
    }
}
