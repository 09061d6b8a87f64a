//! Calls, and what is passed to them.

ghost use Rattle.std.specs.Prelude.{◌≡◌, ◌+◌, IfOk, OnOk, pos};
ghost use Rattle.wasm_tree.specs.declared.instr.Instr.TheVariants.{LocalGet as get_local};
ghost use Rattle.def_meaning.specs.Answer.{empty_procedure};
ghost use Rattle.def_scheme.specs.Coded.{top_local, number_local, check_code};
ghost use Rattle.def_scheme.specs.Exprs.{slots_global, procedure_code, indirect, module_call};
ghost use Rattle.def_scheme.specs.Modules.{numbering_of};
ghost use Rattle.emit_buffer.specs.Drafts.{one, put};
ghost use Rattle.emit_buffer.specs.Frames.{setting_of};
ghost use Rattle.emit_expr.specs.Called.{nested_called, other_call, link_passed, kept_procedure, called_value, array_behind, open_code, with_passed};

use crate::places::{frame_code, high_code, index_of, open_address, twice};
use emit_buffer::{
    Amount, Draft, Home, Setting, check_code, extend_word, operation, raise_far, text, wrap_word,
};
use emit_tables::{arguments_in, has_result, is_own};
use m2_rule::Fault;
use std::alloc::AllocError;
use typed_tree::{LocalProcedure, Procedure, Slot, TypeNo};
use wasm_tree::Operation;

/// The global with the first slot of the module itself, and that of the first module that it imports.
const OWN_SLOTS: usize = 3;

const OTHER_SLOTS: usize = 5;

/// The index of the first function behind the body.
const FIRST_PROCEDURE: usize = 8;

/// The global with the first slot of a module.
fn slots_global(home: &Home<'_>, number: u32) -> Amount
    ensures { result ≡ slots_global home.now number }
{
    if is_own(home.module_body(), number) {
        return Amount::of(OWN_SLOTS);
    }
    twice(OTHER_SLOTS, home.place(number))
}

/// The function of this number behind the body.
fn behind_body(number: usize) -> Amount
    ensures { result ≡ 8 + number }
{
    Amount::of(FIRST_PROCEDURE).plus(&Amount::of(number))
}

/// A procedure as a value.
pub fn procedure_code(
    setting: &Setting<'_>,
    f: Procedure,
    draft: &mut Draft,
) -> Result<(), AllocError>
    ensures { OnOk result (draft.new ≡ put (procedure_code setting.now.home f) draft.old) }
{
    draft.global_get(&slots_global(setting.home(), f.home))?;
    extend_word(draft)?;
    draft.next_long(f.number)?;
    operation(Operation::Add, draft)
}

/// The top of the stack, where the frame of the procedure that is called begins.
pub fn top_code(setting: &Setting<'_>, draft: &mut Draft) -> Result<(), AllocError>
    ensures { OnOk result
        (draft.new ≡ one (get_local (top_local (setting_of setting.now))) draft.old) }
{
    draft.local_get(setting.arguments())
}

/// A call through the table, of a procedure of this heading.
fn indirect(setting: &Setting<'_>, heading: TypeNo, draft: &mut Draft) -> Result<(), AllocError>
    ensures { let m = setting.now.home in
        OnOk result (draft.new ≡ one (indirect (numbering_of m) m.types heading) draft.old) }
{
    let home = setting.home();
    let types = &home.module_body().types;
    let arguments = arguments_in(types, heading);
    let number = home.number(arguments, has_result(types, heading));
    draft.call_indirect(&Amount::of(number))
}

/// A call of a procedure of another module.
#[tactic(auto, using(emit_buffer::proofs::Emitted::put_append))]
fn other_call(setting: &Setting<'_>, f: Procedure, draft: &mut Draft) -> Result<(), AllocError>
    ensures { OnOk result (draft.new ≡ put (other_call setting.now.home f) draft.old) }
{
    draft.global_get(&slots_global(setting.home(), f.home))?;
    raise_far(&Amount::of(f.number).next(), draft)?;
    indirect(setting, f.heading, draft)
}

/// A call of a procedure of a module.
pub fn module_call(setting: &Setting<'_>, f: Procedure, draft: &mut Draft) -> Result<(), AllocError>
    ensures { let m = setting.now.home in
        OnOk result (draft.new ≡ put (module_call (numbering_of m) m f) draft.old) }
{
    if is_own(setting.home().module_body(), f.home) {
        return draft.call(&behind_body(f.number));
    }
    other_call(setting, f, draft)
}

/// The link of a procedure that is declared in one this many procedures outwards.
#[tactic(auto, using(emit_buffer::proofs::Emitted::put_append))]
pub fn link_code(up: usize, draft: &mut Draft) -> Result<(), AllocError>
    ensures { OnOk result (draft.new ≡ put (link_passed up) draft.old) }
{
    frame_code(up, draft)?;
    extend_word(draft)
}

/// A call of a procedure that is declared in a procedure.
pub fn nested_call(
    setting: &Setting<'_>,
    f: LocalProcedure,
    draft: &mut Draft,
) -> Result<(), AllocError>
    ensures { OnOk result (draft.new ≡ put (nested_called setting.now.home f) draft.old) }
{
    let before = Amount::of(setting.home().module_body().procedures.len());
    let local = before.plus(&Amount::of(f.number));
    draft.call(&Amount::of(FIRST_PROCEDURE).plus(&local))
}

/// Keeps the procedure that a variable holds.
pub fn keep_procedure(setting: &Setting<'_>, draft: &mut Draft) -> Result<Amount, AllocError>
    ensures local { let k =
        (put (check_code (pos 1) (pos 4294967295) empty_procedure) draft.old).counts.numbers in
        IfOk result (λ t. t ≡ number_local (setting_of setting.now) k) }
    ensures kept { OnOk result (draft.new ≡ kept_procedure (setting_of setting.now) draft.old) }
{
    check_code(1, 4_294_967_295, Fault::NoProcedure, draft)?;
    let t = draft.next_number(setting);
    draft.local_set(&t)?;
    Ok(t)
}

/// A call of the procedure that was kept.
pub fn called_value(
    setting: &Setting<'_>,
    t: &Amount,
    heading: TypeNo,
    draft: &mut Draft,
) -> Result<(), AllocError>
    ensures { OnOk result
        (draft.new ≡ put (called_value setting.now.home t.now heading) draft.old) }
{
    draft.local_get(t)?;
    wrap_word(draft)?;
    indirect(setting, heading, draft)
}

/// An array for a formal ARRAY OF, behind its address.
pub fn array_behind(setting: &Setting<'_>, t: TypeNo, draft: &mut Draft) -> Result<(), AllocError>
    ensures { OnOk result (draft.new ≡ put (array_behind setting.now.home.types t) draft.old) }
{
    let high = match index_of(&setting.home().module_body().types, t) {
        None => 0,
        Some(scalar) => scalar.high.abs_diff(scalar.low),
    };
    extend_word(draft)?;
    draft.long(high)
}

/// An open array for a formal ARRAY OF.
#[tactic(auto, using(emit_buffer::proofs::Emitted::put_append))]
pub fn open_code(setting: &Setting<'_>, slot: Slot, draft: &mut Draft) -> Result<(), AllocError>
    ensures { OnOk result (draft.new ≡ put (open_code (setting_of setting.now) slot) draft.old) }
{
    open_address(setting, slot, draft)?;
    extend_word(draft)?;
    high_code(setting, slot, draft)
}

/// A string for a formal ARRAY OF CHAR: an empty one is one character 0C.
pub fn passed_text(bytes: &[u8], draft: &mut Draft) -> Result<(), AllocError>
    ensures { OnOk result (draft.new ≡ with_passed bytes.now draft.old) }
{
    let count = match bytes {
        [] => 1,
        [_, ..] => bytes.len(),
    };
    let at = draft.next_text(count);
    text(&at, draft)?;
    extend_word(draft)?;
    draft.long(count.saturating_sub(1) as u64)
}
