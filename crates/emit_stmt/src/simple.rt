//! Statements that hold no others.

ghost use Rattle.std.specs.Prelude.{◌≡◌, IfOk, OnOk};
ghost use Rattle.typed_tree.specs.declared.statement.TypedStmt.TheVariants as stmt;
ghost use Rattle.emit_buffer.specs.Frames.{setting_of};
ghost use Rattle.emit_buffer.specs.Drafts.{put};
ghost use Rattle.def_scheme.specs.Coded.{number_local, address_local};
ghost use Rattle.def_scheme.specs.Steps.{read_again, change_instructions, with_member, text_copied};
ghost use Rattle.emit_stmt.specs.Written.{with_step, address_kept, number_kept};

use emit_buffer::{
    Amount, Draft, Helper, Setting, check_changed, check_code, complement, fault, load, operation,
    raise_far, size_in, store, text,
};
use emit_expr::{call_code, place_code, taken_code, value_code};
use m2_rule::Fault;
use std::alloc::AllocError;
use typed_tree::{BITSET, CHAR, Call, Change, Membership, Place, TypeNo, TypedExpr};
use wasm_tree::{Op, Operation};

/// An assignment of a scalar.
#[tactic(auto, using(crate::proofs::Stepped::step_Assign))]
pub fn assign(
    setting: &Setting<'_>,
    place: &Place,
    t: TypeNo,
    e: &TypedExpr,
    draft: &mut Draft,
) -> Result<(), AllocError>
    ensures { OnOk result
        (draft.new ≡ with_step (setting_of setting.now) draft.old (stmt.Assign place.now t e.now)) }
{
    place_code(setting, place, draft)?;
    taken_code(setting, t, e, draft)?;
    store(setting, t, draft)
}

/// An assignment of an array or a record.
#[tactic(auto, using(crate::proofs::Stepped::step_Copy))]
pub fn copy(
    setting: &Setting<'_>,
    to: &Place,
    from: &Place,
    t: TypeNo,
    draft: &mut Draft,
) -> Result<(), AllocError>
    ensures { OnOk result
        (draft.new ≡ with_step (setting_of setting.now) draft.old (stmt.Copy to.now from.now t)) }
{
    place_code(setting, to, draft)?;
    place_code(setting, from, draft)?;
    draft.word(size_in(setting, t))?;
    draft.help(Helper::Copy)
}

/// The call of a procedure.
#[tactic(auto, using(crate::proofs::Stepped::step_Call))]
pub fn call(setting: &Setting<'_>, call: &Call, draft: &mut Draft) -> Result<(), AllocError>
    ensures { OnOk result
        (draft.new ≡ with_step (setting_of setting.now) draft.old (stmt.Call call.now)) }
{
    call_code(setting, call, draft)
}

/// The output of a character.
#[tactic(auto, using(crate::proofs::Stepped::step_Put))]
pub fn print(setting: &Setting<'_>, e: &TypedExpr, draft: &mut Draft) -> Result<(), AllocError>
    ensures { OnOk result
        (draft.new ≡ with_step (setting_of setting.now) draft.old (stmt.Put e.now)) }
{
    taken_code(setting, CHAR, e, draft)?;
    draft.help(Helper::Put)
}

#[tactic(auto, using(crate::proofs::Stepped::step_Halt))]
pub fn halt(setting: &Setting<'_>, draft: &mut Draft) -> Result<(), AllocError>
    ensures { OnOk result (draft.new ≡ with_step (setting_of setting.now) draft.old stmt.Halt) }
{
    fault(Fault::Halt, draft)
}

#[tactic(auto, using(crate::proofs::Stepped::step_Exit))]
pub fn exit(setting: &Setting<'_>, draft: &mut Draft) -> Result<(), AllocError>
    ensures { OnOk result (draft.new ≡ with_step (setting_of setting.now) draft.old stmt.Exit) }
{
    draft.branch(&setting.exit())
}

#[tactic(auto, using(crate::proofs::Stepped::step_Return))]
pub fn leave(setting: &Setting<'_>, draft: &mut Draft) -> Result<(), AllocError>
    ensures { OnOk result (draft.new ≡ with_step (setting_of setting.now) draft.old stmt.Return) }
{
    draft.push(Op::Return)
}

/// The RETURN of a function.
#[tactic(auto, using(crate::proofs::Stepped::step_Give))]
pub fn give(
    setting: &Setting<'_>,
    t: TypeNo,
    e: &TypedExpr,
    draft: &mut Draft,
) -> Result<(), AllocError>
    ensures { OnOk result
        (draft.new ≡ with_step (setting_of setting.now) draft.old (stmt.Give t e.now)) }
{
    taken_code(setting, t, e, draft)?;
    draft.push(Op::Return)
}

/// Keeps an address in a fresh local, and answers which.
pub fn keep_address(setting: &Setting<'_>, draft: &mut Draft) -> Result<Amount, AllocError>
    ensures local { let k = draft.old.counts.addresses in
        IfOk result (λ w. w ≡ address_local (setting_of setting.now) k) }
    ensures kept { OnOk result (draft.new ≡ address_kept (setting_of setting.now) draft.old) }
{
    let w = draft.next_address(setting);
    draft.local_set(&w)?;
    Ok(w)
}

/// Keeps a number in a fresh local, and answers which.
pub fn keep_number(setting: &Setting<'_>, draft: &mut Draft) -> Result<Amount, AllocError>
    ensures local { let k = draft.old.counts.numbers in
        IfOk result (λ n. n ≡ number_local (setting_of setting.now) k) }
    ensures kept { OnOk result (draft.new ≡ number_kept (setting_of setting.now) draft.old) }
{
    let n = draft.next_number(setting);
    draft.local_set(&n)?;
    Ok(n)
}

/// The value at an address that was kept, behind that address.
fn read_again(
    setting: &Setting<'_>,
    w: &Amount,
    t: TypeNo,
    draft: &mut Draft,
) -> Result<(), AllocError>
    ensures { let code = read_again w.now setting.now.home.types t in
        OnOk result (draft.new ≡ put code draft.old) }
{
    draft.local_get(w)?;
    draft.local_get(w)?;
    load(setting, t, draft)
}

/// The result of INC or DEC, checked and stored.
#[tactic(auto, using(emit_buffer::proofs::Emitted::put_append))]
fn change_instructions(
    setting: &Setting<'_>,
    change: Change,
    w: &Amount,
    n: &Amount,
    t: TypeNo,
    draft: &mut Draft,
) -> Result<(), AllocError>
    ensures { let code = change_instructions change w.now n.now setting.now.home.types t in
        OnOk result (draft.new ≡ put code draft.old) }
{
    read_again(setting, w, t, draft)?;
    draft.local_get(n)?;
    match change {
        Change::Increase => operation(Operation::Add, draft)?,
        Change::Decrease => operation(Operation::Sub, draft)?,
    }
    check_changed(setting, t, draft)?;
    store(setting, t, draft)
}

/// INC or DEC.
#[tactic(auto, using(crate::proofs::Stepped::step_Change))]
pub fn change(
    setting: &Setting<'_>,
    change: Change,
    place: &Place,
    t: TypeNo,
    e: &TypedExpr,
    draft: &mut Draft,
) -> Result<(), AllocError>
    ensures { OnOk result (draft.new
        ≡ with_step (setting_of setting.now) draft.old (stmt.Change change place.now t e.now)) }
{
    place_code(setting, place, draft)?;
    let w = keep_address(setting, draft)?;
    value_code(setting, e, draft)?;
    let n = keep_number(setting, draft)?;
    change_instructions(setting, change, &w, &n, t, draft)
}

/// The set with or without the element, stored.
#[tactic(auto, using(emit_buffer::proofs::Emitted::put_append))]
fn with_member(
    setting: &Setting<'_>,
    membership: Membership,
    w: &Amount,
    n: &Amount,
    draft: &mut Draft,
) -> Result<(), AllocError>
    ensures { let code = with_member membership w.now n.now setting.now.home.types in
        OnOk result (draft.new ≡ put code draft.old) }
{
    read_again(setting, w, BITSET, draft)?;
    draft.push(Op::I64Const(1))?;
    draft.local_get(n)?;
    operation(Operation::Shl, draft)?;
    match membership {
        Membership::Include => operation(Operation::Or, draft)?,
        Membership::Exclude => {
            complement(draft)?;
            operation(Operation::And, draft)?;
        }
    }
    store(setting, BITSET, draft)
}

/// INCL or EXCL.
#[tactic(auto, using(crate::proofs::Stepped::step_Membership))]
pub fn membership(
    setting: &Setting<'_>,
    membership: Membership,
    place: &Place,
    e: &TypedExpr,
    draft: &mut Draft,
) -> Result<(), AllocError>
    ensures { OnOk result (draft.new
        ≡ with_step (setting_of setting.now) draft.old
        (stmt.Membership membership place.now e.now)) }
{
    place_code(setting, place, draft)?;
    let w = keep_address(setting, draft)?;
    value_code(setting, e, draft)?;
    check_code(0, 31, Fault::OutOfRange, draft)?;
    let n = keep_number(setting, draft)?;
    with_member(setting, membership, &w, &n, draft)
}

/// The copy of a text to an address that was kept, and zeros up to the end of the array.
#[tactic(auto, using(emit_buffer::proofs::Emitted::put_append))]
fn text_copied(
    at: &Amount,
    bytes: usize,
    rest: usize,
    w: &Amount,
    draft: &mut Draft,
) -> Result<(), AllocError>
    ensures { OnOk result (draft.new ≡ put (text_copied at.now bytes rest w.now) draft.old) }
{
    let count = Amount::of(bytes);
    text(at, draft)?;
    draft.far_word(&count)?;
    draft.help(Helper::Copy)?;
    draft.local_get(w)?;
    raise_far(&count, draft)?;
    draft.far_word(&Amount::of(rest))?;
    draft.help(Helper::Fill)
}

/// An assignment of a string.
#[tactic(auto, using(crate::proofs::Stepped::step_CopyText))]
pub fn copy_text(
    setting: &Setting<'_>,
    place: &Place,
    t: TypeNo,
    characters: &[u8],
    draft: &mut Draft,
) -> Result<(), AllocError>
    ensures { OnOk result (draft.new
        ≡ with_step (setting_of setting.now) draft.old (stmt.CopyText place.now t characters.now)) }
{
    place_code(setting, place, draft)?;
    let w = draft.next_address(setting);
    draft.local_tee(&w)?;
    let bytes = characters.len();
    let at = draft.next_text(bytes);
    let rest = (size_in(setting, t) as usize).saturating_sub(bytes);
    text_copied(&at, bytes, rest, &w, draft)
}
