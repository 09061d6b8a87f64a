//! What stands before and behind the statements in other statements.

ghost use Rattle.std.specs.Prelude.{◌≡◌, ◌∷◌, ◌++◌, [], IfOk, OnOk, None};
ghost use Rattle.wasm_tree.specs.declared.instr.Instr.TheVariants.{Br, BrIf};
ghost use Rattle.emit_buffer.specs.Frames.{setting_of};
ghost use Rattle.emit_buffer.specs.Drafts.{one, put, open_draft, place_of, closed_block, closed_loop};
ghost use Rattle.emit_expr.specs.Values.{with_value, with_place};
ghost use Rattle.def_scheme.specs.Cells.{load_code};
ghost use Rattle.def_scheme.specs.Coded.{is_zero, wrap_word, address_local};
ghost use Rattle.def_scheme.specs.Steps.{passes};
ghost use Rattle.emit_stmt.specs.Written.{address_kept, for_local, for_begun, for_tested, for_passed, for_next, for_turned};

use crate::simple::{keep_address, keep_number};
use emit_buffer::{
    Amount, Draft, Setting, in_type, is_zero, load, number, operation, relation, store, wrap_word,
};
use emit_expr::{place_code, taken_code, value_code};
use m2_rule::Fault;
use std::alloc::AllocError;
use typed_tree::{Place, TypeNo, TypedExpr};
use wasm_tree::{Op, Operation, Relation};

/// A block with a loop in it, by their places.
#[derive(Clone, Copy, PartialEq, Eq)]
pub struct Turns {
    pub block: usize,
    pub turn: usize,
}

/// Begins a loop in a block.
pub fn open_turns(draft: &mut Draft) -> Result<Turns, AllocError>
    ensures block { IfOk result (λ x. x.block ≡ place_of draft.old) }
    ensures turn { IfOk result (λ x. x.turn ≡ place_of (open_draft draft.old)) }
    ensures opened { OnOk result (draft.new ≡ open_draft (open_draft draft.old)) }
{
    let block = draft.open()?;
    let turn = draft.open()?;
    Ok(Turns { block, turn })
}

/// Ends a loop in a block, both by their places.
fn close_turns(turns: Turns, draft: &mut Draft)
    ensures { let inner = closed_loop turns.turn None draft.old in
        draft.new ≡ closed_block turns.block None inner }
{
    draft.close_loop(turns.turn, None);
    draft.close_block(turns.block, None);
}

/// Begins the loop again, and ends both.
pub fn turn_again(turns: Turns, draft: &mut Draft) -> Result<(), AllocError>
    ensures { let inner = closed_loop turns.turn None (one (Br 0) draft.old) in
        OnOk result (draft.new ≡ closed_block turns.block None inner) }
{
    draft.push(Op::Br(0))?;
    close_turns(turns, draft);
    Ok(())
}

/// The condition of a loop: if it does not hold, the block of this label is left.
pub fn unless(
    setting: &Setting<'_>,
    e: &TypedExpr,
    label: usize,
    draft: &mut Draft,
) -> Result<(), AllocError>
    ensures { let value = with_value (setting_of setting.now) e.now draft.old in
        OnOk result (draft.new ≡ one (BrIf label) (one is_zero value)) }
{
    value_code(setting, e, draft)?;
    is_zero(draft)?;
    draft.branch_if(&Amount::of(label))
}

/// The condition of an IF.
pub fn condition(setting: &Setting<'_>, e: &TypedExpr, draft: &mut Draft) -> Result<(), AllocError>
    ensures { let value = with_value (setting_of setting.now) e.now draft.old in
        OnOk result (draft.new ≡ one wrap_word value) }
{
    value_code(setting, e, draft)?;
    wrap_word(draft)
}

/// The record of a WITH, kept in a local.
pub fn record_kept(
    setting: &Setting<'_>,
    place: &Place,
    draft: &mut Draft,
) -> Result<Amount, AllocError>
    ensures local { let d = with_place (setting_of setting.now) place.now draft.old in
        IfOk result (λ w. w ≡ address_local (setting_of setting.now) d.counts.addresses) }
    ensures kept { let d = with_place (setting_of setting.now) place.now draft.old in
        OnOk result (draft.new ≡ address_kept (setting_of setting.now) d) }
{
    place_code(setting, place, draft)?;
    keep_address(setting, draft)
}

fn passes(by: i64) -> Relation
    ensures { result ≡ passes by }
{
    if by < 0 { Relation::LtS } else { Relation::GtS }
}

/// What a variable holds.
fn variable_value(
    setting: &Setting<'_>,
    place: &Place,
    t: TypeNo,
    draft: &mut Draft,
) -> Result<(), AllocError>
    ensures { let d = with_place (setting_of setting.now) place.now draft.old in
        OnOk result (draft.new ≡ put (load_code setting.now.home.types t) d) }
{
    place_code(setting, place, draft)?;
    load(setting, t, draft)
}

/// Stores the start of a FOR, and answers the local that keeps its limit.
pub fn for_begun(
    setting: &Setting<'_>,
    place: &Place,
    t: TypeNo,
    start: &TypedExpr,
    limit: &TypedExpr,
    draft: &mut Draft,
) -> Result<Amount, AllocError>
    ensures local { let s = setting_of setting.now in
        IfOk result (λ n. n ≡ for_local s place.now t start.now limit.now draft.old) }
    ensures begun { let s = setting_of setting.now in
        OnOk result (draft.new ≡ for_begun s place.now t start.now limit.now draft.old) }
{
    place_code(setting, place, draft)?;
    taken_code(setting, t, start, draft)?;
    value_code(setting, limit, draft)?;
    let n = keep_number(setting, draft)?;
    store(setting, t, draft)?;
    Ok(n)
}

/// The test before the first turn of a FOR.
fn for_tested(
    setting: &Setting<'_>,
    place: &Place,
    t: TypeNo,
    by: i64,
    n: &Amount,
    draft: &mut Draft,
) -> Result<(), AllocError>
    ensures { let s = setting_of setting.now in
        OnOk result (draft.new ≡ for_tested s place.now t by n.now draft.old) }
{
    variable_value(setting, place, t, draft)?;
    draft.local_get(n)?;
    relation(passes(by), draft)?;
    draft.push(Op::BrIf(0))
}

/// The test behind a turn of a FOR.
fn for_passed(
    setting: &Setting<'_>,
    place: &Place,
    t: TypeNo,
    by: i64,
    n: &Amount,
    draft: &mut Draft,
) -> Result<(), AllocError>
    ensures { let s = setting_of setting.now in
        OnOk result (draft.new ≡ for_passed s place.now t by n.now draft.old) }
{
    variable_value(setting, place, t, draft)?;
    number(by, draft)?;
    operation(Operation::Add, draft)?;
    draft.local_get(n)?;
    relation(passes(by), draft)?;
    draft.push(Op::BrIf(1))
}

/// The next turn of a FOR.
#[tactic(auto, using(emit_buffer::proofs::Emitted::put_append))]
fn for_next(
    setting: &Setting<'_>,
    place: &Place,
    t: TypeNo,
    by: i64,
    draft: &mut Draft,
) -> Result<(), AllocError>
    ensures { let s = setting_of setting.now in
        OnOk result (draft.new ≡ for_next s place.now t by draft.old) }
{
    place_code(setting, place, draft)?;
    variable_value(setting, place, t, draft)?;
    number(by, draft)?;
    operation(Operation::Add, draft)?;
    in_type(setting, t, Fault::OutOfRange, draft)?;
    store(setting, t, draft)?;
    draft.push(Op::Br(0))
}

/// Begins the block and the loop of a FOR, with the test before the first turn between the two.
pub fn for_opened(
    setting: &Setting<'_>,
    place: &Place,
    t: TypeNo,
    by: i64,
    n: &Amount,
    draft: &mut Draft,
) -> Result<Turns, AllocError>
    ensures block { IfOk result (λ x. x.block ≡ place_of draft.old) }
    ensures turn { let s = setting_of setting.now in
        let tested = for_tested s place.now t by n.now (open_draft draft.old) in
        IfOk result (λ x. x.turn ≡ place_of tested) }
    ensures begun { let s = setting_of setting.now in
        OnOk result
        (draft.new ≡ open_draft (for_tested s place.now t by n.now (open_draft draft.old))) }
{
    let block = draft.open()?;
    for_tested(setting, place, t, by, n, draft)?;
    let turn = draft.open()?;
    Ok(Turns { block, turn })
}

/// Ends the turns of a FOR.
pub fn for_ended(
    setting: &Setting<'_>,
    place: &Place,
    t: TypeNo,
    by: i64,
    n: &Amount,
    turns: Turns,
    draft: &mut Draft,
) -> Result<(), AllocError>
    ensures { let s = setting_of setting.now in
        let inner = closed_loop turns.turn None (for_turned s place.now t by n.now draft.old) in
        OnOk result (draft.new ≡ closed_block turns.block None inner) }
{
    for_passed(setting, place, t, by, n, draft)?;
    for_next(setting, place, t, by, draft)?;
    close_turns(turns, draft);
    Ok(())
}
