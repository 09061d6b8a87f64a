//! The arms of a CASE.

ghost use Rattle.std.specs.Prelude.{◌≡◌, ◌+◌, ◌-ℤ◌, ◌∷◌, ◌++◌, [], None, IfOk, OnOk, map};
ghost use Rattle.std.specs.Int.{w64, cast_unsigned};
ghost use Rattle.std.specs.List.{flat_map};
ghost use Rattle.wasm_tree.specs.declared.code.Op.TheVariants as op;
ghost use Rattle.wasm_tree.specs.declared.instr.Instr.TheVariants.{Br, BrTable};
ghost use Rattle.emit_buffer.specs.Cut.{cut};
ghost use Rattle.emit_buffer.specs.Frames.{setting_of};
ghost use Rattle.emit_buffer.specs.Drafts.{one, put, with_ops, open_draft, place_of, closed_block};
ghost use Rattle.def_scheme.specs.Steps.{label_code, tests_code, from_least};
ghost use Rattle.emit_stmt.specs.Written.{keep_selector, selected_local, arm_begun, labels_in, targets_in, dispatch_to, opened_times, table_begun};

use crate::control::open_turns;
use crate::plan::{Plan, targets};
use crate::simple::keep_number;
use emit_buffer::{Amount, Draft, Setting, cut, number, operation, relation, wrap_word};
use emit_expr::value_code;
use std::alloc::{AllocError, Global};
use typed_tree::{Label, TypedArm, TypedExpr};
use wasm_tree::{Op, Operation, Relation};

/// The selector of a CASE, kept in a local.
pub fn keep_selector(
    setting: &Setting<'_>,
    e: &TypedExpr,
    draft: &mut Draft,
) -> Result<Amount, AllocError>
    ensures local { let s = setting_of setting.now in
        IfOk result (λ t. t ≡ selected_local s e.now draft.old) }
    ensures kept { let s = setting_of setting.now in
        OnOk result (draft.new ≡ keep_selector s e.now draft.old) }
{
    value_code(setting, e, draft)?;
    keep_number(setting, draft)
}

/// How far the greatest value of a label is from the least, in 64 bits.
#[tactic(auto, using(crate::proofs::Planned::width_up, crate::proofs::Planned::width_down))]
fn width_of(label: Label) -> u64
    ensures { result ≡ cast_unsigned w64 (label.high -ℤ label.low) }
{
    let width = label.high.abs_diff(label.low);
    if label.low <= label.high {
        width
    } else {
        u64::MAX - width + 1
    }
}

/// Leaves a block if the selector is one of the values of a label.
fn label_code(t: &Amount, label: Label, draft: &mut Draft) -> Result<(), AllocError>
    ensures { OnOk result (draft.new ≡ put (label_code t.now label) draft.old) }
{
    draft.local_get(t)?;
    number(label.low, draft)?;
    operation(Operation::Sub, draft)?;
    draft.long(width_of(label))?;
    relation(Relation::LeU, draft)?;
    draft.push(Op::BrIf(0))
}

/// Leaves a block if the selector is a value of the labels of an arm.
#[tactic(auto, using(emit_buffer::proofs::Emitted::put_append))]
fn labels_code(t: &Amount, labels: &[Label], draft: &mut Draft) -> Result<(), AllocError>
    ensures { OnOk result (draft.new ≡ put (flat_map (label_code t.now) labels.now) draft.old) }
{
    for label in labels {
        label_code(t, *label, draft)?;
    }
    Ok(())
}

/// Leaves a block if the selector is a value of the labels of an arm, and else goes to the next arm.
#[tactic(auto, using(emit_buffer::proofs::Emitted::put_append))]
fn tests_code(t: &Amount, labels: &[Label], draft: &mut Draft) -> Result<(), AllocError>
    ensures { OnOk result (draft.new ≡ put (tests_code t.now labels.now) draft.old) }
{
    labels_code(t, labels, draft)?;
    draft.push(Op::Br(1))
}

/// Begins an arm with its tests, and answers its place.
pub fn arm_begun(t: &Amount, arm: &TypedArm, draft: &mut Draft) -> Result<usize, AllocError>
    ensures place { IfOk result (λ at. at ≡ place_of draft.old) }
    ensures begun { OnOk result (draft.new ≡ arm_begun t.now draft.old arm.now) }
{
    let place = draft.open()?;
    let tests = draft.open()?;
    tests_code(t, arm.labels.as_slice(), draft)?;
    draft.close_block(tests, None);
    Ok(place)
}

/// Ends an arm.
pub fn arm_ended(place: usize, draft: &mut Draft) -> Result<(), AllocError>
    ensures { OnOk result (draft.new ≡ closed_block place None (put (Br 1 ∷ []) draft.old)) }
{
    draft.push(Op::Br(1))?;
    draft.close_block(place, None);
    Ok(())
}

/// Ends the block behind which an arm stands, with `left` arms behind it.
#[tactic(auto, using(emit_buffer::proofs::Closed::closed_beyond))]
pub fn jump_begun(place: usize, left: usize, draft: &mut Draft)
    ensures { draft.new ≡ closed_block (place + left) None draft.old }
{
    if left < draft.place().saturating_sub(place) {
        draft.close_block(place + left, None);
    }
}

/// The selector less the least value.
fn from_least(t: &Amount, least: i64, draft: &mut Draft) -> Result<(), AllocError>
    ensures { OnOk result (draft.new ≡ put (from_least t.now least) draft.old) }
{
    draft.local_get(t)?;
    number(least, draft)?;
    operation(Operation::Sub, draft)
}

fn branches(targets: &[usize], draft: &mut Draft) -> Result<(), AllocError>
    ensures { OnOk result (draft.new ≡ with_ops (map (λ l. op.Br (cut l)) targets.now) draft.old) }
{
    for target in targets {
        draft.push_op(Op::Br(cut(*target)))?;
    }
    Ok(())
}

/// A branch by a table.
#[tactic(auto, using(crate::proofs::Cased::table_flat))]
fn table_code(targets: &[usize], last: usize, draft: &mut Draft) -> Result<(), AllocError>
    ensures { OnOk result (draft.new ≡ one (BrTable targets.now last) draft.old) }
{
    draft.push_op(Op::BrTable(cut(targets.len()), cut(last)))?;
    branches(targets, draft)
}

/// Branches to the arm of the selector, and to what is done else if it is beyond the greatest value.
#[tactic(auto, using(emit_buffer::proofs::Emitted::put_append))]
fn dispatch(
    t: &Amount,
    plan: Plan,
    targets: &[usize],
    last: usize,
    draft: &mut Draft,
) -> Result<(), AllocError>
    ensures { OnOk result
        (draft.new ≡ put (dispatch_to t.now plan.least plan.span targets.now last) draft.old) }
{
    from_least(t, plan.least, draft)?;
    draft.long(plan.span.saturating_sub(1) as u64)?;
    relation(Relation::GtU, draft)?;
    draft.branch_if(&Amount::of(last))?;
    from_least(t, plan.least, draft)?;
    wrap_word(draft)?;
    table_code(targets, last, draft)
}

/// The places where blocks of a table begin: that behind which stands what is done else, and the first of the arms.
#[derive(Clone, Copy, PartialEq, Eq)]
pub struct Begun {
    pub rest: usize,
    pub first: usize,
}

/// Begins the blocks of a table: one for the whole, one for what is done else, and one for each arm.
fn blocks_begun(count: usize, draft: &mut Draft) -> Result<Begun, AllocError>
    ensures rest { IfOk result (λ x. x.rest ≡ place_of (open_draft draft.old)) }
    ensures first { IfOk result (λ x. x.first ≡ place_of (open_draft (open_draft draft.old))) }
    ensures begun { OnOk result
        (draft.new ≡ opened_times count (open_draft (open_draft draft.old))) }
{
    let rest = open_turns(draft)?.turn;
    let first = draft.place();
    for _number in 0..count {
        draft.open()?;
    }
    Ok(Begun { rest, first })
}

/// Begins a CASE by a table, up to its first arm.
pub fn table_begun(
    alloc: Global,
    t: &Amount,
    arms: &[TypedArm],
    plan: Plan,
    draft: &mut Draft,
) -> Result<Begun, AllocError>
    ensures rest { IfOk result (λ x. x.rest ≡ place_of (open_draft draft.old)) }
    ensures first { IfOk result (λ x. x.first ≡ place_of (open_draft (open_draft draft.old))) }
    ensures begun { OnOk result
        (draft.new ≡ table_begun t.now plan.least plan.span arms.now draft.old) }
{
    let targets = targets(alloc, arms, plan)?;
    let begun = blocks_begun(arms.len(), draft)?;
    dispatch(t, plan, targets.as_slice(), arms.len(), draft)?;
    Ok(begun)
}
