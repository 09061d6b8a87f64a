//! When the arms of a CASE are chosen by a table, and which table.

ghost use Rattle.std.specs.Prelude.{◌≡◌, ◌+◌, ◌+ℤ◌, ◌&&◌, int_le, pos, None, true, false, nat_le, suc, IfOk, MatchOption, length};
ghost use Rattle.std.specs.List.{fold};
ghost use Rattle.def_scheme.specs.Steps.{lesser, greater, values_of, is_dense, least_of, span_of};
ghost use Rattle.emit_stmt.specs.Plans.{few, with_label, gap_of, plan_by};
ghost use Rattle.emit_stmt.specs.Written.{has_value, labels_in, target_in, targets_in};

use std::alloc::{AllocError, Global};
use typed_tree::{Label, TypedArm};

/// Up to here values are counted.
const MAX_COUNTED: u64 = 4096;

/// A table has at most this many arms.
const MAX_ARMS: usize = 16;

/// A table has at least this many values.
const LEAST_VALUES: u32 = 4;

/// A table has at most this many places.
const MAX_SPAN: u64 = 1024;

/// A table has at most this many places for a value.
const MAX_SPREAD: u64 = 4;

/// The least and the greatest value of labels, and how many values they have, up to `MAX_COUNTED`.
#[derive(Clone, Copy, PartialEq, Eq)]
pub struct Bounds {
    pub least: i64,
    pub greatest: i64,
    pub values: u32,
}

/// The least value of the labels of a CASE, and how many values there are up to the greatest.
#[derive(Clone, Copy, PartialEq, Eq)]
pub struct Plan {
    pub least: i64,
    pub span: usize,
}

/// This many of something, or `MAX_COUNTED` if they are more.
fn few(n: u64) -> u32
    ensures { result ≡ few n }
{
    n.min(MAX_COUNTED) as u32
}

/// How many values a label has, or `MAX_COUNTED`.
fn values_of(label: Label) -> u32
    ensures { result ≡ few (values_of label) }
{
    few(label.high.abs_diff(label.low).min(MAX_COUNTED - 1) + 1)
}

fn lesser(x: i64, y: i64) -> i64
    ensures { result ≡ lesser x y }
{
    if x <= y { x } else { y }
}

fn greater(x: i64, y: i64) -> i64
    ensures { result ≡ greater x y }
{
    if x <= y { y } else { x }
}

/// The bounds of one label more.
fn with_label(before: Option<Bounds>, label: Label) -> Option<Bounds>
    ensures { result ≡ with_label before label }
{
    match before {
        None => Some(Bounds {
            least: label.low,
            greatest: label.high,
            values: values_of(label),
        }),
        Some(bounds) => Some(Bounds {
            least: lesser(bounds.least, label.low),
            greatest: greater(bounds.greatest, label.high),
            values: few(u64::from(bounds.values) + u64::from(values_of(label))),
        }),
    }
}

/// The bounds of more labels.
fn with_labels(before: Option<Bounds>, labels: &[Label]) -> Option<Bounds>
    ensures { result ≡ fold with_label before labels.now }
{
    let mut bounds = before;
    for label in labels {
        bounds = with_label(bounds, *label);
    }
    bounds
}

/// The bounds of the labels of a CASE.
fn bounds_of(arms: &[TypedArm]) -> Option<Bounds>
    ensures { result ≡ fold with_label None (labels_in arms.now) }
{
    let mut bounds = None;
    for arm in arms {
        bounds = with_labels(bounds, arm.labels.as_slice());
    }
    bounds
}

/// The plan for `count` arms with these bounds, if the arms are few and the values dense.
fn plan_by(count: usize, bounds: Option<Bounds>) -> Option<Plan>
    ensures { result ≡ plan_by count bounds }
{
    match bounds {
        None => None,
        Some(bounds) => {
            let gap = bounds.greatest.abs_diff(bounds.least);
            let values = bounds.values;
            if count <= MAX_ARMS
                && values >= LEAST_VALUES
                && gap < MAX_SPAN
                && gap < MAX_SPREAD * u64::from(values)
            {
                return Some(Plan {
                    least: bounds.least,
                    span: gap.min(MAX_SPAN - 1) as usize + 1,
                });
            }
            None
        }
    }
}

/// The plan of a table for a CASE, if its labels are dense.
#[tactic(auto, using(crate::proofs::Planned::plan_is))]
pub fn plan_of(arms: &[TypedArm]) -> Option<Plan>
    ensures { let labels = labels_in arms.now in
        MatchOption result (is_dense (length arms.now) labels ≡ false) (λ p.
        (is_dense (length arms.now) labels ≡ true) × (p.least ≡ least_of labels)
        × (p.span ≡ span_of labels)) }
{
    plan_by(arms.len(), bounds_of(arms))
}

/// Whether a value is one of a label.
fn holds(label: Label, value: i128) -> bool
    ensures { result ≡ (int_le label.low value && int_le value label.high) }
{
    i128::from(label.low) <= value && value <= i128::from(label.high)
}

/// Whether a value is one of an arm.
#[tactic(auto, unfolding(crate::specs::Written::has_value))]
fn has_value(arm: &TypedArm, value: i128) -> bool
    ensures { result ≡ has_value value arm.now }
{
    for label in arm.labels.as_slice() {
        if holds(*label, value) {
            return true;
        }
    }
    false
}

/// The number of the arm for a value, or how many arms there are.
fn target_of(arms: &[TypedArm], value: i128) -> usize
    ensures { result ≡ target_in arms.now value }
{
    let mut number = 0;
    for arm in arms {
        if has_value(arm, value) {
            return number;
        }
        number += 1;
    }
    number
}

/// The number of the arm for the value this far from the least.
fn target_from(arms: &[TypedArm], least: i64, distance: usize) -> usize
    ensures { result ≡ target_in arms.now (least +ℤ pos distance) }
{
    target_of(arms, i128::from(least) + distance as i128)
}

/// The numbers of the arms for the values from the least on.
#[tactic(auto, using(crate::proofs::Planned::targets_more))]
pub fn targets(alloc: Global, arms: &[TypedArm], plan: Plan) -> Result<Vec<usize>, AllocError>
    ensures { IfOk result (λ ts. ts.items ≡ targets_in arms.now plan.least plan.span) }
{
    let mut targets = Vec::new(alloc);
    for distance in 0..plan.span {
        targets.push(target_from(arms, plan.least, distance))?;
    }
    Ok(targets)
}
