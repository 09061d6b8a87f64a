//! Operators.

ghost use Rattle.std.specs.Prelude.{◌≡◌, ◌∷◌, [], IfOk, OnOk, pos};
ghost use Rattle.def_meaning.specs.Answer.{range_fault};
ghost use Rattle.def_scheme.specs.Coded.{number_local, operation, relation, extend_word, check_code};
ghost use Rattle.def_scheme.specs.Cells.{in_type};
ghost use Rattle.def_scheme.specs.Exprs.{relation_of, arithmetic_code, set_code, empty_code, ord_check};
ghost use Rattle.emit_buffer.specs.Drafts.{one, put, place_of};
ghost use Rattle.emit_buffer.specs.Frames.{setting_of};
ghost use Rattle.emit_expr.specs.Operators.{ending_and, begun_or, kept_element, element_bit, negated_behind, around_behind, within_behind, odd_code, char_check, before_sign, negative_or_same, with_absolute, before_letter, lifted_or_same, with_capital};

use emit_buffer::{
    Amount, Draft, Helper, Setting, base_of, check_code, complement, extend_word, in_type, is_zero,
    operation, relation,
};
use m2_rule::Fault;
use std::alloc::AllocError;
use typed_tree::{Arithmetic, Comparison, INTEGER, SetOperator, TypeNo, are_same};
use wasm_tree::{Op, Operation, Relation, ValueType};

/// How two numbers compare.
pub fn comparison_code(comparison: Comparison, draft: &mut Draft) -> Result<(), AllocError>
    ensures { let code = relation (relation_of comparison) ∷ extend_word ∷ [] in
        OnOk result (draft.new ≡ put code draft.old) }
{
    let compared = match comparison {
        Comparison::Equal => Relation::Eq,
        Comparison::Unequal => Relation::Ne,
        Comparison::Less => Relation::LtS,
        Comparison::AtMost => Relation::LeS,
        Comparison::Greater => Relation::GtS,
        Comparison::AtLeast => Relation::GeS,
    };
    relation(compared, draft)?;
    extend_word(draft)
}

/// An operation whose result is one of this type.
fn result_code(
    setting: &Setting<'_>,
    o: Operation,
    t: TypeNo,
    draft: &mut Draft,
) -> Result<(), AllocError>
    ensures { let code = operation o ∷ in_type setting.now.home.types t 2 in
        OnOk result (draft.new ≡ put code draft.old) }
{
    operation(o, draft)?;
    in_type(setting, t, Fault::Overflow, draft)
}

/// An operator on two numbers.
pub fn arithmetic(
    setting: &Setting<'_>,
    o: Arithmetic,
    t: TypeNo,
    draft: &mut Draft,
) -> Result<(), AllocError>
    ensures { let code = arithmetic_code setting.now.home.types o t in
        OnOk result (draft.new ≡ put code draft.old) }
{
    match o {
        Arithmetic::Add => result_code(setting, Operation::Add, t, draft),
        Arithmetic::Subtract => result_code(setting, Operation::Sub, t, draft),
        Arithmetic::Multiply => result_code(setting, Operation::Mul, t, draft),
        Arithmetic::Divide => draft.help(Helper::Quotient),
        Arithmetic::Remainder => draft.help(Helper::Remainder),
    }
}

/// An operator on two sets.
pub fn set_operation(o: SetOperator, draft: &mut Draft) -> Result<(), AllocError>
    ensures { OnOk result (draft.new ≡ put (set_code o) draft.old) }
{
    match o {
        SetOperator::Union => operation(Operation::Or, draft),
        SetOperator::Intersection => operation(Operation::And, draft),
        SetOperator::SymmetricDifference => operation(Operation::Xor, draft),
        SetOperator::Difference => {
            complement(draft)?;
            operation(Operation::And, draft)
        }
    }
}

/// Whether a number is 0, as a number.
pub fn empty(draft: &mut Draft) -> Result<(), AllocError>
    ensures { OnOk result (draft.new ≡ put empty_code draft.old) }
{
    is_zero(draft)?;
    extend_word(draft)
}

/// Whether the second set holds the first.
pub fn within_behind(draft: &mut Draft) -> Result<(), AllocError>
    ensures { OnOk result (draft.new ≡ put within_behind draft.old) }
{
    complement(draft)?;
    around_behind(draft)
}

/// Whether the first set, as its complement, holds the second.
pub fn around_behind(draft: &mut Draft) -> Result<(), AllocError>
    ensures { OnOk result (draft.new ≡ put around_behind draft.old) }
{
    operation(Operation::And, draft)?;
    empty(draft)
}

/// The negative of a number, behind 0 and the number.
pub fn negated_behind(setting: &Setting<'_>, draft: &mut Draft) -> Result<(), AllocError>
    ensures { let code = negated_behind setting.now.home.types in
        OnOk result (draft.new ≡ put code draft.old) }
{
    result_code(setting, Operation::Sub, INTEGER, draft)
}

/// Whether a number is odd.
pub fn odd(draft: &mut Draft) -> Result<(), AllocError>
    ensures { OnOk result (draft.new ≡ put odd_code draft.old) }
{
    draft.push(Op::I64Const(1))?;
    operation(Operation::And, draft)
}

/// A number as a character.
pub fn char_check(draft: &mut Draft) -> Result<(), AllocError>
    ensures { OnOk result (draft.new ≡ put char_check draft.old) }
{
    check_code(0, 255, Fault::OutOfRange, draft)
}

/// The ordinal number of a value of this type.
pub fn ord_check(setting: &Setting<'_>, t: TypeNo, draft: &mut Draft) -> Result<(), AllocError>
    ensures { OnOk result (draft.new ≡ put (ord_check setting.now.home.types t) draft.old) }
{
    if are_same(base_of(&setting.home().module_body().types, t), INTEGER) {
        return check_code(0, 2_147_483_647, Fault::OutOfRange, draft);
    }
    Ok(())
}

/// Ends an `if` whose first side is the second operand of AND.
pub fn end_and(at: usize, draft: &mut Draft) -> Result<(), AllocError>
    ensures { OnOk result (draft.new ≡ ending_and at draft.old) }
{
    let middle = draft.place();
    draft.push(Op::I64Const(0))?;
    draft.close_if_else(at, middle, Some(ValueType::I64));
    Ok(())
}

/// Begins an `if` whose second side is the second operand of OR, and answers its place and the place of its second
/// side.
pub fn begin_or(draft: &mut Draft) -> Result<(usize, usize), AllocError>
    ensures at { IfOk result (λ x. x.0 ≡ place_of draft.old) }
    ensures middle { IfOk result (λ x. x.1 ≡ place_of (begun_or draft.old)) }
    ensures begun { OnOk result (draft.new ≡ begun_or draft.old) }
{
    let at = draft.open()?;
    draft.push(Op::I64Const(1))?;
    let middle = draft.place();
    Ok((at, middle))
}

/// Keeps an element that is in a BITSET.
pub fn keep_element(setting: &Setting<'_>, draft: &mut Draft) -> Result<Amount, AllocError>
    ensures local { let k =
        (put (check_code (pos 0) (pos 31) range_fault) draft.old).counts.numbers in
        IfOk result (λ t. t ≡ number_local (setting_of setting.now) k) }
    ensures kept { OnOk result (draft.new ≡ kept_element (setting_of setting.now) draft.old) }
{
    check_code(0, 31, Fault::OutOfRange, draft)?;
    let t = draft.next_number(setting);
    draft.local_set(&t)?;
    Ok(t)
}

/// Whether the kept element is in a set.
pub fn element_bit(t: &Amount, draft: &mut Draft) -> Result<(), AllocError>
    ensures { OnOk result (draft.new ≡ put (element_bit t.now) draft.old) }
{
    draft.local_get(t)?;
    operation(Operation::ShrU, draft)?;
    draft.push(Op::I64Const(1))?;
    operation(Operation::And, draft)
}

fn before_sign(t: &Amount, draft: &mut Draft) -> Result<(), AllocError>
    ensures { OnOk result (draft.new ≡ put (before_sign t.now) draft.old) }
{
    draft.local_set(t)?;
    draft.local_get(t)?;
    draft.push(Op::I64Const(0))?;
    relation(Relation::LtS, draft)
}

/// An `if` whose first side is the negative of the number, and the second one the number itself.
#[tactic(auto, using(crate::proofs::Sides::negative_is))]
fn negative_or_same(t: &Amount, draft: &mut Draft) -> Result<(), AllocError>
    ensures { OnOk result (draft.new ≡ one (negative_or_same t.now) draft.old) }
{
    let at = draft.open()?;
    draft.push(Op::I64Const(0))?;
    draft.local_get(t)?;
    operation(Operation::Sub, draft)?;
    let middle = draft.place();
    draft.local_get(t)?;
    draft.close_if_else(at, middle, Some(ValueType::I64));
    Ok(())
}

/// The absolute value of a number of this type.
pub fn absolute(setting: &Setting<'_>, t: TypeNo, draft: &mut Draft) -> Result<(), AllocError>
    ensures { OnOk result (draft.new ≡ with_absolute (setting_of setting.now) t draft.old) }
{
    if are_same(t, INTEGER) {
        let local = draft.next_number(setting);
        before_sign(&local, draft)?;
        negative_or_same(&local, draft)?;
        check_code(0, 2_147_483_647, Fault::Overflow, draft)?;
    }
    Ok(())
}

fn before_letter(t: &Amount, draft: &mut Draft) -> Result<(), AllocError>
    ensures { OnOk result (draft.new ≡ put (before_letter t.now) draft.old) }
{
    draft.local_set(t)?;
    draft.local_get(t)?;
    draft.push(Op::I64Const(97))?;
    operation(Operation::Sub, draft)?;
    draft.push(Op::I64Const(25))?;
    relation(Relation::LeU, draft)
}

#[tactic(auto, using(crate::proofs::Sides::lifted_is))]
fn lifted_or_same(t: &Amount, draft: &mut Draft) -> Result<(), AllocError>
    ensures { OnOk result (draft.new ≡ one (lifted_or_same t.now) draft.old) }
{
    let at = draft.open()?;
    draft.local_get(t)?;
    draft.push(Op::I64Const(32))?;
    operation(Operation::Sub, draft)?;
    let middle = draft.place();
    draft.local_get(t)?;
    draft.close_if_else(at, middle, Some(ValueType::I64));
    Ok(())
}

/// The capital letter.
pub fn capital(setting: &Setting<'_>, draft: &mut Draft) -> Result<(), AllocError>
    ensures { OnOk result (draft.new ≡ with_capital (setting_of setting.now) draft.old) }
{
    let local = draft.next_number(setting);
    before_letter(&local, draft)?;
    lifted_or_same(&local, draft)
}
